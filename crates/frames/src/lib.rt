// Document 01's "Frames": the lines that the program `train` reads and writes.
//
// A line is digits; `decode` makes them bytes, `read` makes those a frame, and `step` says whether that frame may stand where it
// does. The answer goes out by `write_answer`, `write_token` and `write_count`. All are total, and what breaks the rules is a
// None or an Err: it is the program that turns it into BadFrame. Nothing here reads or writes a file, so each promise is one
// equation with a definition of specs/, which are the document's sentences over lists of bytes.
#![tactic(auto)]

mod input;
mod line;
mod output;
mod sequence;

pub use input::{Frame, read};
pub use line::decode;
pub use output::{
    Fields, Summary, refused, trained, write_answer, write_count, write_fields, write_token,
};
pub use sequence::{Awaited, Reading, begun, finish, step};
