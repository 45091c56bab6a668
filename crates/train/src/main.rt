// The program `train`: frames in on standard input, tokens out on standard output. Document 01, "Frames".
//
// It reads to the end of the input, whatever stands there, in memory that does not grow: a line of more than 530 digits is no
// frame, and of what has no room only that is kept. Then the first refusal that applies is told: BadFrame, NoRoom 5, and
// training's own. It ends with status 0, refused or not, and writes nothing to standard error; unless a read or a write fails,
// which ends it with status 1.
//
// No contract can say what is read, so the proofs begin behind that: from the bytes of a chunk to the frames of its lines and to
// the slices that training is lent (crate `lines`), and from there to the answer (crate `room`).
//
// stdin and stdout beside src/ are document 01's sample. The file cases has some hundred inputs more and what is printed for each:
// tools/vectors/train.py makes it, and tools/train.py runs it.
#![tactic(auto)]

mod learn;
mod read;
mod show;

use learn::learn;
use read::read_input;
use std::io;

fn main(rt: HostRuntime) -> io::Result<()> {
    let mut texts = [0u8; 65535];
    let mut specials = [0u32; 514];
    let mut text = [0u8; 8192];
    let mut words = [0u32; 512];
    let mut frequencies = [0u64; 256];
    let (input, ended) = read_input(
        &rt,
        &mut texts,
        &mut specials,
        &mut text,
        &mut words,
        &mut frequencies,
    );
    ended?;
    learn(&rt, input, &texts, &specials, &text, &words, &frequencies)
}
