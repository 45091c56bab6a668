// Which character stands at a position of a text, and which texts are UTF-8.
//
// This crate is step 1 of document 01's port order. RFC 3629 decides, and not the Rust. `decode` answers for one position,
// `measure` for a whole text. Both go by one table of 256 classes of the first byte, a static that is read where it stands. An
// ASCII byte is its own character, and is answered before the table is asked. What is proved of them stands in
// proofs/Theorems.antt.
#![tactic(auto)]

mod table;

ghost use Rattle.std.specs.Prelude.{◌≡◌, ◌+◌, ◌≤◌, ◌<◌, length, drop};
ghost use Rattle.utf8.specs.Decode.{within, decoded_after, by_class, decoded, decoded_by};
ghost use Rattle.utf8.specs.Chars.{measured, valid_of};

pub use table::classes;

// A character: its code point, and how many bytes it takes.
#[derive(Clone, Copy, Debug, PartialEq, Eq)]
pub struct Char {
    pub code: u32,
    pub width: usize,
}

// Whether a byte lies in a range of the grammar.
fn within(low: u8, high: u8, byte: u8) -> bool
    ensures { result ≡ within low high byte }
{
    low <= byte && byte <= high
}

// The bytes after the first, whose free bits are `lead`: one from `low` to `high`, and then so many UTF8-tails.
fn follow(text: &[u8], at: usize, lead: u32, low: u8, high: u8, tails: usize) -> Option<Char>
    requires { (at < length text.now) × (lead < 32) × (tails ≤ 2) }
    ensures { result ≡ decoded_after lead low high tails (drop (at + 1) text.now) }
{
    let second = *text.get(at + 1)?;
    if !within(low, high, second) {
        return None;
    }
    let mut code = lead * 64 + u32::from(second) % 64;
    for next in at + 2..at + 2 + tails {
        let tail = *text.get(next)?;
        if !within(0x80, 0xBF, tail) {
            return None;
        }
        code = code * 64 + u32::from(tail) % 64;
    }
    Some(Char {
        code,
        width: tails + 2,
    })
}

// The character that a byte of a class begins. Kept apart from the loops over texts, so that an ASCII byte costs them no call.
#[inline(never)]
#[tactic(auto, unfolding(crate::specs::Decode::by_class))]
fn of_class(class: u8, text: &[u8], at: usize, byte: u8) -> Option<Char>
    requires { at < length text.now }
    ensures { result ≡ by_class class byte (drop (at + 1) text.now) }
{
    let first = u32::from(byte);
    match class {
        1 => Some(Char {
            code: first,
            width: 1,
        }),
        2 => follow(text, at, first % 32, 0x80, 0xBF, 0),
        3 => follow(text, at, first % 16, 0xA0, 0xBF, 1),
        4 => follow(text, at, first % 16, 0x80, 0xBF, 1),
        5 => follow(text, at, first % 16, 0x80, 0x9F, 1),
        6 => follow(text, at, first % 8, 0x90, 0xBF, 2),
        7 => follow(text, at, first % 8, 0x80, 0xBF, 2),
        8 => follow(text, at, first % 8, 0x80, 0x8F, 2),
        _ => None,
    }
}

// The character at a position. Past the end there is none.
#[inline(always)]
pub fn decode(text: &[u8], at: usize) -> Option<Char>
    ensures { result ≡ decoded (drop at text.now) }
{
    decode_by(classes(), text, at)
}

// The same by any table of classes. With that of `classes` the answer is that of `decode`.
#[inline(always)]
pub fn decode_by(classes: &[u8; 256], text: &[u8], at: usize) -> Option<Char>
    ensures { result ≡ decoded_by classes.now (drop at text.now) }
{
    let byte = *text.get(at)?;
    if byte < 0x80 {
        return Some(Char {
            code: u32::from(byte),
            width: 1,
        });
    }
    of_class(classes[usize::from(byte)], text, at, byte)
}

// How many characters a text has. If it is not UTF-8, the offset of the first byte that begins no character.
pub fn measure(text: &[u8]) -> Result<usize, usize>
    ensures { result ≡ measured text.now }
{
    let mut at = 0;
    let mut count = 0;
    // A `while`, since each character says how far it goes.
    while at < text.len() {
        at += decode(text, at).ok_or(at)?.width;
        count += 1;
    }
    Ok(count)
}

// How many bytes at the front of a text are UTF-8: all of them, or those before the first that begins no character.
#[tactic(auto, unfolding(crate::specs::Chars::measured))]
pub fn valid_up_to(text: &[u8]) -> usize
    ensures { result ≡ valid_of text.now }
{
    match measure(text) {
        Ok(_) => text.len(),
        Err(at) => at,
    }
}
