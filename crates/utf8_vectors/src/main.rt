// Runs RFC 3629's own sequences, and every boundary of every class of first byte, and says how many differ from what they
// should be. The lines of standard input are made by tools/vectors/utf8.py, which says what each part of a line is:
//
//     BYTES CODE WIDTH WHOLE NUMBER
//
// The proofs rest on none of this. It ties the definitions in `utf8` to a decoder that somebody else wrote.
#![tactic(auto)]

ghost use Rattle.std.specs.Prelude.{◌≤◌};

use reads::read_full;
use std::io;

// After BYTES and a space: CODE, WIDTH, WHOLE and NUMBER, with a space between each two.
const ANSWER: usize = 13;

// What `utf8` says of a sequence, in the numbers of a line.
#[derive(Clone, Copy, Debug, PartialEq, Eq)]
struct Says {
    code: u64,
    width: u64,
    whole: u64,
    number: u64,
}

// What `utf8` says of a sequence.
fn answer(bytes: &[u8]) -> Says {
    let (code, width) = match utf8::decode(bytes, 0) {
        Some(found) => (found.code, found.width),
        None => (0, 0),
    };
    let (whole, number) = match utf8::measure(bytes) {
        Ok(count) => (1, count),
        Err(at) => (0, at),
    };
    Says {
        code: u64::from(code),
        width: width as u64,
        whole,
        number: number as u64,
    }
}

// Whether a number stands at a position in so many digits.
fn stands(text: &[u8], at: usize, digits: usize, x: u64) -> bool {
    hexadecimal::read(text, at, digits) == Some(x)
}

// Whether a text is an answer.
fn agrees(text: &[u8], a: Says) -> bool {
    text.len() == ANSWER
        && stands(text, 0, 6, a.code)
        && stands(text, 7, 1, a.width)
        && stands(text, 9, 1, a.whole)
        && stands(text, 11, 2, a.number)
}

// Turns pairs of digits into bytes, as long as there are pairs and room. It answers how many bytes there are.
fn unhex(text: &[u8], bytes: &mut [u8; 64]) -> usize
    ensures { result ≤ 64 }
{
    for n in 0..bytes.len() {
        match hexadecimal::read(text, 2 * n, 2) {
            Some(v) => {
                bytes[n] = (v % 256) as u8;
            }
            None => {
                return n;
            }
        }
    }
    bytes.len()
}

// Whether a line, without its 0a, says of its sequence what `utf8` says.
fn line(text: &[u8]) -> bool {
    let mut bytes = [0u8; 64];
    let n = unhex(text, &mut bytes);
    let space = 2 * n;
    space < text.len() && agrees(&text[space + 1..], answer(&bytes[..n]))
}

// How many lines there are, and how many of them differ.
#[derive(Clone, Copy, Debug, PartialEq, Eq)]
struct Tally {
    lines: usize,
    differ: usize,
}

// Goes through the lines. A last line without its 0a counts.
fn tally_of(text: &[u8]) -> Tally {
    let mut lines = 0;
    let mut differ = 0;
    for ended in text.split_inclusive(|&byte| byte == b'\n') {
        lines += 1;
        if !line(ended.strip_suffix(b"\n").unwrap_or(ended)) {
            differ += 1;
        }
    }
    Tally { lines, differ }
}

fn main(rt: HostRuntime) -> io::Result<()> {
    let mut buffer = [0u8; 262144];
    let size = read_full(&mut rt.stdin(), &mut buffer)?;
    let Tally { lines, differ } = tally_of(&buffer[..size]);
    println!(rt; "utf8_vectors: {lines} sequences, {differ} differ")
}
