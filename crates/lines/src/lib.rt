// The lines of the input, byte after byte: "one frame a line, .. each line ended by 0a".
//
// The bytes come in chunks of any size, and a line is gathered in a buffer of 531, one more than the longest frame has digits. A
// longer line fills it, and since that is an odd number of digits it is no frame. What a frame says is stored at the line's end,
// whether or not the frame stands in order; only an input that is in order is trained on.
#![tactic(auto)]

ghost use Rattle.std.specs.Prelude.{◌≡◌, List, ℕ, ◌≤◌, length, take};
ghost use Rattle.lines.specs.Lines.{line_bytes, begun_at, Held, stream_of, end_line, feed, feed_all, last_of};

use frames::Reading;
use stored::{Stored, nothing, store};

// How far the input is read: its frames, what they say, and how much of a line has come.
#[derive(Clone, Copy, Debug, PartialEq)]
pub struct Input {
    pub reading: Reading,
    pub stored: Stored,
    pub used: usize,
}

// Before the first byte.
pub fn begun() -> Input
    ensures { result ≡ begun_at }
{
    Input {
        reading: frames::begun(),
        stored: nothing(),
        used: 0,
    }
}

// The bytes that the first so many of a line are, in front of a slice: how many. What is no frame has none.
#[tactic(auto, unfolding(frames::specs::Bytes::decoded_of, frames::specs::Bytes::decoded_in, crate::specs::Lines::line_bytes))]
fn line_bytes(line: &[u8], used: usize, bytes: &mut [u8]) -> usize
    requires used_in_bounds { used ≤ length line.now }
    requires bytes_len { length bytes.old ≡ 265 }
    ensures { (result ≤ 265) × (take result bytes.new ≡ line_bytes (take used line.now)) }
{
    frames::decode(&line[..used], bytes).unwrap_or(0)
}

// A line has ended.
fn line_end(
    input: Input,
    line: &[u8],
    texts: &mut [u8],
    specials: &mut [u32],
    text: &mut [u8],
    words: &mut [u32],
    frequencies: &mut [u64],
) -> Input
    requires { Held input line.now }
    ensures { (stream_of result line.now texts.new specials.new text.new words.new frequencies.new ≡ end_line (stream_of input line.now texts.old specials.old text.old words.old frequencies.old)) × (result.used ≡ 0) }
{
    let mut bytes = [0u8; 265];
    let n = line_bytes(line, input.used, &mut bytes);
    let frame = frames::read(&bytes[..n]);
    Input {
        reading: frames::step(input.reading, frame),
        stored: store(
            input.stored,
            frame,
            &bytes[..n],
            texts,
            specials,
            text,
            words,
            frequencies,
        ),
        used: 0,
    }
}

// A byte of a line.
#[tactic(auto, unfolding(crate::specs::Lines::feed))]
fn line_more(input: Input, b: u8, line: &mut [u8]) -> Input
    requires held { Held input line.old }
    requires fact { b ≡ 10 → ⊥ }
    ensures frequencies_after { (texts specials text words frequencies : List ℕ) → stream_of result line.new texts specials text words frequencies ≡ feed (stream_of input line.old texts specials text words frequencies) b }
    ensures held_2 { Held result line.new }
{
    let used = input.used;
    if line.len() <= used {
        return input;
    }
    line[used] = b;
    Input {
        used: used + 1,
        ..input
    }
}

// A byte of the input.
#[tactic(auto, unfolding(crate::specs::Lines::feed))]
fn byte(
    input: Input,
    b: u8,
    line: &mut [u8],
    texts: &mut [u8],
    specials: &mut [u32],
    text: &mut [u8],
    words: &mut [u32],
    frequencies: &mut [u64],
) -> Input
    requires { Held input line.old }
    ensures frequencies_after { stream_of result line.new texts.new specials.new text.new words.new frequencies.new ≡ feed (stream_of input line.old texts.old specials.old text.old words.old frequencies.old) b }
    ensures held { Held result line.new }
{
    if b == 10 {
        return line_end(input, line, texts, specials, text, words, frequencies);
    }
    line_more(input, b, line)
}

// A chunk of the input.
#[tactic(auto, using(crate::proofs::Streaming::fed_none, crate::proofs::Streaming::fed_next, crate::proofs::Streaming::fed_all))]
pub fn chunk(
    before: Input,
    got: &[u8],
    line: &mut [u8],
    texts: &mut [u8],
    specials: &mut [u32],
    text: &mut [u8],
    words: &mut [u32],
    frequencies: &mut [u64],
) -> Input
    requires { Held before line.old }
    ensures frequencies_after { stream_of result line.new texts.new specials.new text.new words.new frequencies.new ≡ feed_all (stream_of before line.old texts.old specials.old text.old words.old frequencies.old) got.now }
    ensures held { Held result line.new }
{
    let mut input = before;
    for &b in got {
        input = byte(input, b, line, texts, specials, text, words, frequencies);
    }
    input
}

// The end of the input: a last line without its 0a breaks the rules.
#[tactic(auto, unfolding(crate::specs::Lines::last_of))]
pub fn last(input: Input) -> Input
    ensures { result ≡ last_of input }
{
    if input.used == 0 {
        return input;
    }
    Input {
        reading: frames::step(input.reading, None),
        used: 0,
        ..input
    }
}
