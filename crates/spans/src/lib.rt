// Which bytes of a text a word or a piece is, and which words and pieces are refused.
//
// Words and pieces are lent as a text and a slice of numbers, two each: where its bytes begin, and how many they are. No text
// is copied, spans may overlap, and an odd number at the end of the slice is no word. `check` is document 01's BadWord and
// BadPiece: "over 255 bytes, or outside the text" and "not UTF-8 or outside its text", at the lowest index.
#![tactic(auto)]

ghost use Rattle.std.specs.Prelude.{◌≡◌, ◌+◌, ◌*◌, ◌≤◌, ◌<◌, length};
ghost use Rattle.laws.specs.Tests.{Says};
ghost use Rattle.spans.specs.Spans.{many, from, bytes, Inside, octets, bytes_before};
ghost use Rattle.spans.specs.Check.{Good, Answers};

use utf8::measure;

// How many words or pieces there are.
pub fn count(spans: &[u32]) -> usize
    ensures { result ≡ many spans.now }
{
    spans.len() / 2
}

// Where the bytes of one begin.
pub fn from(spans: &[u32], k: usize) -> usize
    requires { k < many spans.now }
    ensures { result ≡ from spans.now k }
{
    spans[2 * k] as usize
}

// How many bytes it has.
pub fn bytes(spans: &[u32], k: usize) -> usize
    requires { k < many spans.now }
    ensures { result ≡ bytes spans.now k }
{
    spans[2 * k + 1] as usize
}

// Its bytes.
pub fn octets<'a>(text: &'a [u8], spans: &[u32], k: usize) -> &'a [u8]
    requires { (k < many spans.now) × Inside text.now spans.now k }
    ensures { result.now ≡ octets text.now spans.now k }
{
    let low = from(spans, k);
    &text[low..low + bytes(spans, k)]
}

// How many bytes all have together. So many numbers of 32 bits have a sum of 64 bits.
pub fn all_bytes(spans: &[u32]) -> usize
    requires { many spans.now ≤ 4294967296 }
    ensures { result ≡ bytes_before spans.now (many spans.now) }
{
    let mut sum = 0;
    for k in 0..count(spans) {
        sum += bytes(spans, k);
    }
    sum
}

// Whether one lies inside its text, has at most so many bytes, and is UTF-8.
fn good(text: &[u8], spans: &[u32], most: usize, k: usize) -> bool
    requires { k < many spans.now }
    ensures { Says result (Good text.now spans.now most k) }
{
    let long = bytes(spans, k);
    if most < long {
        return false;
    }
    if text.len() < from(spans, k) + long {
        return false;
    }
    measure(octets(text, spans, k)).is_ok()
}

// All words or pieces are as they should be; or the first that is outside its text, over so many bytes, or not UTF-8.
pub fn check(text: &[u8], spans: &[u32], most: usize) -> Result<(), usize>
    ensures { Answers text.now spans.now most result }
{
    for k in 0..count(spans) {
        if !good(text, spans, most, k) {
            return Err(k);
        }
    }
    Ok(())
}
