// Numbers as lower-case hexadecimal digits, most significant first: how document 01's frames write every number.
//
// `read` and `write` take the number of digits, two for each byte of the number's width, so that one law holds for the u8,
// the u16, the u32 and the u64 of a frame. Both are total: what does not fit is answered by None, and nothing is
// written then. An upper-case digit is no digit, so each number has one spelling at each width.
#![tactic(auto)]

ghost use Rattle.std.specs.Prelude.{◌≡◌, ◌%◌, length};
ghost use Rattle.hexadecimal.specs.Digits.{digit_of, value_of};
ghost use Rattle.hexadecimal.specs.Frames.{read_at, written_at, write_at};

// The digit of the four low bits of a number.
pub fn digit(v: u8) -> u8
    ensures { result ≡ digit_of (v % 16) }
{
    let low = v % 16;
    if low < 10 {
        b'0' + low
    } else {
        b'a' - 10 + low
    }
}

// The number that a digit stands for. No other byte stands for one.
#[tactic(auto, unfolding(crate::specs::Digits::value_of))]
pub fn value(b: u8) -> Option<u8>
    ensures { result ≡ value_of b }
{
    match b {
        b'0'..=b'9' => Some(b - b'0'),
        b'a'..=b'f' => Some(b - b'a' + 10),
        _ => None,
    }
}

// The number that stands at a position in so many digits, 16 at the most.
#[tactic(auto, unfolding(crate::specs::Frames::read_at, crate::specs::Digits::numeral, crate::specs::Digits::then))]
pub fn read(text: &[u8], at: usize, digits: usize) -> Option<u64>
    ensures { result ≡ read_at text.now at digits }
{
    if 16 < digits || text.len() < at || text.len() - at < digits {
        return None;
    }
    let number = &text[at..at + digits];
    let mut sum: u64 = 0;
    for &byte in number {
        sum = sum * 16 + u64::from(value(byte)?);
    }
    Some(sum)
}

// Writes the low digits of a number, so many of them, at a position. Answers where the next byte goes; or that there was no
// room, and nothing was written.
#[tactic(auto, unfolding(crate::specs::Frames::written_at, crate::specs::Frames::write_at))]
pub fn write(out: &mut [u8], at: usize, digits: usize, x: u64) -> Option<usize>
    ensures value { result ≡ written_at (length out.old) at digits }
    ensures out_after { out.new ≡ write_at out.old at digits x }
{
    if out.len() < at || out.len() - at < digits {
        return None;
    }
    let mut left = x;
    for k in (0..digits).rev() {
        out[at + k] = digit((left % 16) as u8);
        left /= 16;
    }
    Some(at + digits)
}
