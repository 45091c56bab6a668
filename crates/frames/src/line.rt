// A line's digits as bytes: "Lower-case hexadecimal".
//
// The digits are looked at before the first byte is written, so that a line that breaks the rules leaves the lent bytes alone.
ghost use Rattle.std.specs.Prelude.{◌≡◌, ◌++◌, ◌/◌, ◌≤◌, ◌<◌, length, drop};
ghost use Rattle.frames.specs.Bytes.{is_digit, nibble_of, digits_only, bytes_of, decoded_of, decoded_in};

// Whether a byte is a digit.
fn is_digit(b: u8) -> bool
    ensures { result ≡ is_digit b }
{
    hexadecimal::value(b).is_some()
}

// The number that a digit stands for, and 0 for what is no digit.
#[tactic(auto, using(hexadecimal::proofs::Valued::digit_below))]
fn nibble(b: u8) -> u8
    ensures value { result ≡ nibble_of b }
    ensures upper_bound { result < 16 }
{
    hexadecimal::value(b).unwrap_or(0)
}

// Whether a line is all digits.
fn all_digits(line: &[u8]) -> bool
    ensures { result ≡ digits_only line.now }
{
    line.iter().all(|b| is_digit(*b))
}

// Writes the bytes that a line's pairs of digits are.
#[tactic(auto, using(crate::proofs::Decoding::pairs_none))]
fn pairs(line: &[u8], bytes: &mut [u8])
    requires { length line.now / 2 ≤ length bytes.old }
    ensures { bytes.new ≡ bytes_of line.now ++ drop (length line.now / 2) bytes.old }
{
    for i in 0..line.len() / 2 {
        bytes[i] = nibble(line[2 * i]) * 16 + nibble(line[2 * i + 1]);
    }
}

// Writes the bytes of a line, without its 0a, to the front of those that are lent: how many. There is no answer to a line that is
// not digits in pairs, or longer than what is lent.
#[tactic(auto, unfolding(crate::specs::Bytes::decoded_of, crate::specs::Bytes::decoded_in))]
pub fn decode(line: &[u8], bytes: &mut [u8]) -> Option<usize>
    ensures value { result ≡ decoded_of line.now (length bytes.old) }
    ensures bytes_after { bytes.new ≡ decoded_in line.now bytes.old }
{
    let count = line.len() / 2;
    if line.len() % 2 != 0 || bytes.len() < count || !all_digits(line) {
        return None;
    }
    pairs(line, bytes);
    Some(count)
}
