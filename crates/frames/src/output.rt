// The frames out: "`11` refusal u8, place u32, tokens u32, specials u16, required u32, stop u8 (0 target, 1 stalled); `12` id
// u32, score bits, length u8, bytes; `13` tokens u32. A refusal writes 11 with zeros after the place, then 13 with zero."
//
// A frame goes into a lent slice at a position, whole or not at all, with the 0a that ends its line.
ghost use Rattle.std.specs.Prelude.{◌≡◌, ◌+◌, ◌*◌, ◌≤◌, ◌<◌, length};
ghost use Rattle.hexadecimal.specs.Digits.{digits_of};
ghost use Rattle.frames.specs.Answers.{Put, clamped, trained_of, refused_of, fields_of, spelt_of, fields_line, answer_line, token_line, count_line, line_written, line_in, token_written, token_in};

use refusal::Refusal;

// What an 11 says of a training.
#[derive(Clone, Copy, Debug, PartialEq, Eq)]
pub struct Summary {
    pub tokens: u32,
    pub specials: u16,
    pub required: u32,
    pub stalled: bool,
}

// The numbers of an 11, each as wide as it is there.
#[derive(Clone, Copy, Debug, PartialEq, Eq)]
pub struct Fields {
    pub refusal: u8,
    pub place: u32,
    pub tokens: u32,
    pub specials: u16,
    pub required: u32,
    pub stop: u8,
}

// A number in 32 bits, or the widest where it has more. No place and no count of training is wider.
fn narrow(x: u64) -> u32
    ensures { result ≡ clamped 4294967295 x }
{
    x.min(u64::from(u32::MAX)) as u32
}

// A number in 16 bits, or the widest.
fn narrower(x: usize) -> u16
    ensures { result ≡ clamped 65535 x }
{
    x.min(usize::from(u16::MAX)) as u16
}

// What is said of a training: so many tokens, of which so many are specials and so many are required, and why it stopped.
pub fn trained(tokens: usize, specials: usize, required: usize, stalled: bool) -> Summary
    ensures { result ≡ trained_of tokens specials required stalled }
{
    Summary {
        tokens: narrow(tokens as u64),
        specials: narrower(specials),
        required: narrow(required as u64),
        stalled,
    }
}

// The 11 of a refusal: "A refusal writes 11 with zeros after the place".
pub fn refused(r: Refusal) -> Fields
    ensures { result ≡ refused_of r }
{
    Fields {
        refusal: refusal::number(r),
        place: narrow(refusal::place(r)),
        tokens: 0,
        specials: 0,
        required: 0,
        stop: 0,
    }
}

// The 11 of an answer: "stop u8 (0 target, 1 stalled)".
fn to_fields(answer: Result<Summary, Refusal>) -> Fields
    ensures { result ≡ fields_of answer }
{
    match answer {
        Ok(summary) => Fields {
            refusal: 0,
            place: 0,
            tokens: summary.tokens,
            specials: summary.specials,
            required: summary.required,
            stop: u8::from(summary.stalled),
        },
        Err(r) => refused(r),
    }
}

// Writes a number in so many digits.
fn put(out: &mut [u8], at: usize, digits: usize, x: u64) -> usize
    requires { at + digits ≤ length out.old }
    ensures put { Put out.old at (digits_of digits x) out.new result }
    ensures value { result ≡ at + digits }
{
    hexadecimal::write(out, at, digits, x);
    at + digits
}

// Writes the digits of a text's bytes.
#[tactic(auto, using(crate::proofs::Lines::spelling_room, crate::proofs::Lines::spelling_end, crate::proofs::Lines::spelling_behind))]
fn put_text(out: &mut [u8], at: usize, text: &[u8]) -> usize
    requires { at + 2 * length text.now ≤ length out.old }
    ensures put { Put out.old at (spelt_of text.now) out.new result }
    ensures value { result ≡ at + 2 * length text.now }
{
    let mut next = at;
    for &b in text {
        next = put(out, next, 2, u64::from(b));
    }
    next
}

// Writes an 11 of any numbers.
#[tactic(auto, using(crate::proofs::Lines::length_fields), unfolding(crate::specs::Answers::line_written, crate::specs::Answers::line_in))]
pub fn write_fields(out: &mut [u8], at: usize, fields: Fields) -> Option<usize>
    ensures value { result ≡ line_written out.old at (fields_line fields) }
    ensures out_after { out.new ≡ line_in out.old at (fields_line fields) }
{
    if out.len() < at || out.len() - at < 35 {
        return None;
    }
    let a = put(out, at, 2, 0x11);
    let b = put(out, a, 2, u64::from(fields.refusal));
    let c = put(out, b, 8, u64::from(fields.place));
    let d = put(out, c, 8, u64::from(fields.tokens));
    let e = put(out, d, 4, u64::from(fields.specials));
    let f = put(out, e, 8, u64::from(fields.required));
    let g = put(out, f, 2, u64::from(fields.stop));
    out[g] = 10;
    Some(g + 1)
}

// Writes the 11 of an answer.
pub fn write_answer(out: &mut [u8], at: usize, answer: Result<Summary, Refusal>) -> Option<usize>
    ensures value { result ≡ line_written out.old at (answer_line answer) }
    ensures out_after { out.new ≡ line_in out.old at (answer_line answer) }
{
    write_fields(out, at, to_fields(answer))
}

// Writes a 12. No token has more bytes than a u8 can say: for one that had, there would be no room.
#[tactic(auto, using(crate::proofs::Lines::length_token), unfolding(crate::specs::Answers::token_written, crate::specs::Answers::token_in, crate::specs::Answers::line_written, crate::specs::Answers::line_in))]
pub fn write_token(out: &mut [u8], at: usize, id: u32, score: f64, text: &[u8]) -> Option<usize>
    ensures value { result ≡ token_written out.old at id score text.now }
    ensures out_after { out.new ≡ token_in out.old at id score text.now }
{
    if 255 < text.len() || out.len() < at || out.len() - at < 29 + 2 * text.len() {
        return None;
    }
    let a = put(out, at, 2, 0x12);
    let b = put(out, a, 8, u64::from(id));
    let c = put(out, b, 16, math::bits(score));
    let d = put(out, c, 2, text.len() as u64);
    let e = put_text(out, d, text);
    out[e] = 10;
    Some(e + 1)
}

// Writes a 13.
#[tactic(auto, using(crate::proofs::Lines::length_count), unfolding(crate::specs::Answers::line_written, crate::specs::Answers::line_in))]
pub fn write_count(out: &mut [u8], at: usize, tokens: u32) -> Option<usize>
    ensures value { result ≡ line_written out.old at (count_line tokens) }
    ensures out_after { out.new ≡ line_in out.old at (count_line tokens) }
{
    if out.len() < at || out.len() - at < 11 {
        return None;
    }
    let a = put(out, at, 2, 0x13);
    let b = put(out, a, 8, u64::from(tokens));
    out[b] = 10;
    Some(b + 1)
}
