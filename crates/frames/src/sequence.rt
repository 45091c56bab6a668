// The order of frames: "One 01, then as many 02 as it says, the 03s, one 04 that counts them; nothing after. At an early end the
// place is the next line."
//
// The state is small and goes by value, so that any number of lines can be read. A line that breaks the rules is remembered and
// the rest is passed over: the place is the first such line. Lines are counted up to 4,294,967,295, the widest place that frame
// 11 holds, and a line beyond that has that number. Words are counted up to 4,294,967,296, more than a 04 can say, so no 04 is
// right there.
ghost use Rattle.std.specs.Prelude.{◌≡◌};
ghost use Rattle.frames.specs.Sequence.{next as next_of, specials_awaited, after as after_of, counted_of, begun_of, step_of, end_of};

use crate::input::Frame;

// The widest place of frame 11.
pub const LINES: u64 = u32::MAX as u64;
// One more word than a 04 can say.
pub const WORDS: u64 = LINES + 1;

// What may come next: the 01; a 02, and so many in all; a 03 or the 04; or nothing more. Or a line, from 1, broke the rules.
#[derive(Clone, Copy, Debug, PartialEq, Eq)]
pub enum Awaited {
    First,
    Specials(u16),
    Words,
    Nothing,
    Broken(u64),
}

// How far the input is read: what may come next, and how many lines and words were read.
#[derive(Clone, Copy, Debug, PartialEq, Eq)]
pub struct Reading {
    pub awaited: Awaited,
    pub lines: u64,
    pub words: u64,
}

// One more, up to a bound.
fn next(n: u64, most: u64) -> u64
    ensures { result ≡ next_of n most }
{
    if n < most { n + 1 } else { n }
}

// Before the first line.
pub fn begun() -> Reading
    ensures { result ≡ begun_of }
{
    Reading {
        awaited: Awaited::First,
        lines: 0,
        words: 0,
    }
}

// What may come next where so many 02 are to come.
fn awaiting(specials: u16) -> Awaited
    ensures { result ≡ specials_awaited specials }
{
    if specials == 0 {
        Awaited::Words
    } else {
        Awaited::Specials(specials)
    }
}

// What may come after a frame, or what is none, which stands in a line, after so many words.
fn after(awaited: Awaited, frame: Option<Frame>, words: u64, line: u64) -> Awaited
    ensures { result ≡ after_of awaited frame words line }
{
    match (awaited, frame) {
        (Awaited::First, Some(Frame::Settings { specials, .. })) => awaiting(specials),
        (Awaited::Specials(specials), Some(Frame::Special { .. })) => {
            awaiting(specials.saturating_sub(1))
        }
        (Awaited::Words, Some(Frame::Word { .. })) => Awaited::Words,
        (Awaited::Words, Some(Frame::Count(count))) if u64::from(count) == words => {
            Awaited::Nothing
        }
        (Awaited::Broken(before), _) => Awaited::Broken(before),
        _ => Awaited::Broken(line),
    }
}

// So many words, and a line.
fn counted(words: u64, frame: Option<Frame>) -> u64
    ensures { result ≡ counted_of words frame }
{
    match frame {
        Some(Frame::Word { .. }) => next(words, WORDS),
        _ => words,
    }
}

// One line more: which frame it is, if it is one. The last line is none where it has no 0a.
#[tactic(auto, unfolding(crate::specs::Sequence::step_of))]
pub fn step(reading: Reading, frame: Option<Frame>) -> Reading
    ensures { result ≡ step_of reading frame }
{
    let line = next(reading.lines, LINES);
    Reading {
        awaited: after(reading.awaited, frame, reading.words, line),
        lines: line,
        words: counted(reading.words, frame),
    }
}

// At the end of the input: it is in order, or the line where it breaks the rules.
#[tactic(auto, unfolding(crate::specs::Sequence::end_of))]
pub fn finish(reading: Reading) -> Result<(), u64>
    ensures { result ≡ end_of reading }
{
    let line = next(reading.lines, LINES);
    match reading.awaited {
        Awaited::Nothing => Ok(()),
        Awaited::Broken(before) => Err(before),
        _ => Err(line),
    }
}
