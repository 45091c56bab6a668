// What the frames say, stored in lent slices, frame after frame: the settings, the specials, and the words with their frequencies.
//
// Document 01: "room for 256 words, 8,192 word bytes", and NoRoom 5 is "the program's word room". So a word without room is
// remembered, and none after it is stored. A special without room is passed over: whoever lends room for one special more than
// settings allow is told by their check that there are too many.
#![tactic(auto)]

ghost use Rattle.std.specs.Prelude.{◌≡◌, true, List, ℕ, ◌+◌, leb};
ghost use Rattle.stored.specs.Stored.{texts as texts_of, tables, part, fits, behind, nothing, has_room, with_special, with_word, store_of};

use copied::put;
use frames::Frame;
use settings::Settings;

// How many texts a slice of spans has, and how many bytes they have together.
#[derive(Clone, Copy, Debug, PartialEq, Eq)]
pub struct Run {
    pub bytes: usize,
    pub count: usize,
}

// What is stored; `short` where a word had no room. The words before it stand, so this is no Option of theirs.
#[derive(Clone, Copy, Debug, PartialEq)]
pub struct Stored {
    pub settings: Settings,
    pub specials: Run,
    pub words: Run,
    pub short: bool,
}

// Before the first frame.
pub fn nothing() -> Stored
    ensures { result ≡ nothing }
{
    Stored {
        settings: Settings::new(),
        specials: Run { bytes: 0, count: 0 },
        words: Run { bytes: 0, count: 0 },
        short: false,
    }
}

// Whether so many from an index on are among so many.
fn within(from: usize, length: usize, size: usize) -> bool
    ensures { result ≡ leb (from + length) size }
{
    from <= size && length <= size - from
}

// Whether a frame has such a part, and there is room for it behind a run.
fn fits(run: Run, bytes: &[u8], from: usize, length: usize, text: &[u8], spans: &[u32]) -> bool
    ensures { result ≡ fits (texts_of run text.now spans.now) bytes.now from length }
{
    within(from, length, bytes.len())
        && within(run.bytes, length, text.len())
        && within(run.bytes, length, u32::MAX as usize)
        && run.count < spans.len() / 2
}

// A run with a part of a frame behind it.
fn append(
    run: Run,
    bytes: &[u8],
    from: usize,
    length: usize,
    text: &mut [u8],
    spans: &mut [u32],
) -> Run
    requires { fits (texts_of run text.old spans.old) bytes.now from length ≡ true }
    ensures { texts_of result text.new spans.new ≡ behind (texts_of run text.old spans.old) (part bytes.now from length) }
{
    let to = from + length;
    Run {
        bytes: put(&bytes[from..to], text, spans, run.count, run.bytes),
        count: run.count + 1,
    }
}

// With the special of a 02.
fn with_special(
    stored: Stored,
    bytes: &[u8],
    from: usize,
    length: usize,
    texts: &mut [u8],
    specials: &mut [u32],
) -> Stored
    ensures { (text words frequencies : List ℕ) → tables result texts.new specials.new text words frequencies ≡ with_special (tables stored texts.old specials.old text words frequencies) bytes.now from length }
{
    let run = stored.specials;
    if !fits(run, bytes, from, length, texts, specials) {
        return stored;
    }
    Stored {
        specials: append(run, bytes, from, length, texts, specials),
        ..stored
    }
}

// Whether the word of a 03 is stored: none before it lacked room, nor does it.
fn has_room(
    stored: Stored,
    bytes: &[u8],
    from: usize,
    length: usize,
    text: &[u8],
    words: &[u32],
    frequencies: &[u64],
) -> bool
    ensures { result ≡ has_room (texts_of stored.words text.now words.now) frequencies.now stored.short bytes.now from length }
{
    let run = stored.words;
    !stored.short && run.count < frequencies.len() && fits(run, bytes, from, length, text, words)
}

// With the word of a 03.
fn with_word(
    stored: Stored,
    frequency: u64,
    bytes: &[u8],
    from: usize,
    length: usize,
    text: &mut [u8],
    words: &mut [u32],
    frequencies: &mut [u64],
) -> Stored
    ensures { (texts specials : List ℕ) → tables result texts specials text.new words.new frequencies.new ≡ with_word (tables stored texts specials text.old words.old frequencies.old) frequency bytes.now from length }
{
    if !has_room(stored, bytes, from, length, text, words, frequencies) {
        return Stored {
            short: true,
            ..stored
        };
    }
    let run = stored.words;
    frequencies[run.count] = frequency;
    Stored {
        words: append(run, bytes, from, length, text, words),
        ..stored
    }
}

// Stores what a frame says, whose bytes are lent; a line that is none says nothing.
#[tactic(auto, unfolding(crate::specs::Stored::store_of))]
pub fn store(
    stored: Stored,
    frame: Option<Frame>,
    bytes: &[u8],
    texts: &mut [u8],
    specials: &mut [u32],
    text: &mut [u8],
    words: &mut [u32],
    frequencies: &mut [u64],
) -> Stored
    ensures { tables result texts.new specials.new text.new words.new frequencies.new ≡ store_of (tables stored texts.old specials.old text.old words.old frequencies.old) frame bytes.now }
{
    match frame {
        Some(Frame::Settings { settings, .. }) => Stored { settings, ..stored },
        Some(Frame::Special { from, length }) => {
            with_special(stored, bytes, from, length, texts, specials)
        }
        Some(
            Frame::Word {
                frequency,
                from,
                length,
            },
        ) => with_word(
            stored,
            frequency,
            bytes,
            from,
            length,
            text,
            words,
            frequencies,
        ),
        Some(Frame::Count(_)) | None => stored,
    }
}
