// The program's answer to an input: a broken line, words without room, or training's answer, with the program's room.
//
// Document 01: "The program `train` has room for 256 words, 8,192 word bytes, 1,024 pieces, 4,096 nodes, 8,192 edges, 8,704 offsets,
// 65,536 result bytes; no other room runs short." The work slices stand here, and nothing of them is left behind. A node has two
// places of the trie, and a word a span of the cache.
#![tactic(auto)]

ghost use Rattle.std.specs.Prelude.{◌≡◌, ◌*◌, min};
ghost use Rattle.training.specs.Train.{Answers};
ghost use Rattle.stored.specs.Stored.{tables};
ghost use Rattle.frames.specs.Sequence.{end_of};
ghost use Rattle.listing.specs.Start.{lists_of, paired_of};
ghost use Rattle.room.specs.Room.{rooms, lent_by, Replies};

use lines::Input;
use listing::Lent;
use make::Trained;
use refusal::Refusal;
use stored::Stored;

// Trains on what is lent, and writes the tokens to slices that are lent.
fn train(
    lent: Lent,
    bytes: &mut [u8],
    tokens: &mut [u32],
    token_scores: &mut [f64],
) -> Result<Trained, Refusal>
    ensures { Answers (paired_of (lists_of lent.entry)) rooms (record { bytes = bytes.old; tokens = tokens.old; scores = token_scores.old }) (record { bytes = bytes.new; tokens = tokens.new; scores = token_scores.new }) result }
{
    let mut kept = [0u32; 512];
    let mut counts = [0u64; 256];
    let mut table = [0u32; 512];
    let mut chars = [0u32; 8192];
    let mut places = [0u32; 24576];
    let mut order = [0u32; 8192];
    let mut work = [0u32; 8192];
    let mut ranks = [0u64; 8192];
    let mut pieces = [0u32; 2048];
    let mut tallies = [0u64; 1024];
    let mut scores = [0.0; 1024];
    let mut expected = [0.0; 1024];
    let mut keys = [0u64; 8192];
    let mut ends = [0u32; 8192];
    let mut offsets = [0u32; 8704];
    let mut starts = [0u32; 8192];
    let mut ids = [0u32; 8192];
    let mut spans = [0u32; 1024];
    training::train(
        lent.settings,
        lent.texts,
        lent.specials,
        lent.text,
        lent.words,
        lent.frequencies,
        &mut kept,
        &mut counts,
        &mut table,
        &mut chars,
        &mut places,
        &mut order,
        &mut work,
        &mut ranks,
        &mut pieces,
        &mut tallies,
        &mut scores,
        &mut expected,
        &mut keys,
        &mut ends,
        &mut offsets,
        &mut starts,
        &mut ids,
        &mut spans,
        bytes,
        tokens,
        token_scores,
    )
}

// How many numbers the spans of so many texts are, of those that are lent.
fn pairs(texts: usize, numbers: usize) -> usize
    ensures { result ≡ min (2 * texts) numbers }
{
    texts.saturating_mul(2).min(numbers)
}

// Trains on what was stored in slices: training is lent the part of each that was filled.
fn learn(
    stored: Stored,
    texts: &[u8],
    specials: &[u32],
    text: &[u8],
    words: &[u32],
    frequencies: &[u64],
    bytes: &mut [u8],
    tokens: &mut [u32],
    token_scores: &mut [f64],
) -> Result<Trained, Refusal>
    ensures { Answers (lent_by (tables stored texts.now specials.now text.now words.now frequencies.now)) rooms (record { bytes = bytes.old; tokens = tokens.old; scores = token_scores.old }) (record { bytes = bytes.new; tokens = tokens.new; scores = token_scores.new }) result }
{
    let a = stored.specials.bytes.min(texts.len());
    let b = pairs(stored.specials.count, specials.len());
    let c = stored.words.bytes.min(text.len());
    let d = pairs(stored.words.count, words.len());
    let e = stored.words.count.min(frequencies.len());
    let lent = Lent {
        settings: stored.settings,
        texts: &texts[..a],
        specials: &specials[..b],
        text: &text[..c],
        words: &words[..d],
        frequencies: &frequencies[..e],
    };
    train(lent, bytes, tokens, token_scores)
}

// What is answered to an input that was read to its end: "1 .. (program only)", then "5 the program's word room, checked after 1 and
// before 2", then training's own.
pub fn answer(
    input: Input,
    texts: &[u8],
    specials: &[u32],
    text: &[u8],
    words: &[u32],
    frequencies: &[u64],
    bytes: &mut [u8],
    tokens: &mut [u32],
    token_scores: &mut [f64],
) -> Result<Trained, Refusal>
    ensures { Replies (end_of input.reading) (tables input.stored texts.now specials.now text.now words.now frequencies.now) (record { bytes = bytes.old; tokens = tokens.old; scores = token_scores.old }) (record { bytes = bytes.new; tokens = tokens.new; scores = token_scores.new }) result }
{
    if let Err(line) = frames::finish(input.reading) {
        return Err(Refusal::BadFrame(line));
    }
    if input.stored.short {
        return Err(Refusal::NoRoom(refusal::NO_ROOM_WORDS));
    }
    learn(
        input.stored,
        texts,
        specials,
        text,
        words,
        frequencies,
        bytes,
        tokens,
        token_scores,
    )
}
