// The seed list: port order 8 of document 01. "Characters by count falling, then bytes; then strings of 2 up to the length
// setting with count ≥ `min_frequency`, by count times characters falling, then bytes, cut to pool less required. [..] Score:
// ln(count/total)."
//
// The phases are those of crate `seeding`; here they are put together, and what the cut leaves is written as spans of the text
// with scores. More pieces before the cut than slots is document 01's NoRoom at place 1.
#![tactic(auto)]

ghost use Rattle.std.specs.Prelude.{◌≡◌};
ghost use Rattle.seed.specs.Seed.{corpus_of, slots_of, Asked, Answers};
ghost use Rattle.seed.specs.Steps.{Writing, Written, Listing, ListedNow};

use listed::{score_all, spell};
use seeding::{find_all, gather_in_order, kept, rank_both};

// How many pieces the list has; the first `required` of them are the characters.
#[derive(Clone, Copy, Debug, PartialEq, Eq)]
pub struct Listed {
    pub required: usize,
    pub many: usize,
}

// How many pieces have a slot in each slice.
fn slots(
    pieces: &[u32],
    counts: &[u64],
    scores: &[f64],
    order: &[u32],
    work: &[u32],
    keys: &[u64],
) -> usize
    ensures { result ≡ slots_of pieces.now counts.now scores.now order.now work.now keys.now }
{
    let pairs = pieces.len() / 2;
    pairs
        .min(counts.len())
        .min(scores.len())
        .min(order.len())
        .min(work.len())
        .min(keys.len())
}

// Writes the first `many` pieces as spans of the text, and their scores.
fn write(
    words: &[u32],
    places: &[u32],
    n: usize,
    many: usize,
    pieces: &mut [u32],
    counts: &[u64],
    scores: &mut [f64],
)
    requires { Writing words.now places.now n many pieces.old counts.now scores.old }
    ensures { Written words.now places.now n many pieces.old counts.now scores.old pieces.new scores.new }
{
    spell(words, places, n, &mut pieces[..2 * many]);
    score_all(&counts[..many], scores);
}

// Ranks what is found, cuts it, and writes what is left. Answers how many pieces that is.
fn list(
    words: &[u32],
    places: &[u32],
    n: usize,
    required: usize,
    size: usize,
    pool: usize,
    order: &mut [u32],
    work: &mut [u32],
    keys: &mut [u64],
    pieces: &mut [u32],
    counts: &mut [u64],
    scores: &mut [f64],
) -> usize
    requires { Listing words.now places.now n required size pool order.old work.old keys.old pieces.old counts.old scores.old }
    ensures { ListedNow words.now places.now n required size pool pieces.old counts.old pieces.new counts.new scores.new result }
{
    rank_both(
        &mut pieces[..2 * size],
        &mut counts[..size],
        order,
        work,
        keys,
        required,
    );
    let many = kept(required, size, pool);
    write(words, places, n, many, pieces, counts, scores);
    many
}

// Finds the pieces of a corpus: none where there are more than slots. All words are checked, and each work slice has room for
// every position.
pub fn seed(
    text: &[u8],
    words: &[u32],
    frequencies: &[u64],
    setting: usize,
    least: u64,
    pool: usize,
    chars: &mut [u32],
    places: &mut [u32],
    order: &mut [u32],
    work: &mut [u32],
    keys: &mut [u64],
    pieces: &mut [u32],
    counts: &mut [u64],
    scores: &mut [f64],
) -> Option<Listed>
    requires { Asked text.now words.now frequencies.now setting chars.old places.old order.old work.old keys.old }
    ensures { Answers text.now (corpus_of text.now words.now frequencies.now) setting least pool (slots_of pieces.old counts.old scores.old order.old work.old keys.old) pieces.new counts.new scores.new result }
{
    let room = slots(pieces, counts, scores, order, work, keys);
    let n = gather_in_order(text, words, setting.max(1), chars, places, order, work);
    let found = find_all(
        chars,
        places,
        frequencies,
        &order[..n],
        work,
        keys,
        &mut pieces[..2 * room],
        &mut counts[..room],
        setting,
        least,
    );
    let required = found.required;
    let size = found.size;
    if room < size {
        return None;
    }
    let many = list(
        words, places, n, required, size, pool, order, work, keys, pieces, counts, scores,
    );
    Some(Listed { required, many })
}
