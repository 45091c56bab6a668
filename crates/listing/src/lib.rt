// What training is lent: every check before 8 that needs no list, the words that are UTF-8, and their seed list.
//
// Parts of `start`, which puts them in order, kept apart so that neither crate takes long to prove. The words that are UTF-8 are
// copied out, and the pieces are spans of the words' text. Nothing is cleared.
//
// A word has two numbers and a frequency, and the shorter list counts. A slice that a position indexes has to have a slot for
// each byte of the text, and for each byte of all words together, which may overlap in the text.
#![tactic(auto)]

ghost use Rattle.std.specs.Prelude.{◌≡◌, length};
ghost use Rattle.laws.specs.Tests.{Says};
ghost use Rattle.spans.specs.Spans.{many};
ghost use Rattle.seed.specs.Seed.{slots_of};
ghost use Rattle.listing.specs.Start.{lists_of, count_of, positions_of, Bounded, Checks};
ghost use Rattle.listing.specs.Steps.{Listing, Lists};

use corpus::utf8_words;
use refusal::Refusal;
use seed::seed;
use settings::Settings;

// A seed list: how many words are UTF-8, how many pieces the list has after its cut, and how many of them are required.
#[derive(Clone, Copy, Debug, PartialEq, Eq)]
pub struct Seeded {
    pub words: usize,
    pub pieces: usize,
    pub required: usize,
}

// What training is lent to read: its settings, the specials, and words with their frequencies.
#[derive(Clone, Copy)]
pub struct Lent<'a> {
    pub settings: Settings,
    pub texts: &'a [u8],
    pub specials: &'a [u32],
    pub text: &'a [u8],
    pub words: &'a [u32],
    pub frequencies: &'a [u64],
}

// How many words are lent.
pub fn count(words: &[u32], frequencies: &[u64]) -> usize
    ensures { result ≡ count_of words.now frequencies.now }
{
    spans::count(words).min(frequencies.len())
}

// How many positions all slices have that a position indexes.
pub fn positions(chars: &[u32], places: &[u32], order: &[u32], work: &[u32], ranks: &[u64]) -> usize
    ensures { result ≡ positions_of chars.now places.now order.now work.now ranks.now }
{
    let sorted = order.len().min(work.len().min(ranks.len()));
    chars.len().min((places.len() / 3).min(sorted))
}

// Whether words and text are within the bounds, and there is room for words and positions.
fn bounded(
    text: &[u8],
    words: &[u32],
    kept: &[u32],
    counts: &[u64],
    table: &[u32],
    room: usize,
) -> bool
    ensures { Says result (Bounded text.now words.now kept.now counts.now table.now room) }
{
    let many = spans::count(words);
    many <= refusal::WORDS
        && 2 * many <= kept.len()
        && many <= counts.len()
        && 2 * many <= table.len()
        && text.len() <= refusal::TEXT_BYTES
        && text.len() <= room
        && spans::all_bytes(words) <= room
}

// Checks all that needs no list, with a work table that is left as it may be.
pub fn check(
    lent: &Lent,
    kept: &[u32],
    counts: &[u64],
    table: &mut [u32],
    room: usize,
) -> Result<(), Refusal>
    requires { length lent.now.frequencies.now ≡ many lent.now.words.now }
    ensures { Checks (lists_of lent.now) (Bounded lent.now.text.now lent.now.words.now kept.now counts.now table.old room) result }
{
    settings::check(lent.settings, lent.texts, lent.specials)?;
    if !bounded(lent.text, lent.words, kept, counts, table, room) {
        return Err(Refusal::NoRoom(refusal::NO_ROOM_BOUNDS));
    }
    corpus::check(lent.text, lent.words, lent.frequencies, table)
}

// Copies out the words that are UTF-8 and makes their list, of what was checked, where there are so many specials. What it writes to
// are no fields of a struct: each field would need a clause that its loan comes back.
pub fn list(
    lent: &Lent,
    specials: usize,
    kept: &mut [u32],
    counts: &mut [u64],
    chars: &mut [u32],
    places: &mut [u32],
    order: &mut [u32],
    work: &mut [u32],
    ranks: &mut [u64],
    pieces: &mut [u32],
    tallies: &mut [u64],
    scores: &mut [f64],
) -> Result<Seeded, Refusal>
    requires { Listing (lists_of lent.now) kept.old counts.old chars.old places.old order.old work.old ranks.old }
    ensures { Lists (lists_of lent.now) specials (slots_of pieces.old tallies.old scores.old order.old work.old ranks.old) kept.old counts.old (record { kept = kept.new; counts = counts.new; pieces = pieces.new; tallies = tallies.new; scores = scores.new }) result }
{
    let many = utf8_words(lent.text, lent.words, lent.frequencies, kept, counts);
    let numbers = 2 * many;
    let pool = lent.settings.pool(lent.settings.target(specials));
    let Some(listed) = seed(
        lent.text,
        &kept[..numbers],
        &counts[..many],
        lent.settings.max_piece_chars,
        lent.settings.min_frequency,
        pool,
        chars,
        places,
        order,
        work,
        ranks,
        pieces,
        tallies,
        scores,
    ) else {
        return Err(Refusal::NoRoom(refusal::NO_ROOM_PIECES));
    };
    Ok(Seeded {
        words: many,
        pieces: listed.many,
        required: listed.required,
    })
}
