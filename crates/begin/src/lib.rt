// The seed list, and zeros in the slices that only seeding needs. "Work slices hold zeros after every call, accepted or refused".
//
// It is a crate of its own, apart from `training`, since the prover's cost is slices: each of the two has many.
#![tactic(auto)]

ghost use Rattle.std.specs.Prelude.{◌≡◌, ◌*◌, length, take, replicate};
ghost use Rattle.listing.specs.Start.{count_of};
ghost use Rattle.fresh.specs.Build.{smaller};
ghost use Rattle.begun.specs.Here.{Begun};

use listing::{Lent, Seeded};
use refusal::Refusal;
use settings::Settings;

// The seed list. The slices that only seeding needs hold zeros afterwards. A piece needs a slot of EM's, too.
pub fn begin(
    settings: Settings,
    texts: &[u8],
    specials: &[u32],
    text: &[u8],
    words: &[u32],
    frequencies: &[u64],
    kept: &mut [u32],
    counts: &mut [u64],
    table: &mut [u32],
    chars: &mut [u32],
    places: &mut [u32],
    order: &mut [u32],
    work: &mut [u32],
    ranks: &mut [u64],
    pieces: &mut [u32],
    tallies: &mut [u64],
    scores: &mut [f64],
    slots: usize,
) -> Result<Seeded, Refusal>
    ensures begun { Begun (record { settings = settings; texts = texts.now; specials = specials.now; text = text.now; words = take (2 * (count_of words.now frequencies.now)) words.now; frequencies = take (count_of words.now frequencies.now) frequencies.now }) (record { kept = kept.old; counts = counts.old; chars = chars.old; places = places.old; order = order.old; work = work.old; ranks = ranks.old; pieces = pieces.old; tallies = tallies.old; scores = take (smaller (length scores.old) slots) scores.old; table = table.old }) kept.new counts.new pieces.new scores.new result }
    ensures table_after { (table.new ≡ replicate (length table.old) 0) × (chars.new ≡ replicate (length chars.old) 0) }
    ensures places_after { (places.new ≡ replicate (length places.old) 0) × (tallies.new ≡ replicate (length tallies.old) 0) }
{
    let most = scores.len().min(slots);
    let lent = Lent {
        settings,
        texts,
        specials,
        text,
        words,
        frequencies,
    };
    let started = start::start(
        &lent,
        kept,
        counts,
        chars,
        places,
        order,
        work,
        ranks,
        pieces,
        tallies,
        &mut scores[..most],
        table,
    );
    table.fill(0);
    chars.fill(0);
    places.fill(0);
    tallies.fill(0);
    started
}

// Zeros in the words that are UTF-8, and in their frequencies, for when no later stage needs them.
pub fn clear_words(kept: &mut [u32], counts: &mut [u64])
    ensures { (kept.new ≡ replicate (length kept.old) 0) × (counts.new ≡ replicate (length counts.old) 0) }
{
    kept.fill(0);
    counts.fill(0);
}
