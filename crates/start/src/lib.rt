// From what training is lent to its seed list: every check before 8, the words that are UTF-8, and the list.
//
// "Training checks in this order": 2, 7 at 0, 3, 4, 5, 6 and 7 at 1 are here; crate `listing` has the steps. Nothing is cleared:
// whoever trains goes on with what stands here, and clears at the end.
#![tactic(auto)]

ghost use Rattle.std.specs.Prelude.{◌≡◌, length};
ghost use Rattle.spans.specs.Spans.{many};
ghost use Rattle.listing.specs.Start.{lists_of, paired_of, Answers};

use listing::{Lent, Seeded};
use refusal::Refusal;

// Checks words and frequencies that are equally many, and lists them.
fn check_and_list(
    lent: &Lent,
    kept: &mut [u32],
    counts: &mut [u64],
    chars: &mut [u32],
    places: &mut [u32],
    order: &mut [u32],
    work: &mut [u32],
    ranks: &mut [u64],
    pieces: &mut [u32],
    tallies: &mut [u64],
    scores: &mut [f64],
    table: &mut [u32],
) -> Result<Seeded, Refusal>
    requires { length lent.now.frequencies.now ≡ many lent.now.words.now }
    ensures { Answers (lists_of lent.now) (record { kept = kept.old; counts = counts.old; chars = chars.old; places = places.old; order = order.old; work = work.old; ranks = ranks.old; pieces = pieces.old; tallies = tallies.old; scores = scores.old; table = table.old }) (record { kept = kept.new; counts = counts.new; pieces = pieces.new; tallies = tallies.new; scores = scores.new }) result }
{
    let room = listing::positions(chars, places, order, work, ranks);
    listing::check(lent, kept, counts, table, room)?;
    let specials = spans::count(lent.specials);
    listing::list(
        lent, specials, kept, counts, chars, places, order, work, ranks, pieces, tallies, scores,
    )
}

// Makes the seed list of the words that are lent, or refuses.
pub fn start(
    lent: &Lent,
    kept: &mut [u32],
    counts: &mut [u64],
    chars: &mut [u32],
    places: &mut [u32],
    order: &mut [u32],
    work: &mut [u32],
    ranks: &mut [u64],
    pieces: &mut [u32],
    tallies: &mut [u64],
    scores: &mut [f64],
    table: &mut [u32],
) -> Result<Seeded, Refusal>
    ensures { Answers (paired_of (lists_of lent.now)) (record { kept = kept.old; counts = counts.old; chars = chars.old; places = places.old; order = order.old; work = work.old; ranks = ranks.old; pieces = pieces.old; tallies = tallies.old; scores = scores.old; table = table.old }) (record { kept = kept.new; counts = counts.new; pieces = pieces.new; tallies = tallies.new; scores = scores.new }) result }
{
    let many = listing::count(lent.words, lent.frequencies);
    let numbers = 2 * many;
    let paired = Lent {
        words: &lent.words[..numbers],
        frequencies: &lent.frequencies[..many],
        ..*lent
    };
    check_and_list(
        &paired, kept, counts, chars, places, order, work, ranks, pieces, tallies, scores, table,
    )
}
