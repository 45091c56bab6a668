// From the seed list to the pieces that are left: the first lattices, and all rounds. Document 01, port order 9 to 11.
//
// Words and pieces were checked when the list was made. So of all refusals only two are left: "distinct non-empty prefixes plus
// the root exceed half the lent trie places", and "first-round edges, offsets or a word's n+1 positions exceed their slots".
#![tactic(auto)]

ghost use Rattle.std.specs.Prelude.{◌≡◌, ◌*◌, ◌≤◌, length, take};
ghost use Rattle.fresh.specs.Steps.{InOrder, Follows};
ghost use Rattle.shrink.specs.Lent.{cache_of, SameState, SameWork};
ghost use Rattle.shape.specs.Steps.{Shaping, Shapes};

use listing::Seeded;
use refusal::Refusal;
use settings::Settings;
use shrink::{State, Work};

// The first lattices, laid out of the words and pieces that the seed list left. Answers how many edges they have.
fn lay(
    setting: usize,
    text: &[u8],
    words: &[u32],
    pieces: usize,
    state: &mut State,
    work: &mut Work,
) -> Result<usize, Refusal>
    requires few { 2 * pieces ≤ length state.old.pieces.now }
    requires in_order { InOrder (record { setting = setting; text = text.now; words = words.now; spellings = text.now; pieces = take (2 * pieces) state.old.pieces.now }) work.old.keys.now work.old.ends.now }
    ensures follows { Follows (record { setting = setting; text = text.now; words = words.now; spellings = text.now; pieces = take (2 * pieces) state.old.pieces.now }) (cache_of state.old) work.old.keys.now work.old.ends.now (cache_of state.new) result }
    ensures pieces_kept { state.new.pieces.now ≡ state.old.pieces.now }
    ensures scores_kept { state.new.scores.now ≡ state.old.scores.now }
    ensures same_state { SameState state.old state.new }
    ensures same_work { SameWork work.old work.new }
{
    // Each slice by a name of its own: of what a field lends in place, no more than the length would be known afterwards.
    let spellings = &mut *state.pieces;
    let offsets = &mut *state.offsets;
    let starts = &mut *state.starts;
    let ids = &mut *state.ids;
    let spans = &mut *state.spans;
    let keys = &mut *work.keys;
    let ends = &mut *work.ends;
    let all = &*spellings;
    let numbers = 2 * pieces;
    fresh::index_and_lay(
        setting,
        text,
        words,
        text,
        &all[..numbers],
        offsets,
        starts,
        ids,
        spans,
        keys,
        ends,
    )
}

// The first lattices, and all rounds. Answers how many pieces are left; or there was no room for the trie or the lattices.
pub fn shape(
    settings: Settings,
    target: usize,
    text: &[u8],
    kept: &[u32],
    counts: &[u64],
    seeded: Seeded,
    state: &mut State,
    work: &mut Work,
) -> Result<usize, Refusal>
    requires { Shaping settings target text.now kept.now counts.now seeded.words seeded.pieces seeded.required (length work.old.ranked.now) (length work.old.remap.now) (length work.old.bits.now) state.old.pieces.now state.old.scores.now (length work.old.expected.now) }
    ensures shapes { Shapes settings target text.now kept.now counts.now seeded.words seeded.pieces seeded.required state.old.pieces.now state.old.scores.now work.old.keys.now work.old.ends.now (cache_of state.old) state.new.pieces.now state.new.scores.now result }
    ensures same_state { SameState state.old state.new }
    ensures same_work { SameWork work.old work.new }
{
    let halves = 2 * seeded.words;
    let edges = lay(
        settings.max_piece_chars,
        text,
        &kept[..halves],
        seeded.pieces,
        state,
        work,
    )?;
    let words = seeded.words;
    Ok(rounds::rounds(
        settings.max_piece_chars,
        text,
        words,
        &counts[..words],
        settings.em_iterations,
        settings.shrink_factor,
        target,
        seeded.required,
        seeded.pieces,
        edges,
        state,
        work,
    ))
}
