// One round of training: a pruning, and EM; and EM alone, which comes before the rounds and after them.
//
// It is a crate of its own, apart from `rounds`, so that an edit of one is not paid for by the other's proof.
#![tactic(auto)]

ghost use Rattle.std.specs.Prelude.{◌≡◌, length};
ghost use Rattle.shrink.specs.Steps.{Shrinking};
ghost use Rattle.shrink.specs.Lent.{slices_of, with_scores, others_of, SameState, SameWork};
ghost use Rattle.turn.specs.Steps.{Improving, Improves, Turns};

use em::em_many;
use shrink::{Shrunk, State, Work, shrink};

// EM over the pieces there are, so many times.
pub fn improve(
    words: usize,
    frequencies: &[u64],
    iterations: usize,
    count: usize,
    edges: usize,
    scores: &mut [f64],
    expected: &mut [f64],
    offsets: &[u32],
    starts: &[u32],
    ids: &[u32],
    spans: &[u32],
)
    requires { Improving words frequencies.now count edges scores.old (length expected.old) offsets.now starts.now ids.now spans.now }
    ensures { Improves words frequencies.now iterations count edges scores.old offsets.now starts.now ids.now spans.now scores.new }
{
    em_many(
        offsets,
        &starts[..edges],
        &ids[..edges],
        spans,
        words,
        frequencies,
        &mut scores[..count],
        &mut expected[..count],
        iterations,
    );
}

// The same, of what rounds hand on. Of the state the scores alone change, and of the work slices `expected` alone.
pub fn improve_state(
    words: usize,
    frequencies: &[u64],
    iterations: usize,
    count: usize,
    edges: usize,
    state: &mut State,
    work: &mut Work,
)
    requires { Improving words frequencies.now count edges state.old.scores.now (length work.old.expected.now) state.old.offsets.now state.old.starts.now state.old.ids.now state.old.spans.now }
    ensures improves { Improves words frequencies.now iterations count edges state.old.scores.now state.old.offsets.now state.old.starts.now state.old.ids.now state.old.spans.now state.new.scores.now }
    ensures scores_alone { slices_of state.new ≡ with_scores (slices_of state.old) state.new.scores.now }
    ensures expected_alone { others_of work.new ≡ others_of work.old }
    ensures same_state { SameState state.old state.new }
    ensures same_work { SameWork work.old work.new }
{
    // Each slice by a name of its own: of what a field lends in place, no more than the length would be known afterwards.
    let scores = &mut *state.scores;
    let offsets = &mut *state.offsets;
    let starts = &mut *state.starts;
    let ids = &mut *state.ids;
    let spans = &mut *state.spans;
    let expected = &mut *work.expected;
    improve(
        words,
        frequencies,
        iterations,
        count,
        edges,
        scores,
        expected,
        offsets,
        starts,
        ids,
        spans,
    );
}

// One round: a pruning, and EM.
pub fn turn(
    setting: usize,
    text: &[u8],
    words: usize,
    frequencies: &[u64],
    iterations: usize,
    required: usize,
    keep: usize,
    count: usize,
    edges: usize,
    state: &mut State,
    work: &mut Work,
) -> Shrunk
    requires { Shrinking setting text.now words frequencies.now required count edges (slices_of state.old) (length work.old.expected.now) (length work.old.bits.now) (length work.old.ranked.now) (length work.old.remap.now) (length work.old.keys.now) (length work.old.ends.now) }
    ensures turns { Turns setting text.now words frequencies.now iterations required keep count edges (slices_of state.old) (slices_of state.new) result }
    ensures same_state { SameState state.old state.new }
    ensures same_work { SameWork work.old work.new }
{
    let so = shrink(
        setting,
        text,
        words,
        frequencies,
        required,
        keep,
        count,
        edges,
        state,
        work,
    );
    improve_state(
        words,
        frequencies,
        iterations,
        so.pieces,
        so.edges,
        state,
        work,
    );
    so
}
