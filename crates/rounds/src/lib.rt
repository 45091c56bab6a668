// The rounds of training: EM, and prune, until no more can go; 001's loop, document 01's port order 11.
//
// 001 runs EM at the head of its loop and leaves it in the middle. Here EM comes before the loop and at the end of its body,
// which is the same. A list that is not over target is kept whole, so that one test, "not below the piece count", ends both.
#![tactic(auto)]

ghost use Rattle.std.specs.Prelude.{length};
ghost use Rattle.shrink.specs.Lent.{slices_of, SameState, SameWork};
ghost use Rattle.rounds.specs.Steps.{Pruning, Prunes, Rounding, Rounds};

use shrink::{Shrunk, State, Work};
use turn::{improve_state, turn};

// Rounds until the count kept is not below the piece count.
fn prune_on(
    setting: usize,
    text: &[u8],
    words: usize,
    frequencies: &[u64],
    iterations: usize,
    factor: f64,
    target: usize,
    required: usize,
    count: usize,
    edges: usize,
    state: &mut State,
    work: &mut Work,
) -> Shrunk
    requires { Pruning setting text.now words frequencies.now iterations factor target required count edges (slices_of state.old) (length work.old.expected.now) (length work.old.bits.now) (length work.old.ranked.now) (length work.old.remap.now) (length work.old.keys.now) (length work.old.ends.now) }
    ensures prunes { Prunes setting text.now words frequencies.now iterations factor target required count edges (slices_of state.old) (slices_of state.new) result }
    ensures same_state { SameState state.old state.new }
    ensures same_work { SameWork work.old work.new }
{
    let mut so = Shrunk {
        pieces: count,
        edges,
    };
    let mut keep = keep::keep(count, factor, target);
    'pruning: while keep < so.pieces {
        so = turn(
            setting,
            text,
            words,
            frequencies,
            iterations,
            required,
            keep,
            so.pieces,
            so.edges,
            state,
            work,
        );
        keep = keep::keep(so.pieces, factor, target);
    }
    so
}

// All rounds, and the last EM. Answers how many pieces are left.
pub fn rounds(
    setting: usize,
    text: &[u8],
    words: usize,
    frequencies: &[u64],
    iterations: usize,
    factor: f64,
    target: usize,
    required: usize,
    count: usize,
    edges: usize,
    state: &mut State,
    work: &mut Work,
) -> usize
    requires { Rounding setting text.now words frequencies.now iterations factor target required count edges (slices_of state.old) (length work.old.expected.now) (length work.old.bits.now) (length work.old.ranked.now) (length work.old.remap.now) (length work.old.keys.now) (length work.old.ends.now) }
    ensures rounds { Rounds setting text.now words frequencies.now iterations factor target required count edges (slices_of state.old) state.new.pieces.now state.new.scores.now result }
    ensures same_state { SameState state.old state.new }
    ensures same_work { SameWork work.old work.new }
{
    improve_state(words, frequencies, iterations, count, edges, state, work);
    let so = prune_on(
        setting,
        text,
        words,
        frequencies,
        iterations,
        factor,
        target,
        required,
        count,
        edges,
        state,
        work,
    );
    improve_state(words, frequencies, 1, so.pieces, so.edges, state, work);
    so.pieces
}
