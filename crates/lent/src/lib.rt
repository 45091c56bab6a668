// Whether one word's lattice and the scores that a call is lent are as they should be: refusals 9 and 10 of document 01.
//
// "Calls on one word's lattice give place 0", so the lattice is well formed or not. A bad score is told by the lowest id.
#![tactic(auto)]

ghost use Rattle.std.specs.Prelude.{◌≡◌};
ghost use Rattle.laws.specs.Tests.{Says};
ghost use Rattle.scores.specs.Floats.{zero_or_below};
ghost use Rattle.formed.specs.Word.{WordFormed};
ghost use Rattle.lent.specs.Lent.{Answers};

use formed::{Lattice, Span, formed};

// Whether a word's lattice is well formed, where ids below `pieces` have a score.
pub fn word_formed(lattice: &Lattice, pieces: usize) -> bool
    ensures { Says result (WordFormed lattice.now.offsets.now lattice.now.starts.now lattice.now.ids.now pieces lattice.now.n) }
{
    let Lattice {
        offsets,
        starts,
        ids,
        n,
    } = *lattice;
    let span = Span {
        from: 0,
        to: starts.len(),
        at: 0,
        n,
    };
    offsets.len() >= 2 && offsets.len() - 2 == n && formed(starts, ids, offsets, pieces, span)
}

// Whether a score is zero or below, and not NaN: a name of its own, as the definition has it.
fn zero_or_below(score: f64) -> bool
    ensures { result ≡ zero_or_below score }
{
    score <= 0.0
}

// Whether no score is NaN or above zero; else the first that is.
pub fn check_scores(scores: &[f64]) -> Result<(), usize>
    ensures { Answers scores.now result }
{
    for (i, score) in scores.iter().enumerate() {
        if !zero_or_below(*score) {
            return Err(i);
        }
    }
    Ok(())
}
