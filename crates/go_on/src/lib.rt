// What follows a start: the tokens, if there is a seed list, else the refusal.
//
// It is a crate of its own, apart from `finish`, so that an edit of one is not paid for by the other's proof.
#![tactic(auto)]

ghost use Rattle.std.specs.Prelude.{length};
ghost use Rattle.shrink.specs.Lent.{cache_of, SameState, SameWork};
ghost use Rattle.go_on.specs.Steps.{Ready, Follows};

use listing::Seeded;
use make::Trained;
use refusal::Refusal;
use settings::Settings;
use shrink::{State, Work};

// What follows the seed list, if there is one.
pub fn go_on(
    started: Result<Seeded, Refusal>,
    settings: Settings,
    texts: &[u8],
    specials: &[u32],
    text: &[u8],
    kept: &[u32],
    counts: &[u64],
    state: &mut State,
    work: &mut Work,
    bytes: &mut [u8],
    tokens: &mut [u32],
    token_scores: &mut [f64],
) -> Result<Trained, Refusal>
    requires { Ready settings texts.now specials.now text.now kept.now counts.now (length work.old.ranked.now) (length work.old.remap.now) (length work.old.bits.now) state.old.pieces.now state.old.scores.now (length work.old.expected.now) started }
    ensures follows { Follows settings texts.now specials.now text.now kept.now counts.now state.old.pieces.now state.old.scores.now started work.old.keys.now work.old.ends.now (cache_of state.old) (record { bytes = bytes.old; tokens = tokens.old; scores = token_scores.old }) (record { bytes = bytes.new; tokens = tokens.new; scores = token_scores.new }) result }
    ensures same_state { SameState state.old state.new }
    ensures same_work { SameWork work.old work.new }
{
    let seeded = started?;
    make::make(
        settings,
        texts,
        specials,
        text,
        kept,
        counts,
        seeded,
        state,
        work,
        bytes,
        tokens,
        token_scores,
    )
}
