// From the seed list to the tokens. Document 01's refusals 8, then 7 at 2, 3 and 4; and port order 11: "Specials come first, score
// 0."
#![tactic(auto)]

ghost use Rattle.std.specs.Prelude.{length};
ghost use Rattle.tokens.specs.Tokens.{Given, tokens_of, scores_of};
ghost use Rattle.shrink.specs.Lent.{cache_of, SameState, SameWork};
ghost use Rattle.make.specs.Steps.{Concludes, Making, Makes};

use listing::Seeded;
use refusal::Refusal;
use settings::Settings;
use shrink::{State, Work};

// How many tokens there are, how many pieces are required, and whether training stopped over target.
#[derive(Clone, Copy, Debug, PartialEq, Eq)]
pub struct Trained {
    pub tokens: usize,
    pub required: usize,
    pub stalled: bool,
}

// The tokens of the pieces that are left, specials first.
fn conclude(
    texts: &[u8],
    specials: &[u32],
    text: &[u8],
    pieces: &[u32],
    scores: &[f64],
    target: usize,
    required: usize,
    bytes: &mut [u8],
    tokens: &mut [u32],
    token_scores: &mut [f64],
) -> Result<Trained, Refusal>
    requires { Given texts.now specials.now text.now pieces.now scores.now }
    ensures { Concludes (tokens_of texts.now specials.now text.now pieces.now) (scores_of specials.now scores.now) (length scores.now) target required (record { bytes = bytes.old; tokens = tokens.old; scores = token_scores.old }) (record { bytes = bytes.new; tokens = tokens.new; scores = token_scores.new }) result }
{
    match tokens::write(
        texts,
        specials,
        text,
        pieces,
        scores,
        bytes,
        tokens,
        token_scores,
    ) {
        None => Err(Refusal::NoRoom(refusal::NO_ROOM_RESULTS)),
        Some(tokens) => Ok(Trained {
            tokens,
            required,
            stalled: target < scores.len(),
        }),
    }
}

// From the seed list to the tokens, in slices that are left as they may be.
pub fn make(
    settings: Settings,
    texts: &[u8],
    specials: &[u32],
    text: &[u8],
    kept: &[u32],
    counts: &[u64],
    seeded: Seeded,
    state: &mut State,
    work: &mut Work,
    bytes: &mut [u8],
    tokens: &mut [u32],
    token_scores: &mut [f64],
) -> Result<Trained, Refusal>
    requires { Making settings texts.now specials.now text.now kept.now counts.now seeded.words seeded.pieces seeded.required (length work.old.ranked.now) (length work.old.remap.now) (length work.old.bits.now) state.old.pieces.now state.old.scores.now (length work.old.expected.now) }
    ensures makes { Makes settings texts.now specials.now text.now kept.now counts.now seeded.words seeded.pieces seeded.required state.old.pieces.now state.old.scores.now work.old.keys.now work.old.ends.now (cache_of state.old) (record { bytes = bytes.old; tokens = tokens.old; scores = token_scores.old }) (record { bytes = bytes.new; tokens = tokens.new; scores = token_scores.new }) result }
    ensures same_state { SameState state.old state.new }
    ensures same_work { SameWork work.old work.new }
{
    let many = spans::count(specials);
    let target = settings.target(many);
    let required = seeded.required;
    if target < required {
        return Err(Refusal::VocabTooSmall((required + many) as u64));
    }
    let left = shape::shape(settings, target, text, kept, counts, seeded, state, work)?;
    let numbers = 2 * left;
    // Each slice by a name of its own: of what a field lends in place, no more than the length would be known afterwards.
    let pieces = &mut *state.pieces;
    let scores = &mut *state.scores;
    let all_pieces = &*pieces;
    let all_scores = &*scores;
    conclude(
        texts,
        specials,
        text,
        &all_pieces[..numbers],
        &all_scores[..left],
        target,
        required,
        bytes,
        tokens,
        token_scores,
    )
}
