// What follows a start, if there is a seed list: the tokens, or a refusal; and zeros in the work slices of it. "Work slices hold
// zeros after every call, accepted or refused".
#![tactic(auto)]

ghost use Rattle.std.specs.Prelude.{◌≡◌, length, replicate};
ghost use Rattle.finish.specs.Steps.{nought, GoingOn, GoesOn};

use listing::Seeded;
use make::Trained;
use refusal::Refusal;
use settings::Settings;
use shrink::{State, Work};

// What follows a start, and zeros in all work slices of it. Its slices are lent one by one, as training's caller lends them.
pub fn finish(
    started: Result<Seeded, Refusal>,
    settings: Settings,
    texts: &[u8],
    specials: &[u32],
    text: &[u8],
    kept: &[u32],
    counts: &[u64],
    order: &mut [u32],
    work: &mut [u32],
    ranks: &mut [u64],
    pieces: &mut [u32],
    scores: &mut [f64],
    expected: &mut [f64],
    keys: &mut [u64],
    ends: &mut [u32],
    offsets: &mut [u32],
    starts: &mut [u32],
    ids: &mut [u32],
    spans: &mut [u32],
    bytes: &mut [u8],
    tokens: &mut [u32],
    token_scores: &mut [f64],
) -> Result<Trained, Refusal>
    requires { GoingOn settings texts.now specials.now text.now kept.now counts.now (length order.old) (length work.old) (length ranks.old) pieces.old scores.old (length expected.old) started }
    ensures goes_on { GoesOn settings texts.now specials.now text.now kept.now counts.now pieces.old scores.old started keys.old ends.old (record { offsets = offsets.old; starts = starts.old; ids = ids.old; spans = spans.old }) (record { bytes = bytes.old; tokens = tokens.old; scores = token_scores.old }) (record { bytes = bytes.new; tokens = tokens.new; scores = token_scores.new }) result }
    ensures order_after { (order.new ≡ replicate (length order.old) 0) × (work.new ≡ replicate (length work.old) 0) × (ranks.new ≡ replicate (length ranks.old) 0) × (pieces.new ≡ replicate (length pieces.old) 0) × (scores.new ≡ replicate (length scores.old) nought) × (expected.new ≡ replicate (length expected.old) nought) }
    ensures keys_after { (keys.new ≡ replicate (length keys.old) 0) × (ends.new ≡ replicate (length ends.old) 0) × (offsets.new ≡ replicate (length offsets.old) 0) × (starts.new ≡ replicate (length starts.old) 0) × (ids.new ≡ replicate (length ids.old) 0) × (spans.new ≡ replicate (length spans.old) 0) }
{
    let mut state = State {
        pieces,
        scores,
        offsets,
        starts,
        ids,
        spans,
    };
    // Seeding's `order`, `work` and `ranks` serve pruning too.
    let mut work_slices = Work {
        expected,
        bits: ranks,
        ranked: order,
        remap: work,
        keys,
        ends,
    };
    let answer = go_on::go_on(
        started,
        settings,
        texts,
        specials,
        text,
        kept,
        counts,
        &mut state,
        &mut work_slices,
        bytes,
        tokens,
        token_scores,
    );
    state.clear();
    work_slices.clear();
    answer
}
