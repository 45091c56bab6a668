// Training: words in, tokens with scores out. 001's `train`, document 01's port order 11.
//
// "Training checks in this order": 2, 7 at 0, 3, 4, 5, 6 and 7 at 1 in crate `begin`, then 8, 7 at 2, 3 and 4. "Work slices hold
// zeros after every call, accepted or refused": each stage clears what no later stage needs.
#![tactic(auto)]

ghost use Rattle.std.specs.Prelude.{◌*◌, take};
ghost use Rattle.listing.specs.Start.{count_of};
ghost use Rattle.training.specs.Train.{Answers, Zeros};

use make::Trained;
use refusal::Refusal;
use settings::Settings;

// Trains on words of a text, and writes the tokens' bytes, their spans and their scores; or refuses.
pub fn train(
    settings: Settings,
    texts: &[u8],
    specials: &[u32],
    text: &[u8],
    words: &[u32],
    frequencies: &[u64],
    kept: &mut [u32],
    counts: &mut [u64],
    table: &mut [u32],
    chars: &mut [u32],
    places: &mut [u32],
    order: &mut [u32],
    work: &mut [u32],
    ranks: &mut [u64],
    pieces: &mut [u32],
    tallies: &mut [u64],
    scores: &mut [f64],
    expected: &mut [f64],
    keys: &mut [u64],
    ends: &mut [u32],
    offsets: &mut [u32],
    starts: &mut [u32],
    ids: &mut [u32],
    spans: &mut [u32],
    bytes: &mut [u8],
    tokens: &mut [u32],
    token_scores: &mut [f64],
) -> Result<Trained, Refusal>
    ensures answers { Answers (record { settings = settings; texts = texts.now; specials = specials.now; text = text.now; words = take (2 * (count_of words.now frequencies.now)) words.now; frequencies = take (count_of words.now frequencies.now) frequencies.now }) (record { kept = kept.old; counts = counts.old; table = table.old; chars = chars.old; places = places.old; order = order.old; work = work.old; ranks = ranks.old; pieces = pieces.old; tallies = tallies.old; scores = scores.old; expected = expected.old; keys = keys.old; ends = ends.old; offsets = offsets.old; starts = starts.old; ids = ids.old; spans = spans.old }) (record { bytes = bytes.old; tokens = tokens.old; scores = token_scores.old }) (record { bytes = bytes.new; tokens = tokens.new; scores = token_scores.new }) result }
    ensures zeros { Zeros (record { kept = kept.old; counts = counts.old; table = table.old; chars = chars.old; places = places.old; order = order.old; work = work.old; ranks = ranks.old; pieces = pieces.old; tallies = tallies.old; scores = scores.old; expected = expected.old; keys = keys.old; ends = ends.old; offsets = offsets.old; starts = starts.old; ids = ids.old; spans = spans.old }) (record { kept = kept.new; counts = counts.new; table = table.new; chars = chars.new; places = places.new; order = order.new; work = work.new; ranks = ranks.new; pieces = pieces.new; tallies = tallies.new; scores = scores.new; expected = expected.new; keys = keys.new; ends = ends.new; offsets = offsets.new; starts = starts.new; ids = ids.new; spans = spans.new }) }
{
    let started = begin::begin(
        settings,
        texts,
        specials,
        text,
        words,
        frequencies,
        kept,
        counts,
        table,
        chars,
        places,
        order,
        work,
        ranks,
        pieces,
        tallies,
        scores,
        expected.len(),
    );
    let answer = finish::finish(
        started,
        settings,
        texts,
        specials,
        text,
        kept,
        counts,
        order,
        work,
        ranks,
        pieces,
        scores,
        expected,
        keys,
        ends,
        offsets,
        starts,
        ids,
        spans,
        bytes,
        tokens,
        token_scores,
    );
    begin::clear_words(kept, counts);
    answer
}
