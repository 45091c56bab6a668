// Training for C and Rust: `training::train`, with its settings as plain numbers.
//
// It answers as the calls of crate `export` do: 0 where it was accepted, and else the number of the refusal. What more there is
// to tell stands in the lent slice `told`: how many tokens, how many pieces are required, and 1 where training stopped over
// target, else 0; of a refusal its place, in slot 0. A caller that does not want it lends fewer slots.
//
// This is a library of its own, since what costs the prover is slices, and this call is lent the most of all. A program that
// calls both links both. include/causeylark.h declares it for C, and bindings/rust for Rust.
#![tactic(auto)]

ghost use Rattle.std.specs.Prelude.{◌≡◌, ◌*◌, take, Result};
ghost use Rattle.listing.specs.Start.{count_of};
ghost use Rattle.make.specs.declared.Trained as TrainedOf;
ghost use Rattle.refusal.specs.declared.Refusal as RefusalOf;
ghost use Rattle.training.specs.Train.{Answers, Zeros};
ghost use Rattle.told.specs.Told.{seed_size_of, answer_number};
ghost use Rattle.export_train.specs.Told.{trained_told};

use make::Trained;
use refusal::Refusal;
use told::answer;

// What training answered: of a result how many tokens there are, how many pieces are required, and whether it stalled.
fn answered(told: &mut [u64], trained: Result<Trained, Refusal>) -> u32
    ensures { (result ≡ answer_number trained) × (told.new ≡ trained_told trained told.old) }
{
    answer(
        told,
        trained.map(|given| (
            given.tokens as u64,
            given.required as u64,
            u64::from(given.stalled),
        )),
    )
}

// Trains on words of a text, as `training::train` does.
#[unsafe(no_mangle)]
pub extern "C" fn causeylark_train(
    vocab_size: usize,
    seed_flag: u32,
    seed: usize,
    max_piece_chars: usize,
    min_frequency: u64,
    shrink_factor: f64,
    em_iterations: usize,
    texts: &[u8],
    specials: &[u32],
    text: &[u8],
    words: &[u32],
    frequencies: &[u64],
    kept: &mut [u32],
    counts: &mut [u64],
    table: &mut [u32],
    chars: &mut [u32],
    places: &mut [u32],
    order: &mut [u32],
    work: &mut [u32],
    ranks: &mut [u64],
    pieces: &mut [u32],
    tallies: &mut [u64],
    scores: &mut [f64],
    expected: &mut [f64],
    keys: &mut [u64],
    ends: &mut [u32],
    offsets: &mut [u32],
    starts: &mut [u32],
    ids: &mut [u32],
    spans: &mut [u32],
    bytes: &mut [u8],
    tokens: &mut [u32],
    token_scores: &mut [f64],
    told: &mut [u64],
) -> u32
    ensures answers { (r : Result TrainedOf.Trained RefusalOf.Refusal) × Answers (record { settings = record { vocab_size = vocab_size; seed_size = seed_size_of seed_flag seed; max_piece_chars = max_piece_chars; min_frequency = min_frequency; shrink_factor = shrink_factor; em_iterations = em_iterations }; texts = texts.now; specials = specials.now; text = text.now; words = take (2 * (count_of words.now frequencies.now)) words.now; frequencies = take (count_of words.now frequencies.now) frequencies.now }) (record { kept = kept.old; counts = counts.old; table = table.old; chars = chars.old; places = places.old; order = order.old; work = work.old; ranks = ranks.old; pieces = pieces.old; tallies = tallies.old; scores = scores.old; expected = expected.old; keys = keys.old; ends = ends.old; offsets = offsets.old; starts = starts.old; ids = ids.old; spans = spans.old }) (record { bytes = bytes.old; tokens = tokens.old; scores = token_scores.old }) (record { bytes = bytes.new; tokens = tokens.new; scores = token_scores.new }) r × (result ≡ answer_number r) × (told.new ≡ trained_told r told.old) }
    ensures zeros { Zeros (record { kept = kept.old; counts = counts.old; table = table.old; chars = chars.old; places = places.old; order = order.old; work = work.old; ranks = ranks.old; pieces = pieces.old; tallies = tallies.old; scores = scores.old; expected = expected.old; keys = keys.old; ends = ends.old; offsets = offsets.old; starts = starts.old; ids = ids.old; spans = spans.old }) (record { kept = kept.new; counts = counts.new; table = table.new; chars = chars.new; places = places.new; order = order.new; work = work.new; ranks = ranks.new; pieces = pieces.new; tallies = tallies.new; scores = scores.new; expected = expected.new; keys = keys.new; ends = ends.new; offsets = offsets.new; starts = starts.new; ids = ids.new; spans = spans.new }) }
{
    let trained = training::train(
        told::settings_of(
            vocab_size,
            seed_flag,
            seed,
            max_piece_chars,
            min_frequency,
            shrink_factor,
            em_iterations,
        ),
        texts,
        specials,
        text,
        words,
        frequencies,
        kept,
        counts,
        table,
        chars,
        places,
        order,
        work,
        ranks,
        pieces,
        tallies,
        scores,
        expected,
        keys,
        ends,
        offsets,
        starts,
        ids,
        spans,
        bytes,
        tokens,
        token_scores,
    );
    answered(told, trained)
}
