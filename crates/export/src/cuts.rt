// Cuts of one word's lattice, as `cut` has them, for C and Rust.
//
// A call that gives a sum, which is the best score or the sum over all cuts, puts it in slot 0 of the lent slice `sum`. A
// refusal leaves `sum` as it was. What stands in `told` is the count of pieces, whether there is a cut (1 or 0), or 0 where
// there is nothing to count; and a refusal's place.
//
// A short word's cut comes back by value, path and all, in a struct that C knows.
ghost use Rattle.std.specs.Prelude.{◌≡◌, Bool, length, set, Float, Result};
ghost use Rattle.cut.specs.Cut.{Answers, Excludes, zeros, zero_floats};
ghost use Rattle.cut.specs.Sums.{Connects, Expects};
ghost use Rattle.one_word.specs.Word as OneWord;
ghost use Rattle.cut.specs.declared.Cut as CutOf;
ghost use Rattle.refusal.specs.declared.Refusal as RefusalOf;
ghost use Rattle.told.specs.Told.{answer_number};
ghost use Rattle.export.specs.Cuts.{cut_told, cut_sum, short_score, score_told, score_sum, connection_told};

use crate::answer;
use cut::Cut;
use refusal::Refusal;
use told::tell;

// A call's answer that gives a sum: 0, the sum, and how many; or the refusal's number, and its place.
fn summed(sum: &mut [f64], told: &mut [u64], given: Result<Cut, Refusal>) -> u32
    ensures { (result ≡ answer_number given) × (told.new ≡ set told.old 0 (cut_told given)) × (sum.new ≡ cut_sum given sum.old) }
{
    if let Ok(cut) = given {
        tell(sum, 0, cut.score);
    }
    answer(told, given.map(|cut| cut.count))
}

// The same of a sum alone, where there is nothing to count.
fn summed_alone(sum: &mut [f64], told: &mut [u64], given: Result<f64, Refusal>) -> u32
    ensures { (result ≡ answer_number given) × (told.new ≡ set told.old 0 (score_told given)) × (sum.new ≡ score_sum given sum.old) }
{
    summed(sum, told, given.map(|score| Cut { score, count: 0 }))
}

// The best cut of a word, as `cut::viterbi` has it.
#[unsafe(no_mangle)]
pub extern "C" fn causeylark_viterbi(
    offsets: &[u32],
    starts: &[u32],
    ids: &[u32],
    n: usize,
    scores: &[f64],
    best: &mut [f64],
    back: &mut [u32],
    path: &mut [u32],
    sum: &mut [f64],
    told: &mut [u64],
) -> u32
    ensures answers { (r : Result CutOf.Cut RefusalOf.Refusal) × Answers (record { offsets = offsets.now; starts = starts.now; ids = ids.now; n = n; scores = scores.now }) best.old back.old path.old path.new r × (result ≡ answer_number r) × (told.new ≡ set told.old 0 (cut_told r)) × (sum.new ≡ cut_sum r sum.old) }
    ensures best_after { (best.new ≡ zero_floats (length best.old)) × (back.new ≡ zeros (length back.old)) }
{
    let found = cut::viterbi(offsets, starts, ids, n, scores, best, back, path);
    summed(sum, told, found)
}

// A short word's best cut by value: what C is answered and told, the score, and "32 ids"; the unused ids are 0.
#[repr(C)]
#[derive(Clone, Copy)]
pub struct ByValue {
    pub score: f64,
    pub told: u64,
    pub number: u32,
    pub ids: [u32; 32],
}

// The best cut of a word of at most 32 characters, as `cut::viterbi_short` has it.
#[unsafe(no_mangle)]
pub extern "C" fn causeylark_viterbi_short(
    offsets: &[u32],
    starts: &[u32],
    ids: &[u32],
    n: usize,
    scores: &[f64],
    best: &mut [f64],
    back: &mut [u32],
) -> ByValue
    ensures answers { (r : Result CutOf.Cut RefusalOf.Refusal) × Answers (record { offsets = offsets.now; starts = starts.now; ids = ids.now; n = n; scores = scores.now }) best.old back.old (zeros 32) result.ids r × (result.number ≡ answer_number r) × (result.told ≡ cut_told r) × (result.score ≡ short_score r) }
    ensures best_after { (best.new ≡ zero_floats (length best.old)) × (back.new ≡ zeros (length back.old)) }
{
    let short = cut::viterbi_short(offsets, starts, ids, n, scores, best, back);
    // a field that is an array is not read straight into a struct, for the check
    let ids = short.ids;
    match short.cut {
        Ok(cut) => ByValue {
            score: cut.score,
            told: cut.count as u64,
            number: 0,
            ids,
        },
        Err(r) => ByValue {
            score: 0.0,
            told: refusal::place(r),
            number: u32::from(refusal::number(r)),
            ids,
        },
    }
}

// The best score of a word without a piece, as `cut::viterbi_excluding` has it.
#[unsafe(no_mangle)]
pub extern "C" fn causeylark_viterbi_excluding(
    offsets: &[u32],
    starts: &[u32],
    ids: &[u32],
    n: usize,
    scores: &[f64],
    excluded: u32,
    best: &mut [f64],
    sum: &mut [f64],
    told: &mut [u64],
) -> u32
    ensures excludes { (r : Result Float RefusalOf.Refusal) × Excludes (record { offsets = offsets.now; starts = starts.now; ids = ids.now; n = n; scores = scores.now }) excluded best.old r × (result ≡ answer_number r) × (told.new ≡ set told.old 0 (score_told r)) × (sum.new ≡ score_sum r sum.old) }
    ensures best_after { best.new ≡ zero_floats (length best.old) }
{
    let found = cut::viterbi_excluding(offsets, starts, ids, n, scores, excluded, best);
    summed_alone(sum, told, found)
}

// Whether a word has a cut, as `cut::is_connected` has it.
#[unsafe(no_mangle)]
pub extern "C" fn causeylark_is_connected(
    offsets: &[u32],
    starts: &[u32],
    ids: &[u32],
    n: usize,
    reach: &mut [u32],
    told: &mut [u64],
) -> u32
    ensures connects { (r : Result Bool RefusalOf.Refusal) × Connects offsets.now starts.now ids.now n reach.old r × (result ≡ answer_number r) × (told.new ≡ set told.old 0 (connection_told r)) }
    ensures reach_after { reach.new ≡ zeros (length reach.old) }
{
    let cuts = cut::is_connected(offsets, starts, ids, n, reach);
    answer(told, cuts.map(usize::from))
}

// The expected count of every edge of a word and the sum over all cuts, as `cut::expectations` has them.
#[unsafe(no_mangle)]
pub extern "C" fn causeylark_expectations(
    offsets: &[u32],
    starts: &[u32],
    ids: &[u32],
    n: usize,
    scores: &[f64],
    alpha: &mut [f64],
    beta: &mut [f64],
    emitted: &mut [f64],
    sum: &mut [f64],
    told: &mut [u64],
) -> u32
    ensures expects { (r : Result Float RefusalOf.Refusal) × Expects (record { offsets = offsets.now; starts = starts.now; ids = ids.now; n = n; scores = scores.now }) alpha.old beta.old emitted.old emitted.new r × (result ≡ answer_number r) × (told.new ≡ set told.old 0 (score_told r)) × (sum.new ≡ score_sum r sum.old) }
    ensures alpha_after { (alpha.new ≡ zero_floats (length alpha.old)) × (beta.new ≡ zero_floats (length beta.old)) }
{
    let found = cut::expectations(offsets, starts, ids, n, scores, alpha, beta, emitted);
    summed_alone(sum, told, found)
}

// The best cut of one word over a list of pieces, as `one_word::cut` has it. Of a word that is empty it tells 0 pieces.
#[unsafe(no_mangle)]
pub extern "C" fn causeylark_cut(
    setting: usize,
    word: &[u8],
    spellings: &[u8],
    pieces: &[u32],
    scores: &[f64],
    path: &mut [u32],
    keys: &mut [u64],
    ends: &mut [u32],
    table: &mut [u32],
    sum: &mut [f64],
    told: &mut [u64],
) -> u32
    ensures answers { (r : Result CutOf.Cut RefusalOf.Refusal) × OneWord.Answers (record { setting = setting; word = word.now; spellings = spellings.now; pieces = pieces.now; scores = scores.now }) (record { keys = keys.old; ends = ends.old; table = table.old }) path.old path.new r × (result ≡ answer_number r) × (told.new ≡ set told.old 0 (cut_told r)) × (sum.new ≡ cut_sum r sum.old) }
    ensures zeros { OneWord.Zeros (record { keys = keys.old; ends = ends.old; table = table.old }) (record { keys = keys.new; ends = ends.new; table = table.new }) }
{
    let found = one_word::cut(
        setting, word, spellings, pieces, scores, path, keys, ends, table,
    );
    summed(sum, told, found)
}
