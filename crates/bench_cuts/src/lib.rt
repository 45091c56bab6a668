// The cores of cuts as they are, for tools/bench/cuts.rs to measure, and for nothing else.
//
// Training calls the cores on lattices that it has built, with work slices lent once for all words: nothing is checked and
// nothing cleared a word. To measure that, a caller has to keep what the cores require. So these are no part of the library
// that others link, and include/causeylark.h does not declare them.
#![tactic(auto)]

ghost use Rattle.std.specs.Prelude.{◌≡◌, ◌++◌, ◌≤◌, ◌<◌, length, drop, Option, Float};
ghost use Rattle.scores.specs.Table.{best as greatest};
ghost use Rattle.scores.specs.Floats.{f64s};
ghost use Rattle.formed.specs.Word.{WordFormed};
ghost use Rattle.viterbi.specs.Slices.{lattice_of, without, WellFormed};
ghost use Rattle.viterbi.specs.Answers.{Asked, Behind, Answers};
ghost use Rattle.expectations.specs.Sums as Sums;

use expectations::expectations_core;
use formed::Lattice;
use viterbi::{excluding_core, viterbi_core};

#[unsafe(no_mangle)]
pub extern "C" fn bench_expectations(
    offsets: &[u32],
    starts: &[u32],
    ids: &[u32],
    scores: &[f64],
    alpha: &mut [f64],
    beta: &mut [f64],
    emitted: &mut [f64],
    n: usize,
) -> f64
    requires word_formed { WordFormed offsets.now starts.now ids.now (length scores.now) n }
    requires n_in_bounds { (n < length alpha.old) × (n < length beta.old) × (length starts.now ≤ length emitted.old) }
    ensures value { result ≡ Sums.expected_sum offsets.now starts.now ids.now scores.now n }
    ensures emitted_after { emitted.new ≡ Sums.expected_shares offsets.now starts.now ids.now scores.now n ++ drop (length starts.now) emitted.old }
{
    let lattice = Lattice {
        offsets,
        starts,
        ids,
        n,
    };
    expectations_core(&lattice, scores, alpha, beta, emitted)
}

// How many pieces the best cut has, 0 where there is none. Their ids are in front of `path`.
#[unsafe(no_mangle)]
pub extern "C" fn bench_viterbi(
    offsets: &[u32],
    starts: &[u32],
    ids: &[u32],
    scores: &[f64],
    best: &mut [f64],
    back: &mut [u32],
    path: &mut [u32],
    n: usize,
) -> usize
    requires asked { Asked offsets.now starts.now ids.now scores.now best.old back.old n }
    requires n_in_bounds { n ≤ length path.old }
    ensures answers { (found : Option Float) × Answers (lattice_of offsets.now starts.now ids.now scores.now) ids.now n path.old path.new found result }
    ensures behind { Behind n best.old best.new × Behind n back.old back.new }
{
    let lattice = Lattice {
        offsets,
        starts,
        ids,
        n,
    };
    viterbi_core(&lattice, scores, best, back, path).count
}

#[unsafe(no_mangle)]
pub extern "C" fn bench_excluding(
    offsets: &[u32],
    starts: &[u32],
    ids: &[u32],
    scores: &[f64],
    excluded: u32,
    best: &mut [f64],
    n: usize,
) -> f64
    requires well_formed { WellFormed offsets.now starts.now ids.now scores.now n }
    requires n_in_bounds { n < length best.old }
    ensures value { result ≡ greatest f64s (lattice_of offsets.now starts.now ids.now (without excluded scores.now)) n }
    ensures behind { Behind n best.old best.new }
{
    let lattice = Lattice {
        offsets,
        starts,
        ids,
        n,
    };
    excluding_core(&lattice, scores, excluded, best)
}
