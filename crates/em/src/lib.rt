// One pass of expectation and maximization: `expectation_maximization` of 001, document 01's port order 9.
//
// "Words with n = 0 or no connection are skipped. Total ≤ 0 changes nothing. A piece with no expectation gets -1021. Underflow
// of count/total gives minus infinity." Every word adds its edges' shares, times its frequency, to what its pieces are expected;
// each score then is the logarithm of its piece's part of the total. The entry of an edge that emits nothing is +0, and adding it
// changes no bit. The work slices of a word's sums are arrays, made once a pass: a word has at most 255 characters and 32
// edges to each.
#![tactic(auto)]

ghost use Rattle.std.specs.Prelude.{◌≡◌, ◌≤◌, List, map, length, slice_index};
ghost use Rattle.lattice.specs.Lattice.{Edge};
ghost use Rattle.formed.specs.Word.{WordFormed};
ghost use Rattle.cached.specs.Cached.{span_at};
ghost use Rattle.cached.specs.Held.{Held};
ghost use Rattle.em.specs.Em as Em;
ghost use Rattle.em.specs.Steps.{Given, Counted, AllCounted, WordAt, add_span};

use cached::span_at;
use connected::is_connected_core;
use expectations::expectations_core;
use formed::{Lattice, read};
use math::ln;

// The work slices of a word's sums and of its marks.
#[derive(Drop)]
struct Work {
    alpha: [f64; 256],
    beta: [f64; 256],
    emitted: [f64; 8160],
    reach: [u32; 256],
}

// Adds edge k's share, so many times, to what its piece is expected.
fn add_edge(ids: &[u32], emitted: &[f64], expected: &mut [f64], weight: f64, k: usize)
    requires { Counted ids.now (length emitted.now) (length expected.old) k }
    ensures { expected.new ≡ Em.add_edge ids.now emitted.now weight expected.old k }
{
    let id = read(ids, k);
    expected[id] += emitted[k] * weight;
}

// The same for all edges of a word, in order.
fn add_edges(ids: &[u32], emitted: &[f64], expected: &mut [f64], weight: f64)
    requires { AllCounted ids.now (length emitted.now) (length expected.old) }
    ensures { expected.new ≡ Em.add_edges ids.now emitted.now weight expected.old }
{
    for k in 0..ids.len() {
        add_edge(ids, emitted, expected, weight, k);
    }
}

// Adds a word by its lattice. It is skipped where it has no character or no cut.
fn add_lattice(
    lattice: &Lattice,
    scores: &[f64],
    expected: &mut [f64],
    work: &mut Work,
    frequency: u64,
)
    requires word_formed { WordFormed lattice.now.offsets.now lattice.now.starts.now lattice.now.ids.now (length scores.now) lattice.now.n × (lattice.now.n ≤ 255) × (length lattice.now.starts.now ≤ 8160) }
    requires as_many { length expected.old ≡ length scores.now }
    ensures { expected.new ≡ Em.add_word lattice.now.offsets.now lattice.now.starts.now lattice.now.ids.now lattice.now.n scores.now frequency expected.old }
{
    if lattice.n == 0 || !is_connected_core(lattice, &mut work.reach) {
        return;
    }
    expectations_core(
        lattice,
        scores,
        &mut work.alpha,
        &mut work.beta,
        &mut work.emitted,
    );
    let weight = std::num::nearest_u64_to_f64(frequency);
    add_edges(
        lattice.ids,
        &work.emitted[..lattice.starts.len()],
        expected,
        weight,
    );
}

// What a cache holds of its words, and the scores of pieces. The same as in `uses`; what is added up is each crate's own.
#[derive(Clone, Copy)]
struct Lent<'a> {
    offsets: &'a [u32],
    starts: &'a [u32],
    ids: &'a [u32],
    spans: &'a [u32],
    frequencies: &'a [u64],
    scores: &'a [f64],
}

impl Lent<'_> {
    // Adds a word of the cache: its lattice's slices are cut out at its span.
    fn add_word(&self, expected: &mut [f64], work: &mut Work, word: usize)
        requires word_at { WordAt self.now.offsets.now self.now.starts.now self.now.ids.now self.now.spans.now self.now.frequencies.now (length self.now.scores.now) word }
        requires as_many { length expected.old ≡ length self.now.scores.now }
        ensures { expected.new ≡ add_span self.now.offsets.now self.now.starts.now self.now.ids.now (span_at self.now.spans.now word) self.now.scores.now (slice_index self.now.frequencies.now word) expected.old }
    {
        let span = span_at(self.spans, word);
        let lattice = Lattice::at(self.offsets, self.starts, self.ids, span);
        add_lattice(
            &lattice,
            self.scores,
            expected,
            work,
            self.frequencies[word],
        );
    }

    // How often each piece is expected over all words, in order.
    fn expect(&self, words: usize, expected: &mut [f64], work: &mut Work)
        requires given { Given self.now.offsets.now self.now.starts.now self.now.ids.now self.now.spans.now self.now.frequencies.now words (length self.now.scores.now) }
        requires as_many { length expected.old ≡ length self.now.scores.now }
        ensures { (lattices : List (List (List Edge))) → Held self.now.starts.now self.now.ids.now self.now.offsets.now self.now.spans.now (length self.now.scores.now) words lattices → expected.new ≡ Em.expected_of lattices self.now.frequencies.now self.now.scores.now }
    {
        expected.fill(0.0);
        for word in 0..words {
            self.add_word(expected, work, word);
        }
    }
}

// The sum of what all pieces are expected.
fn total(expected: &[f64]) -> f64
    ensures { result ≡ Em.total_of expected.now }
{
    let mut sum = 0.0;
    for count in expected {
        sum += *count;
    }
    sum
}

// The score of a piece that is expected so often. -1021 is `f64::MIN_EXP`: minus infinity would poison every lattice that the
// piece is in.
fn new_score(sum: f64, count: f64) -> f64
    ensures { result ≡ Em.new_score sum count }
{
    if count > 0.0 {
        ln(count / sum)
    } else {
        -1021.0
    }
}

// The scores of all pieces.
fn rescore(scores: &mut [f64], expected: &[f64], sum: f64)
    requires { length expected.now ≡ length scores.old }
    ensures { scores.new ≡ map (Em.new_score sum) expected.now }
{
    for (piece, count) in expected.iter().enumerate() {
        scores[piece] = new_score(sum, *count);
    }
}

// The scores by what is expected, unless nothing is.
fn maximize(scores: &mut [f64], expected: &[f64])
    requires { length expected.now ≡ length scores.old }
    ensures { scores.new ≡ Em.rescored scores.old expected.now }
{
    let sum = total(expected);
    if sum <= 0.0 {
        return;
    }
    rescore(scores, expected, sum);
}

// One pass over the words of a cache. For whatever lattices the slices hold, the scores are those after the pass. `expected` is
// a work slice with as many slots as there are scores.
pub fn em(
    offsets: &[u32],
    starts: &[u32],
    ids: &[u32],
    spans: &[u32],
    words: usize,
    frequencies: &[u64],
    scores: &mut [f64],
    expected: &mut [f64],
)
    requires { Given offsets.now starts.now ids.now spans.now frequencies.now words (length scores.old) × (length expected.old ≡ length scores.old) }
    ensures { (lattices : List (List (List Edge))) → Held starts.now ids.now offsets.now spans.now (length scores.old) words lattices → scores.new ≡ Em.em lattices frequencies.now scores.old }
{
    let mut work = Work {
        alpha: [0.0; 256],
        beta: [0.0; 256],
        emitted: [0.0; 8160],
        reach: [0; 256],
    };
    let lent = Lent {
        offsets,
        starts,
        ids,
        spans,
        frequencies,
        scores,
    };
    lent.expect(words, expected, &mut work);
    maximize(scores, expected);
}

// "EM runs max(1, iterations) a round": so many passes, one after the other.
pub fn em_many(
    offsets: &[u32],
    starts: &[u32],
    ids: &[u32],
    spans: &[u32],
    words: usize,
    frequencies: &[u64],
    scores: &mut [f64],
    expected: &mut [f64],
    iterations: usize,
)
    requires { Given offsets.now starts.now ids.now spans.now frequencies.now words (length scores.old) × (length expected.old ≡ length scores.old) }
    ensures { (lattices : List (List (List Edge))) → Held starts.now ids.now offsets.now spans.now (length scores.old) words lattices → scores.new ≡ Em.em_many lattices frequencies.now iterations scores.old }
{
    for _pass in 0..iterations.max(1) {
        em(
            offsets,
            starts,
            ids,
            spans,
            words,
            frequencies,
            scores,
            expected,
        );
    }
}
