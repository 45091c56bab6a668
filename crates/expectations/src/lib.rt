// How much every cut of a word counts: `log_add` and `expectations` of lattice.rs, document 01's port order 6.
//
// A float's bits depend on the order of its sums, so that order is lattice.rs's at every place: "ends rising, starts rising,
// backward pass ends falling". The sums are taken pairwise, each by one exp and one ln_1p: lattice.rs measured that this is
// the quicker way where a position has a handful of edges.
#![tactic(auto)]

ghost use Rattle.std.specs.Prelude.{◌≡◌, true, ◌++◌, ◌+◌, ◌≤◌, ◌<◌, length, get_or, drop, set, replicate, take};
ghost use Rattle.std.specs.Float.{inf, nan};
ghost use Rattle.math.specs.Steps.{◌⊕◌};
ghost use Rattle.formed.specs.Word.{WordFormed};
ghost use Rattle.connected.specs.Word.{Starting, Naming};
ghost use Rattle.expectations.specs.LogAdd.{above, log_add};
ghost use Rattle.expectations.specs.Edges.{Edge};
ghost use Rattle.expectations.specs.Sums as Sums;

use floats::{is_finite, lowest};
use formed::{Lattice, read};
use math::{exp, ln_1p};

// The greater of two, and what the smaller adds to it.
fn above(hi: f64, lo: f64) -> f64
    ensures { result ≡ above hi lo }
{
    hi + ln_1p(exp(lo - hi))
}

// ln(e^a + e^b), stable when either side is very small or absent.
#[tactic(auto, unfolding(crate::specs::LogAdd::log_add))]
pub fn log_add(a: f64, b: f64) -> f64
    ensures { result ≡ log_add a b }
{
    if a == lowest() {
        b
    } else if b == lowest() {
        a
    } else if a > b {
        above(a, b)
    } else {
        above(b, a)
    }
}

// The way from position 0 over edge k.
fn until(lattice: &Lattice, scores: &[f64], alpha: &[f64], k: usize) -> f64
    requires { Edge lattice.now.starts.now lattice.now.ids.now (length scores.now) (length alpha.now) k }
    ensures { result ≡ Sums.until lattice.now.starts.now lattice.now.ids.now scores.now alpha.now k }
{
    alpha[read(lattice.starts, k)] + scores[read(lattice.ids, k)]
}

// The sum over the edges from `low` up to, not with, `high`, which end at one position. `alpha` holds the sums at the
// positions before it.
fn forward_end(lattice: &Lattice, scores: &[f64], alpha: &[f64], low: usize, high: usize) -> f64
    requires { Starting lattice.now.starts.now (length alpha.now) low high × Naming lattice.now.ids.now (length scores.now) low high }
    ensures { result ≡ Sums.forward_sum lattice.now.starts.now lattice.now.ids.now scores.now alpha.now low high }
{
    let mut sum = lowest();
    for k in low..high {
        sum = log_add(sum, until(lattice, scores, alpha, k));
    }
    sum
}

// The sums over the chains of edges from position 0 to each position, ends rising.
fn forward(lattice: &Lattice, scores: &[f64], alpha: &mut [f64])
    requires { WordFormed lattice.now.offsets.now lattice.now.starts.now lattice.now.ids.now (length scores.now) lattice.now.n × (lattice.now.n < length alpha.old) }
    ensures { alpha.new ≡ Sums.alphas lattice.now.offsets.now lattice.now.starts.now lattice.now.ids.now scores.now lattice.now.n ++ drop (lattice.now.n + 1) alpha.old }
{
    alpha[0] = 0.0;
    // Counted from 0, as the definition counts the sums that there are.
    for q in 0..lattice.n {
        let end = q + 1;
        let low = lattice.low(end);
        let high = lattice.high(end);
        alpha[end] = forward_end(lattice, scores, &alpha[..end], low, high);
    }
}

// Adds the way over edge k, onward from its end, to the sum at its start.
fn backward_edge(lattice: &Lattice, scores: &[f64], beta: &mut [f64], onward: f64, k: usize)
    requires { Edge lattice.now.starts.now lattice.now.ids.now (length scores.now) (length beta.old) k }
    ensures { beta.new ≡ set beta.old (get_or lattice.now.starts.now k 0) (log_add (get_or beta.old (get_or lattice.now.starts.now k 0) nan) (Sums.score lattice.now.starts.now lattice.now.ids.now scores.now k ⊕ onward)) }
{
    let start = read(lattice.starts, k);
    beta[start] = log_add(beta[start], scores[read(lattice.ids, k)] + onward);
}

// The same for the edges from `low` up to, not with, `high`, which end at one position.
fn backward_end(
    lattice: &Lattice,
    scores: &[f64],
    beta: &mut [f64],
    onward: f64,
    low: usize,
    high: usize,
)
    requires { Starting lattice.now.starts.now (length beta.old) low high × Naming lattice.now.ids.now (length scores.now) low high }
    ensures { Sums.Added lattice.now.starts.now lattice.now.ids.now scores.now onward low high beta.old beta.new }
{
    for k in low..high {
        backward_edge(lattice, scores, beta, onward, k);
    }
}

// The sums over the chains of edges from each position to n, ends falling.
fn backward(lattice: &Lattice, scores: &[f64], beta: &mut [f64])
    requires { WordFormed lattice.now.offsets.now lattice.now.starts.now lattice.now.ids.now (length scores.now) lattice.now.n × (lattice.now.n < length beta.old) }
    ensures { Sums.Holds lattice.now.offsets.now lattice.now.starts.now lattice.now.ids.now scores.now lattice.now.n lattice.now.n beta.new }
{
    let n = lattice.n;
    beta[..n].fill(lowest());
    beta[n] = 0.0;
    // Ends falling, counted from 0, as the definition counts those that are done.
    for done in 0..n {
        let end = n - done;
        let onward = beta[end];
        let low = lattice.low(end);
        let high = lattice.high(end);
        backward_end(lattice, scores, beta, onward, low, high);
    }
}

// What is emitted for a marginal.
fn share(marginal: f64) -> f64
    ensures { result ≡ Sums.share marginal }
{
    if is_finite(marginal) {
        exp(marginal)
    } else {
        0.0
    }
}

// Emits the edges from `low` up to, not with, `high`, which end at one position with the sum `onward` from there.
fn emit_end(
    lattice: &Lattice,
    scores: &[f64],
    alpha: &[f64],
    emitted: &mut [f64],
    onward: f64,
    z: f64,
    low: usize,
    high: usize,
)
    requires { Starting lattice.now.starts.now (length alpha.now) low high × Naming lattice.now.ids.now (length scores.now) low high × (high ≤ length emitted.old) }
    ensures { emitted.new ≡ (take low emitted.old ++ Sums.shares lattice.now.starts.now lattice.now.ids.now scores.now alpha.now onward z low high) ++ drop high emitted.old }
{
    for k in low..high {
        emitted[k] = share(until(lattice, scores, alpha, k) + onward - z);
    }
}

// Emits every edge.
fn emit(lattice: &Lattice, scores: &[f64], alpha: &[f64], beta: &[f64], emitted: &mut [f64], z: f64)
    requires { WordFormed lattice.now.offsets.now lattice.now.starts.now lattice.now.ids.now (length scores.now) lattice.now.n × (lattice.now.n < length alpha.now) × (lattice.now.n < length beta.now) × (length lattice.now.starts.now ≤ length emitted.old) }
    ensures { emitted.new ≡ Sums.shares_to lattice.now.offsets.now lattice.now.starts.now lattice.now.ids.now scores.now alpha.now (λ p. get_or beta.now p nan) z (lattice.now.n + 1) ++ drop (length lattice.now.starts.now) emitted.old }
{
    for end in 0..lattice.n + 1 {
        let onward = beta[end];
        let low = lattice.low(end);
        let high = lattice.high(end);
        emit_end(lattice, scores, alpha, emitted, onward, z, low, high);
    }
}

// The sum over all cuts, and at each edge's number in `emitted` its share of that sum. `alpha` and `beta` are work slices.
pub fn expectations_core(
    lattice: &Lattice,
    scores: &[f64],
    alpha: &mut [f64],
    beta: &mut [f64],
    emitted: &mut [f64],
) -> f64
    requires word_formed { WordFormed lattice.now.offsets.now lattice.now.starts.now lattice.now.ids.now (length scores.now) lattice.now.n }
    requires n_in_bounds { (lattice.now.n < length alpha.old) × (lattice.now.n < length beta.old) × (length lattice.now.starts.now ≤ length emitted.old) }
    ensures value { result ≡ Sums.expected_sum lattice.now.offsets.now lattice.now.starts.now lattice.now.ids.now scores.now lattice.now.n }
    ensures emitted_after { emitted.new ≡ Sums.expected_shares lattice.now.offsets.now lattice.now.starts.now lattice.now.ids.now scores.now lattice.now.n ++ drop (length lattice.now.starts.now) emitted.old }
{
    forward(lattice, scores, alpha);
    let z = alpha[lattice.n];
    if !is_finite(z) {
        emitted[..lattice.starts.len()].fill(0.0);
        return lowest();
    }
    backward(lattice, scores, beta);
    emit(lattice, scores, &alpha[..lattice.n + 1], beta, emitted, z);
    z
}
