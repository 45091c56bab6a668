// The best cut of one word, over a lattice and scores as a caller lends them.
//
// Each call checks, works and clears. Document 01: "Viterbi checks 9, 10, 7, 11, 12; `expectations` and `viterbi_excluding` 9,
// 10, 7". "Calls on one word's lattice give place 0". A refusal leaves the path as it was, and the work slices hold zeros after
// every call. 12, a walk back that meets a position with no edge, is never given: a lattice that is well formed has the edge.
#![tactic(auto)]

ghost use Rattle.std.specs.Prelude.{◌≡◌, ◌≤◌, ◌<◌, length};
ghost use Rattle.laws.specs.Tests.{Says};
ghost use Rattle.cut.specs.Cut.{Rooms, Answers, Excludes, zeros, zero_floats};
ghost use Rattle.cut.specs.Checked.{Checks, Ready};
ghost use Rattle.cut.specs.Sums.{Connects, Expects};

use connected::is_connected_core;
use expectations::expectations_core;
use formed::Lattice;
use lent::{check_scores, word_formed};
use refusal::Refusal;
use viterbi::{excluding_core, viterbi_core};

// The best cut's score, and how many pieces its path has.
#[derive(Clone, Copy, Debug, PartialEq)]
pub struct Cut {
    pub score: f64,
    pub count: usize,
}

// Checks a lent lattice and the scores; `room` says whether the work slices have a slot for each position.
fn check(lattice: &Lattice, scores: &[f64], room: bool) -> Result<(), Refusal>
    ensures { Checks (record { offsets = lattice.now.offsets.now; starts = lattice.now.starts.now; ids = lattice.now.ids.now; n = lattice.now.n; scores = scores.now }) room result }
{
    if !word_formed(lattice, scores.len()) {
        return Err(Refusal::BadLattice(0));
    }
    if let Err(id) = check_scores(scores) {
        return Err(Refusal::BadScore(id as u64));
    }
    if !room {
        return Err(Refusal::NoRoom(refusal::NO_ROOM_EDGES));
    }
    Ok(())
}

// Whether both work slices have a slot for each of the n + 1 positions.
fn rooms(n: usize, best: &[f64], back: &[u32]) -> bool
    ensures { Says result (Rooms n best.now back.now) }
{
    n < best.len() && n < back.len()
}

// The best cut of what was checked.
pub fn cut_core(
    lattice: &Lattice,
    scores: &[f64],
    best: &mut [f64],
    back: &mut [u32],
    path: &mut [u32],
) -> Result<Cut, Refusal>
    requires { Ready (record { offsets = lattice.now.offsets.now; starts = lattice.now.starts.now; ids = lattice.now.ids.now; n = lattice.now.n; scores = scores.now }) best.old back.old path.old }
    ensures { Answers (record { offsets = lattice.now.offsets.now; starts = lattice.now.starts.now; ids = lattice.now.ids.now; n = lattice.now.n; scores = scores.now }) best.old back.old path.old path.new result }
{
    let cutting = viterbi_core(lattice, scores, best, back, path);
    let score = cutting.best.ok_or(Refusal::NoPath)?;
    Ok(Cut {
        score,
        count: cutting.count,
    })
}

// Checks, and cuts; the work slices are left as they may be.
fn check_and_cut(
    lattice: &Lattice,
    scores: &[f64],
    best: &mut [f64],
    back: &mut [u32],
    path: &mut [u32],
) -> Result<Cut, Refusal>
    ensures { Answers (record { offsets = lattice.now.offsets.now; starts = lattice.now.starts.now; ids = lattice.now.ids.now; n = lattice.now.n; scores = scores.now }) best.old back.old path.old path.new result }
{
    check(lattice, scores, rooms(lattice.n, best, back))?;
    if path.len() < lattice.n {
        return Err(Refusal::NoRoom(refusal::NO_ROOM_RESULTS));
    }
    cut_core(lattice, scores, best, back, path)
}

// The best cut of a word of n characters: the ids of its pieces in front of the path.
pub fn viterbi(
    offsets: &[u32],
    starts: &[u32],
    ids: &[u32],
    n: usize,
    scores: &[f64],
    best: &mut [f64],
    back: &mut [u32],
    path: &mut [u32],
) -> Result<Cut, Refusal>
    ensures answers { Answers (record { offsets = offsets.now; starts = starts.now; ids = ids.now; n = n; scores = scores.now }) best.old back.old path.old path.new result }
    ensures best_after { (best.new ≡ zero_floats (length best.old)) × (back.new ≡ zeros (length back.old)) }
{
    let lattice = Lattice {
        offsets,
        starts,
        ids,
        n,
    };
    let answer = check_and_cut(&lattice, scores, best, back, path);
    best.fill(0.0);
    back.fill(0);
    answer
}

// A short word's best cut, with its path by value: "32 ids with their count", and the unused ids are 0.
#[derive(Clone, Copy, Debug, PartialEq)]
pub struct ShortCut {
    pub cut: Result<Cut, Refusal>,
    pub ids: [u32; 32],
}

// The same for a word of at most 32 characters. A longer one has no room for its path: NoRoom 4.
pub fn viterbi_short(
    offsets: &[u32],
    starts: &[u32],
    ids: &[u32],
    n: usize,
    scores: &[f64],
    best: &mut [f64],
    back: &mut [u32],
) -> ShortCut
    ensures answers { Answers (record { offsets = offsets.now; starts = starts.now; ids = ids.now; n = n; scores = scores.now }) best.old back.old (zeros 32) result.ids result.cut }
    ensures best_after { (best.new ≡ zero_floats (length best.old)) × (back.new ≡ zeros (length back.old)) }
{
    let mut path = [0u32; 32];
    let cut = viterbi(offsets, starts, ids, n, scores, best, back, &mut path);
    ShortCut { cut, ids: path }
}

// Checks, and finds the best score without a piece; the work slice is left as it may be.
fn check_and_exclude(
    lattice: &Lattice,
    scores: &[f64],
    excluded: u32,
    best: &mut [f64],
) -> Result<f64, Refusal>
    ensures { Excludes (record { offsets = lattice.now.offsets.now; starts = lattice.now.starts.now; ids = lattice.now.ids.now; n = lattice.now.n; scores = scores.now }) excluded best.old result }
{
    check(lattice, scores, lattice.n < best.len())?;
    Ok(excluding_core(lattice, scores, excluded, best))
}

// The best score of a word without ever using a piece, minus infinity where nothing else spells it.
pub fn viterbi_excluding(
    offsets: &[u32],
    starts: &[u32],
    ids: &[u32],
    n: usize,
    scores: &[f64],
    excluded: u32,
    best: &mut [f64],
) -> Result<f64, Refusal>
    ensures excludes { Excludes (record { offsets = offsets.now; starts = starts.now; ids = ids.now; n = n; scores = scores.now }) excluded best.old result }
    ensures best_after { best.new ≡ zero_floats (length best.old) }
{
    let lattice = Lattice {
        offsets,
        starts,
        ids,
        n,
    };
    let answer = check_and_exclude(&lattice, scores, excluded, best);
    best.fill(0.0);
    answer
}

// No score is lent, so any number of 32 bits is a piece's id.
const ANY_ID: usize = 1 << 32;

// Checks, and asks; the work slice is left as it may be.
fn check_and_connect(lattice: &Lattice, reach: &mut [u32]) -> Result<bool, Refusal>
    ensures { Connects lattice.now.offsets.now lattice.now.starts.now lattice.now.ids.now lattice.now.n reach.old result }
{
    if !word_formed(lattice, ANY_ID) {
        return Err(Refusal::BadLattice(0));
    }
    if reach.len() <= lattice.n {
        return Err(Refusal::NoRoom(refusal::NO_ROOM_EDGES));
    }
    Ok(is_connected_core(lattice, reach))
}

// Whether some chain of edges leads from the first position of a word to its last.
pub fn is_connected(
    offsets: &[u32],
    starts: &[u32],
    ids: &[u32],
    n: usize,
    reach: &mut [u32],
) -> Result<bool, Refusal>
    ensures connects { Connects offsets.now starts.now ids.now n reach.old result }
    ensures reach_after { reach.new ≡ zeros (length reach.old) }
{
    let lattice = Lattice {
        offsets,
        starts,
        ids,
        n,
    };
    let answer = check_and_connect(&lattice, reach);
    reach.fill(0);
    answer
}

// Whether there is a slot for each position in both work slices, and an entry for each edge.
fn sum_rooms(n: usize, edges: usize, alpha: &[f64], beta: &[f64], emitted: &[f64]) -> bool
    ensures { Says result ((n < length alpha.now) × (n < length beta.now) × (edges ≤ length emitted.now)) }
{
    n < alpha.len() && n < beta.len() && edges <= emitted.len()
}

// Checks, and sums; the work slices are left as they may be.
fn check_and_sum(
    lattice: &Lattice,
    scores: &[f64],
    alpha: &mut [f64],
    beta: &mut [f64],
    emitted: &mut [f64],
) -> Result<f64, Refusal>
    ensures { Expects (record { offsets = lattice.now.offsets.now; starts = lattice.now.starts.now; ids = lattice.now.ids.now; n = lattice.now.n; scores = scores.now }) alpha.old beta.old emitted.old emitted.new result }
{
    let room = sum_rooms(lattice.n, lattice.starts.len(), alpha, beta, emitted);
    check(lattice, scores, room)?;
    Ok(expectations_core(lattice, scores, alpha, beta, emitted))
}

// The expected count of every edge of a word over all of its cuts, an entry an edge, and the logarithm of the sum of all cuts.
pub fn expectations(
    offsets: &[u32],
    starts: &[u32],
    ids: &[u32],
    n: usize,
    scores: &[f64],
    alpha: &mut [f64],
    beta: &mut [f64],
    emitted: &mut [f64],
) -> Result<f64, Refusal>
    ensures expects { Expects (record { offsets = offsets.now; starts = starts.now; ids = ids.now; n = n; scores = scores.now }) alpha.old beta.old emitted.old emitted.new result }
    ensures alpha_after { (alpha.new ≡ zero_floats (length alpha.old)) × (beta.new ≡ zero_floats (length beta.old)) }
{
    let lattice = Lattice {
        offsets,
        starts,
        ids,
        n,
    };
    let answer = check_and_sum(&lattice, scores, alpha, beta, emitted);
    alpha.fill(0.0);
    beta.fill(0.0);
    answer
}
