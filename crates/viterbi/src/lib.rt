// The best cut of one word, over its lattice in exact slices: document 01, port order 7.
//
// `path_core`, `viterbi_core` and `short_core` are 000's `viterbi`, `excluding_core` is its `viterbi_excluding`. They take what
// callers have checked: a well-formed lattice and room. `path_core` takes any scores, as 000 does. The others that give a path
// take scores at zero or below, and say what their answer means: a cut that wins, said of cuts alone, in the crate `scores`.
// The forward pass is one pass over the edges, ends rising. The walk back goes twice, to count and then to write from the end,
// so that nothing is turned round afterwards.
#![tactic(auto)]

ghost use Rattle.std.specs.Prelude.{◌≡◌, true, List, ◌++◌, ℕ, ◌+◌, ◌≤◌, ◌<◌, length, take, drop, set, replicate};
ghost use Rattle.std.specs.Float.{inf};
ghost use Rattle.scores.specs.Table.{step, ending, table, edges_to, best as greatest};
ghost use Rattle.scores.specs.Floats.{f64s};
ghost use Rattle.viterbi.specs.Slices.{edges_of, lattice_of, without, seen, Readable, EndReadable, WellFormed};
ghost use Rattle.viterbi.specs.Walk.{Walk, spell};
ghost use Rattle.viterbi.specs.Path.{path};
ghost use Rattle.viterbi.specs.Answers.{Asked, Behind, Answers};

use floats::{is_finite, lowest};
use formed::Lattice;

// The greatest sum at one position so far, and the edge that gave it.
#[derive(Clone, Copy)]
struct Choice {
    top: f64,
    via: u32,
}

// The better of the choice and edge k, the choice where they are level. An edge of the excluded piece offers nothing.
fn offer(
    lattice: &Lattice,
    scores: &[f64],
    excluded: usize,
    best: &[f64],
    k: u32,
    choice: Choice,
) -> Choice
    requires { Readable lattice.now.starts.now lattice.now.ids.now scores.now (length best.now) k }
    ensures { seen result ≡ step f64s (edges_of lattice.now.starts.now lattice.now.ids.now (without excluded scores.now)) best.now (seen choice) k }
{
    let edge = k as usize;
    let id = lattice.ids[edge] as usize;
    if id == excluded {
        return choice;
    }
    let start = lattice.starts[edge] as usize;
    let sum = best[start] + scores[id];
    let top = choice.top;
    if sum > top {
        Choice { top: sum, via: k }
    } else {
        choice
    }
}

// The best of the edges that end at a position, where `best` holds the greatest sums at the positions before it.
fn choose(lattice: &Lattice, scores: &[f64], excluded: usize, best: &[f64], end: usize) -> Choice
    requires { EndReadable lattice.now.offsets.now lattice.now.starts.now lattice.now.ids.now scores.now (length best.now) end }
    ensures { seen result ≡ ending f64s (lattice_of lattice.now.offsets.now lattice.now.starts.now lattice.now.ids.now (without excluded scores.now)) best.now end }
{
    let mut choice = Choice {
        top: lowest(),
        via: 0,
    };
    for k in lattice.offsets[end]..lattice.offsets[end + 1] {
        choice = offer(lattice, scores, excluded, best, k, choice);
    }
    choice
}

// Writes the greatest sum at a position behind those before it, and gives the edge that it came by.
fn reach(lattice: &Lattice, scores: &[f64], excluded: usize, best: &mut [f64], end: usize) -> u32
    requires readable { EndReadable lattice.now.offsets.now lattice.now.starts.now lattice.now.ids.now scores.now end end }
    requires end_in_bounds { end < length best.old }
    ensures value { result ≡ (ending f64s (lattice_of lattice.now.offsets.now lattice.now.starts.now lattice.now.ids.now (without excluded scores.now)) (take end best.old) end).via }
    ensures best_after { best.new ≡ set best.old end (ending f64s (lattice_of lattice.now.offsets.now lattice.now.starts.now lattice.now.ids.now (without excluded scores.now)) (take end best.old) end).top }
{
    let choice = choose(lattice, scores, excluded, &best[..end], end);
    best[end] = choice.top;
    choice.via
}

// The greatest sum at each position, and the edge that gives it. An `excluded` that is no piece's id excludes none.
fn forward(lattice: &Lattice, scores: &[f64], excluded: usize, best: &mut [f64], back: &mut [u32])
    requires well_formed { WellFormed lattice.now.offsets.now lattice.now.starts.now lattice.now.ids.now scores.now lattice.now.n }
    requires n_in_bounds { (lattice.now.n < length best.old) × (lattice.now.n < length back.old) }
    ensures best_after { best.new ≡ table f64s (lattice_of lattice.now.offsets.now lattice.now.starts.now lattice.now.ids.now (without excluded scores.now)) lattice.now.n ++ drop (lattice.now.n + 1) best.old }
    ensures back_after { back.new ≡ edges_to f64s (lattice_of lattice.now.offsets.now lattice.now.starts.now lattice.now.ids.now (without excluded scores.now)) lattice.now.n ++ drop (lattice.now.n + 1) back.old }
{
    best[0] = 0.0;
    back[0] = 0;
    // Counted from 0, as the definition counts the sums that there are.
    for at in 0..lattice.n {
        let end = at + 1;
        back[end] = reach(lattice, scores, excluded, best, end);
    }
}

// How many edges the walk back from n meets.
fn count_back(lattice: &Lattice, back: &[u32]) -> usize
    requires n_in_bounds { lattice.now.n < length back.now }
    requires by_index { (ks : List ℕ) × Walk back.now lattice.now.starts.now lattice.now.ids.now lattice.now.n ks }
    ensures { (ks : List ℕ) → Walk back.now lattice.now.starts.now lattice.now.ids.now lattice.now.n ks → result ≡ length ks }
{
    let mut position = lattice.n;
    let mut count: usize = 0;
    // no `for`: each edge says where the next position is
    while position > 0 {
        let k = back[position] as usize;
        position = lattice.starts[k] as usize;
        count += 1;
    }
    count
}

// Writes the ids of the walk's edges, `count` of them, so that the first edge's stands first.
fn write_back(lattice: &Lattice, back: &[u32], out: &mut [u32], count: usize)
    requires n_in_bounds { lattice.now.n < length back.now }
    requires count_in_bounds { count ≤ length out.old }
    requires by_index { (ks : List ℕ) × Walk back.now lattice.now.starts.now lattice.now.ids.now lattice.now.n ks × (length ks ≡ count) }
    ensures { (ks : List ℕ) → Walk back.now lattice.now.starts.now lattice.now.ids.now lattice.now.n ks → out.new ≡ spell lattice.now.ids.now ks ++ drop count out.old }
{
    let mut position = lattice.n;
    let mut met: usize = 0;
    // no `for`: each edge says where the next position is
    while position > 0 {
        let k = back[position] as usize;
        met += 1;
        out[count - met] = lattice.ids[k];
        position = lattice.starts[k] as usize;
    }
}

// The ids on the best cut of a word of n characters, in front of `out`, whose other slots are kept. Where the greatest sum is not
// finite, nothing is written. Scores may be any: a position whose sum is above minus infinity was reached from one like it.
pub fn path_core(
    lattice: &Lattice,
    scores: &[f64],
    best: &mut [f64],
    back: &mut [u32],
    out: &mut [u32],
) -> usize
    requires well_formed { WellFormed lattice.now.offsets.now lattice.now.starts.now lattice.now.ids.now scores.now lattice.now.n }
    requires n_in_bounds { (lattice.now.n < length best.old) × (lattice.now.n < length back.old) × (lattice.now.n ≤ length out.old) }
    ensures value { result ≡ length (path lattice.now.offsets.now lattice.now.starts.now lattice.now.ids.now lattice.now.n scores.now) }
    ensures out_after { out.new ≡ path lattice.now.offsets.now lattice.now.starts.now lattice.now.ids.now lattice.now.n scores.now ++ drop result out.old }
    ensures best_after { best.new ≡ table f64s (lattice_of lattice.now.offsets.now lattice.now.starts.now lattice.now.ids.now scores.now) lattice.now.n ++ drop (lattice.now.n + 1) best.old }
    ensures behind { Behind lattice.now.n best.old best.new × Behind lattice.now.n back.old back.new }
{
    forward(lattice, scores, scores.len(), best, back);
    if is_finite(best[lattice.n]) {
        let count = count_back(lattice, back);
        write_back(lattice, back, out, count);
        count
    } else {
        0
    }
}

// The best cut's score, and how many ids it has: "the best cut is either a score or no path". No path has none.
#[derive(Clone, Copy, Debug, PartialEq)]
pub struct Cutting {
    pub best: Option<f64>,
    pub count: usize,
}

// The best cut of a word of n characters: its score, and its ids in front of `out`, whose other slots are kept. With no cut
// of a finite sum, nothing is written.
pub fn viterbi_core(
    lattice: &Lattice,
    scores: &[f64],
    best: &mut [f64],
    back: &mut [u32],
    out: &mut [u32],
) -> Cutting
    requires asked { Asked lattice.now.offsets.now lattice.now.starts.now lattice.now.ids.now scores.now best.old back.old lattice.now.n }
    requires n_in_bounds { lattice.now.n ≤ length out.old }
    ensures answers { Answers (lattice_of lattice.now.offsets.now lattice.now.starts.now lattice.now.ids.now scores.now) lattice.now.ids.now lattice.now.n out.old out.new result.best result.count }
    ensures behind { Behind lattice.now.n best.old best.new × Behind lattice.now.n back.old back.new }
{
    let count = path_core(lattice, scores, best, back, out);
    let top = best[lattice.n];
    Cutting {
        best: is_finite(top).then_some(top),
        count,
    }
}

// "the path comes back by value, 32 ids with their count"
#[derive(Clone, Copy, Debug, PartialEq)]
pub struct Short {
    pub best: Option<f64>,
    pub ids: [u32; 32],
    pub count: usize,
}

// The same for a word of at most 32 characters, with its ids by value. Unused ids are 0.
pub fn short_core(lattice: &Lattice, scores: &[f64], best: &mut [f64], back: &mut [u32]) -> Short
    requires asked { Asked lattice.now.offsets.now lattice.now.starts.now lattice.now.ids.now scores.now best.old back.old lattice.now.n }
    requires n_bound { lattice.now.n ≤ 32 }
    ensures answers { Answers (lattice_of lattice.now.offsets.now lattice.now.starts.now lattice.now.ids.now scores.now) lattice.now.ids.now lattice.now.n (replicate 32 0) result.ids result.best result.count }
    ensures behind { Behind lattice.now.n best.old best.new × Behind lattice.now.n back.old back.new }
{
    let mut path = [0u32; 32];
    let cutting = viterbi_core(lattice, scores, best, back, &mut path);
    Short {
        best: cutting.best,
        ids: path,
        count: cutting.count,
    }
}

// The best score without ever using a piece, "minus infinity when it finds nothing".
// A loop of its own beside that of `forward`, which has a slice for the edges too.
pub fn excluding_core(lattice: &Lattice, scores: &[f64], excluded: u32, best: &mut [f64]) -> f64
    requires well_formed { WellFormed lattice.now.offsets.now lattice.now.starts.now lattice.now.ids.now scores.now lattice.now.n }
    requires n_in_bounds { lattice.now.n < length best.old }
    ensures value { result ≡ greatest f64s (lattice_of lattice.now.offsets.now lattice.now.starts.now lattice.now.ids.now (without excluded scores.now)) lattice.now.n }
    ensures behind { Behind lattice.now.n best.old best.new }
{
    let piece = excluded as usize;
    best[0] = 0.0;
    for at in 0..lattice.n {
        reach(lattice, scores, piece, best, at + 1);
    }
    best[lattice.n]
}
