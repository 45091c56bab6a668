// The lattices of words, laid out in a cache: `LatticeBuilder::build` and `LatticeCache::push` of lattice.rs, steps 4 and 5 of
// document 01's port order.
//
// "Edges by end, then start." The walks of `rows` stand in a grid, a row for each start. Each end reads the starts that reach
// it, rising, and puts an edge where a piece was found. That is the order at once. A word's offsets are the running count of
// its edges, n + 2 of them, and its span says where both stand. Words follow each other from slot 0.
//
// `count_words` counts what `build_words` will put, since nothing may be written where there is no room for all.
#![tactic(auto)]

ghost use Rattle.std.specs.Prelude.{◌≡◌, [], ◌∷◌, ◌-◌, ◌*◌, ◌<◌, ◌≤◌, length};
ghost use Rattle.std.proofs.lemmas.List.Edits.{sets};
ghost use Rattle.lattice.specs.Lattice.{edge};
ghost use Rattle.lattice.specs.Layout.{edge_count};
ghost use Rattle.rows.specs.Grid.{piece_of, cell, ending_in, lattice_in};
ghost use Rattle.builder.specs.Put.{Put, Slot, Grid, End, Whole, Ended};
ghost use Rattle.rows.specs.Word.{Room};
ghost use Rattle.builder.specs.Lay.{Part, Parted, Numbers, Word, Laid, Listed, Counts, Building, Builds};

use rows::{STRIDE, walk_word};
use spans::count;

// How many edges and how many offsets.
#[derive(Clone, Copy, Debug, PartialEq, Eq)]
pub struct Sizes {
    pub edges: usize,
    pub ends: usize,
}

// The lowest start from which a piece of the length setting reaches an end.
fn lowest(setting: usize, end: usize) -> usize
    ensures { result ≡ end - setting }
{
    end.saturating_sub(setting)
}

// The number of the grid for a start and an end.
fn cell(grid: &[u32], end: usize, start: usize) -> u32
    requires { (start < end) × (32 * end ≤ length grid.now) }
    ensures { result ≡ cell grid.now end start }
{
    grid[STRIDE * start + (end - start - 1)]
}

// Puts one edge, if a piece was found.
fn put(starts: &mut [u32], ids: &mut [u32], found: u32, start: usize, write: usize) -> usize
    requires { Slot starts.old ids.old found start write }
    ensures { Put starts.old ids.old write (edge start (piece_of found)) starts.new ids.new result }
{
    if found == 0 {
        return write;
    }
    starts[write] = start as u32;
    ids[write] = found - 1;
    write + 1
}

// Puts the edges of one end, starts rising.
fn put_end(
    starts: &mut [u32],
    ids: &mut [u32],
    grid: &[u32],
    setting: usize,
    end: usize,
    write: usize,
) -> usize
    requires { End starts.old ids.old grid.now setting end write }
    ensures { Put starts.old ids.old write (ending_in setting grid.now end) starts.new ids.new result }
{
    let mut at = write;
    for start in lowest(setting, end)..end {
        at = put(starts, ids, cell(grid, end, start), start, at);
    }
    at
}

// Puts all edges of a word of n characters, ends rising, and its offsets, which are the whole slice.
fn put_word(
    offsets: &mut [u32],
    starts: &mut [u32],
    ids: &mut [u32],
    grid: &[u32],
    setting: usize,
    n: usize,
    write: usize,
) -> usize
    requires { Whole offsets.old starts.old ids.old grid.now setting n write }
    ensures { Ended offsets.old starts.old ids.old grid.now setting n write offsets.new starts.new ids.new result }
{
    offsets[0] = 0;
    let mut at = write;
    for end in 0..=n {
        at = put_end(starts, ids, grid, setting, end, at);
        offsets[end + 1] = (at - write) as u32;
    }
    at
}

// How many edges one end has: one for each start with a piece.
fn count_end(grid: &[u32], setting: usize, end: usize) -> usize
    requires { Grid grid.now setting end }
    ensures { result ≡ length (ending_in setting grid.now end) }
{
    let mut count = 0;
    for start in lowest(setting, end)..end {
        count += usize::from(cell(grid, end, start) != 0);
    }
    count
}

// How many edges a word of n characters has.
pub fn count_word(grid: &[u32], setting: usize, n: usize) -> usize
    requires { Grid grid.now setting n }
    ensures { result ≡ edge_count (lattice_in setting grid.now n) }
{
    let mut count = 0;
    for end in 0..=n {
        count += count_end(grid, setting, end);
    }
    count
}

// The same, of a word whose offsets are the n + 2 from `at` on.
fn put_part(
    offsets: &mut [u32],
    starts: &mut [u32],
    ids: &mut [u32],
    grid: &[u32],
    setting: usize,
    n: usize,
    at: usize,
    write: usize,
) -> usize
    requires { Part offsets.old starts.old ids.old grid.now setting n at write }
    ensures { Parted offsets.old starts.old ids.old grid.now setting n at write offsets.new starts.new ids.new result }
{
    let stop = at + (n + 2);
    put_word(&mut offsets[at..stop], starts, ids, grid, setting, n, write)
}

// The four numbers of word k's span.
fn put_span(spans: &mut [u32], k: usize, from: usize, to: usize, at: usize, n: usize)
    requires { Numbers spans.old k from to at n }
    ensures { spans.new ≡ sets spans.old (4 * k) (from ∷ to ∷ at ∷ n ∷ []) }
{
    // Four writes: a copy of an array of four would be no plainer.
    let p = 4 * k;
    spans[p] = from as u32;
    spans[p + 1] = to as u32;
    spans[p + 2] = at as u32;
    spans[p + 3] = n as u32;
}

// Lays word k of n characters out behind those before it.
fn lay_word(
    offsets: &mut [u32],
    starts: &mut [u32],
    ids: &mut [u32],
    spans: &mut [u32],
    grid: &[u32],
    setting: usize,
    n: usize,
    k: usize,
    so: Sizes,
) -> Sizes
    requires { Word offsets.old starts.old ids.old spans.old grid.now setting n k so }
    ensures { Laid offsets.old starts.old ids.old spans.old grid.now setting n k so offsets.new starts.new ids.new spans.new result }
{
    let to = put_part(offsets, starts, ids, grid, setting, n, so.ends, so.edges);
    put_span(spans, k, so.edges, to, so.ends, n);
    Sizes {
        edges: to,
        ends: so.ends + (n + 2),
    }
}

// How many edges and offsets the words of a list have.
pub fn count_words(
    keys: &[u64],
    ends: &[u32],
    text: &[u8],
    words: &[u32],
    setting: usize,
    chars: &mut [u32],
    grid: &mut [u32],
) -> Sizes
    requires { Room keys.now ends.now setting chars.old grid.old × Listed text.now words.now }
    ensures { Counts keys.now ends.now text.now words.now setting result }
{
    let many = count(words);
    let mut so = Sizes { edges: 0, ends: 0 };
    for k in 0..many {
        let n = walk_word(keys, ends, text, words, k, setting, chars, grid);
        so.edges += count_word(grid, setting, n);
        so.ends += n + 2;
    }
    so
}

// Lays the lattices of all words of a list out, one behind the other from slot 0. What stands behind stays as it was.
pub fn build_words(
    keys: &[u64],
    ends: &[u32],
    text: &[u8],
    words: &[u32],
    setting: usize,
    chars: &mut [u32],
    grid: &mut [u32],
    offsets: &mut [u32],
    starts: &mut [u32],
    ids: &mut [u32],
    spans: &mut [u32],
) -> Sizes
    requires room { Room keys.now ends.now setting chars.old grid.old }
    requires building { Building keys.now ends.now text.now words.now setting offsets.old starts.old ids.old spans.old }
    ensures { Builds keys.now ends.now text.now words.now setting offsets.old starts.old ids.old spans.old offsets.new starts.new ids.new spans.new result }
{
    let many = count(words);
    let mut so = Sizes { edges: 0, ends: 0 };
    for k in 0..many {
        let n = walk_word(keys, ends, text, words, k, setting, chars, grid);
        so = lay_word(offsets, starts, ids, spans, grid, setting, n, k, so);
    }
    so
}
