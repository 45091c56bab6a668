// Which edges of a cache outlive a pruning, and where they stand afterwards.
//
// This crate is `retain` of document 01's port order 5, `LatticeCache::retain` of lattice.rs: every lattice loses the edges
// whose piece is gone, the others keep their order and get their new ids, and the words close up from slot 0. The slip that
// looks right, rewriting an offset before it has been read, is ruled out by the contract. `check_remap` is refusal 13,
// `retain_core` does the work for a cache and a remap that were checked, and `clear` leaves zeros in the edges' slots past
// the last one used. What is left is the flat cache of the pruned lattices, and so of the lattices built afresh from the
// survivors, after any number of prunings: proofs/Theorems.antt.
//
// The cache is the Rust's, with its edges in two slices: `starts` and `ids`, `offsets` with n + 2 entries a word, and
// `spans` with the four numbers of the Rust's `Span` a word. That is one slice of spans and not four, because each lent
// slice is paid for at every call. All is done in place in one pass: an edge moves down or stays where it is, so what is
// written over has been read. The bodies of the loops are functions of their own, from one edge to one span.
#![tactic(auto)]

ghost use Rattle.std.specs.Prelude.{◌≡◌, List, map, ◌++◌, ◌+◌, ◌-◌, ◌≤◌, ◌<◌, length, get_or, set, take, drop};
ghost use Rattle.lattice.specs.Lattice.{Edge};
ghost use Rattle.lattice.specs.Pruning.{retained};
ghost use Rattle.retain.specs.Moves.{stay, kept_to, rank, Spot, Run, Moved, End, Word, Span, Shifted};
ghost use Rattle.retain.specs.Remaps.{checked};
ghost use Rattle.retain.specs.Cleared.{cleared};
ghost use Rattle.lattice.specs.Written.{Written};
ghost use Rattle.retain.specs.Retain.{Cached, Laid};

use refusal::Refusal;
use std::hint::select_unpredictable;

// `u32::MAX`: the piece is gone.
const GONE: u32 = 0xffff_ffff;

// Checks a remap: refused with 13 at the lowest entry that is neither `u32::MAX` nor the count of survivors before it.
pub fn check_remap(remap: &[u32]) -> Result<(), Refusal>
    ensures { result ≡ checked remap.now }
{
    let mut survivors = 0;
    for (entry, id) in remap.iter().enumerate() {
        if *id != GONE {
            if *id as usize != survivors {
                return Err(Refusal::BadRemap(entry as u64));
            }
            survivors += 1;
        }
    }
    Ok(())
}

// Moves edge `edge` down to `write`, with its new id, if its piece is not gone. Answers the next free place. Which pieces are
// gone cannot be foreseen, so there is no branch: where one is, what stands at `write` is written there again. With a quarter
// of the pieces gone, `cache::retain` takes 0.6 of the time that it takes with a branch.
fn keep_edge(starts: &mut [u32], ids: &mut [u32], remap: &[u32], write: usize, edge: usize) -> usize
    requires { Spot starts.old ids.old remap.now write edge }
    ensures { Moved starts.old ids.old remap.now write (stay remap.now ids.old edge) starts.new ids.new result }
{
    let old = ids[edge] as usize;
    let id = remap[old];
    let gone = id == GONE;
    let source = select_unpredictable(gone, write, edge);
    starts[write] = starts[source];
    let there = ids[write] as usize;
    let kept = select_unpredictable(gone, there, id as usize);
    ids[write] = kept as u32;
    select_unpredictable(gone, write, write + 1)
}

// Moves down the edges from `from` up to `to` whose pieces are not gone. Answers the next free place.
fn keep_edges(
    starts: &mut [u32],
    ids: &mut [u32],
    remap: &[u32],
    write: usize,
    from: usize,
    to: usize,
) -> usize
    requires { Run starts.old ids.old remap.now write from to }
    ensures { Moved starts.old ids.old remap.now write (kept_to remap.now ids.old from to) starts.new ids.new result }
{
    let mut at = write;
    for edge in from..to {
        at = keep_edge(starts, ids, remap, at, edge);
    }
    at
}

// The edges that end at a position, of a word whose edges began at `base` and begin at `home` now. This position's offset is
// rewritten only after it has been read; the next one's is still needed, and is rewritten on its own turn.
fn keep_end(
    offsets: &mut [u32],
    starts: &mut [u32],
    ids: &mut [u32],
    remap: &[u32],
    base: usize,
    home: usize,
    write: usize,
    position: usize,
) -> usize
    requires { End offsets.old starts.old ids.old remap.now base home write position }
    ensures moved { Moved starts.old ids.old remap.now write (kept_to remap.now ids.old (base + get_or offsets.old position 0) (base + get_or offsets.old (position + 1) 0)) starts.new ids.new result }
    ensures offsets_after { offsets.new ≡ set offsets.old position (write - home) }
{
    let from = offsets[position] as usize;
    let next = position + 1;
    let to = offsets[next] as usize;
    let kept = (write - home) as u32;
    offsets[position] = kept;
    keep_edges(starts, ids, remap, write, base + from, base + to)
}

// All the edges of a word of n characters, whose offsets are the whole slice.
fn keep_word(
    offsets: &mut [u32],
    starts: &mut [u32],
    ids: &mut [u32],
    remap: &[u32],
    base: usize,
    home: usize,
    n: usize,
) -> usize
    requires { Word offsets.old starts.old ids.old remap.now base home n }
    ensures moved { Moved starts.old ids.old remap.now home (kept_to remap.now ids.old base (base + get_or offsets.old (n + 1) 0)) starts.new ids.new result }
    ensures offsets_after { offsets.new ≡ map (rank remap.now ids.old base) offsets.old }
{
    let mut write = home;
    for position in 0..n + 1 {
        write = keep_end(offsets, starts, ids, remap, base, home, write, position);
    }
    offsets[n + 1] = (write - home) as u32;
    write
}

// The same, of a word whose offsets are the n + 2 from `ends` on.
fn keep_part(
    offsets: &mut [u32],
    starts: &mut [u32],
    ids: &mut [u32],
    remap: &[u32],
    ends: usize,
    base: usize,
    home: usize,
    n: usize,
) -> usize
    requires n_in_bounds { ends + (n + 2) ≤ length offsets.old }
    requires word { Word (take (n + 2) (drop ends offsets.old)) starts.old ids.old remap.now base home n }
    ensures moved { Moved starts.old ids.old remap.now home (kept_to remap.now ids.old base (base + get_or offsets.old (ends + (n + 1)) 0)) starts.new ids.new result }
    ensures offsets_after { offsets.new ≡ take ends offsets.old ++ (map (rank remap.now ids.old base) (take (n + 2) (drop ends offsets.old)) ++ drop (ends + (n + 2)) offsets.old) }
{
    let stop = ends + (n + 2);
    keep_word(&mut offsets[ends..stop], starts, ids, remap, base, home, n)
}

// The word whose span is the four numbers from `at` on: its edges move to `write`, and its span follows them.
fn keep_span(
    offsets: &mut [u32],
    starts: &mut [u32],
    ids: &mut [u32],
    spans: &mut [u32],
    remap: &[u32],
    write: usize,
    at: usize,
) -> usize
    requires { Span offsets.old starts.old ids.old spans.old remap.now write at }
    ensures { Shifted offsets.old starts.old ids.old spans.old remap.now write at offsets.new starts.new ids.new spans.new result }
{
    let base = spans[at] as usize;
    let ends = spans[at + 2] as usize;
    let n = spans[at + 3] as usize;
    spans[at] = write as u32;
    let next = keep_part(offsets, starts, ids, remap, ends, base, write, n);
    spans[at + 1] = next as u32;
    next
}

// Drops the edges of pieces that are gone from a cache of so many words, and renumbers the others. Answers how many edges
// are left. For whatever lattices the slices held, they now hold the pruned ones; what stands behind stays as it was.
pub fn retain_core(
    offsets: &mut [u32],
    starts: &mut [u32],
    ids: &mut [u32],
    spans: &mut [u32],
    words: usize,
    remap: &[u32],
) -> usize
    requires { Cached words remap.now offsets.old starts.old ids.old spans.old }
    ensures { (lattices : List (List (List Edge))) → Laid words remap.now offsets.old starts.old ids.old spans.old lattices → Written (retained remap.now lattices) offsets.old starts.old ids.old spans.old offsets.new starts.new ids.new spans.new result }
{
    let mut write = 0;
    for word in 0..words {
        write = keep_span(offsets, starts, ids, spans, remap, write, 4 * word);
    }
    write
}

// Zeros from a slot on to the end.
pub fn clear_from(slots: &mut [u32], from: usize)
    requires { from ≤ length slots.old }
    ensures { slots.new ≡ cleared from slots.old }
{
    slots[from..].fill(0);
}

// Zeros in the edges' slots past the last one used, of which there are `count`.
pub fn clear(starts: &mut [u32], ids: &mut [u32], count: usize)
    requires { (count ≤ length starts.old) × (count ≤ length ids.old) }
    ensures { (starts.new ≡ cleared count starts.old) × (ids.new ≡ cleared count ids.old) }
{
    clear_from(starts, count);
    clear_from(ids, count);
}
