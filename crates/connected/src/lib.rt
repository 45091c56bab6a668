// Whether a word's lattice has a cut: `is_connected` of lattice.rs.
//
// Document 01: "A cut is a chain of edges from position 0 to n; the empty word has one". Training skips a word with "no
// connection", so it asks this of every word before it sums over its cuts. The layout is lattice.rs's: edges stand by end, so
// one pass over the ends, rising, marks each position that some edge reaches from a marked one.
#![tactic(auto)]

ghost use Rattle.std.specs.Prelude.{◌≡◌, ◌<◌, length};
ghost use Rattle.laws.specs.Tests.{Says};
ghost use Rattle.connected.specs.Word.{Starting, Linked};
ghost use Rattle.connected.specs.Cut.{Connected};
ghost use Rattle.connected.specs.Marks.{Into};

use formed::{Lattice, read};

// Whether an edge from `low` up to, not with, `high` starts at a marked position.
fn reached(starts: &[u32], reach: &[u32], low: usize, high: usize) -> bool
    requires { Starting starts.now (length reach.now) low high }
    ensures { Says result (Into starts.now reach.now low high) }
{
    for k in low..high {
        if read(reach, read(starts, k)) == 1 {
            return true;
        }
    }
    false
}

// Whether the word has a cut. The first n + 1 numbers of `reach` are written over: a position's number is 1 where a chain of
// edges reaches it, and 0 where none does.
pub fn is_connected_core(lattice: &Lattice, reach: &mut [u32]) -> bool
    requires linked { Linked lattice.now.offsets.now lattice.now.starts.now lattice.now.n }
    requires n_in_bounds { lattice.now.n < length reach.old }
    ensures { Says result (Connected lattice.now.offsets.now lattice.now.starts.now lattice.now.n) }
{
    reach[0] = 1;
    // Counted from 0, as the invariant counts the positions that are marked.
    for q in 0..lattice.n {
        let end = q + 1;
        let low = lattice.low(end);
        let high = lattice.high(end);
        reach[end] = u32::from(reached(lattice.starts, &reach[..end], low, high));
    }
    read(reach, lattice.n) == 1
}
