// Whether a lent lattice is well formed.
//
// Document 01: "A lattice is well formed when it has n+2 offsets, rising from 0 to the edge count; edges between offsets p
// and p+1 end at p; start < end; starts strictly rise at each end; each piece id has a score (for retain, a remap entry);
// starts and ids are equally many". Every call that takes a lattice asks this first, and so may index by what it holds. It
// is one pass over the word's offsets and edges.
#![tactic(auto)]

ghost use Rattle.std.specs.Prelude.{◌≡◌, ◌+◌, ◌≤◌, ◌<◌, length, get_or};
ghost use Rattle.std.proofs.Math.Seq.{slice};
ghost use Rattle.laws.specs.Tests.{Says};
ghost use Rattle.formed.specs.Formed.{Inside, EdgeFrom, EndFormed, Formed};

// Where one word's lattice stands in the slices of a cache: its edges from `from` up to, not with, `to`; its offsets from
// `at` on; and its number of characters.
#[derive(Clone, Copy, Debug, PartialEq, Eq)]
pub struct Span {
    pub from: usize,
    pub to: usize,
    pub at: usize,
    pub n: usize,
}

// The number at a place, as an index. For callers that have shown that the place is there. A function, so that the cast is
// proved once and its callers read one equation.
pub fn read(numbers: &[u32], k: usize) -> usize
    requires { k < length numbers.now }
    ensures { result ≡ get_or numbers.now k 0 }
{
    numbers[k] as usize
}

// One word's lattice: its n + 2 offsets, and the starts and piece ids of its edges.
#[derive(Clone, Copy, Debug)]
pub struct Lattice<'a> {
    pub offsets: &'a [u32],
    pub starts: &'a [u32],
    pub ids: &'a [u32],
    pub n: usize,
}

impl<'a> Lattice<'a> {
    // The lattice that stands at a span of a cache.
    pub fn at(offsets: &'a [u32], starts: &'a [u32], ids: &'a [u32], span: Span) -> Lattice<'a>
        requires { Inside starts.now ids.now offsets.now span }
        ensures offsets_are { result.offsets.now ≡ slice span.at (span.at + span.n + 2) offsets.now }
        ensures starts_are { result.starts.now ≡ slice span.from span.to starts.now }
        ensures ids_are { result.ids.now ≡ slice span.from span.to ids.now }
        ensures n_is { result.n ≡ span.n }
    {
        Lattice {
            offsets: &offsets[span.at..span.at + span.n + 2],
            starts: &starts[span.from..span.to],
            ids: &ids[span.from..span.to],
            n: span.n,
        }
    }
}

impl Lattice<'_> {
    // The first of the edges that end at a position.
    pub fn low(&self, end: usize) -> usize
        requires { end < length self.now.offsets.now }
        ensures { result ≡ get_or self.now.offsets.now end 0 }
    {
        read(self.offsets, end)
    }

    // One past the last of them.
    pub fn high(&self, end: usize) -> usize
        requires { end + 1 < length self.now.offsets.now }
        ensures { result ≡ get_or self.now.offsets.now (end + 1) 0 }
    {
        read(self.offsets, end + 1)
    }
}

// Edge k of the slices, which may start at `low` or after.
fn edge_formed(starts: &[u32], ids: &[u32], pieces: usize, low: usize, k: usize) -> bool
    requires { (k < length starts.now) × (length starts.now ≡ length ids.now) }
    ensures { Says result (EdgeFrom starts.now ids.now pieces low k) }
{
    read(starts, k) >= low && read(ids, k) < pieces
}

// The edges that end at `end`. The lowest start that an edge may have is one past the start before it. Since starts rise, all
// are below the end if the last one is.
fn end_formed(
    starts: &[u32],
    ids: &[u32],
    ends: &[u32],
    pieces: usize,
    span: Span,
    end: usize,
) -> bool
    requires { Inside starts.now ids.now ends.now span × (end ≤ span.n) }
    ensures { Says result (EndFormed starts.now ids.now ends.now pieces span end) }
{
    let low = read(ends, span.at + end);
    let high = read(ends, span.at + (end + 1));
    if low > high || high > span.to - span.from {
        return false;
    }
    let first = span.from + low;
    let past = span.from + high;
    let mut lowest = 0;
    for k in first..past {
        if !edge_formed(starts, ids, pieces, lowest, k) {
            return false;
        }
        lowest = read(starts, k) + 1;
    }
    lowest <= end
}

// Whether the span lies inside the slices.
fn inside(starts: &[u32], ids: &[u32], ends: &[u32], span: Span) -> bool
    ensures { Says result (Inside starts.now ids.now ends.now span) }
{
    starts.len() == ids.len()
        && span.from <= span.to
        && span.to <= starts.len()
        && span.at <= ends.len()
        && ends.len() - span.at >= 2
        && ends.len() - span.at - 2 >= span.n
}

// Whether the lattice at a span is well formed, where ids below `pieces` have a score or a remap entry.
pub fn formed(starts: &[u32], ids: &[u32], ends: &[u32], pieces: usize, span: Span) -> bool
    ensures { Says result (Formed starts.now ids.now ends.now pieces span) }
{
    if !inside(starts, ids, ends, span)
        || read(ends, span.at) != 0
        || read(ends, span.at + (span.n + 1)) != span.to - span.from
    {
        return false;
    }
    for end in 0..span.n + 1 {
        if !end_formed(starts, ids, ends, pieces, span, end) {
            return false;
        }
    }
    true
}
