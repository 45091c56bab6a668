// Whether a lent cache is well formed.
//
// A cache is the lattices of many words in the same slices: `starts` and `ids` of edges, `ends` for offsets, and `spans`, four
// numbers a word as 000's `Span` has them. Document 01: each word's lattice is well formed, "and a cache's words follow each
// other from slot 0". The answer for a cache that is not is the index of the first word that breaks this, which is the place
// of BadLattice.
#![tactic(auto)]

ghost use Rattle.std.specs.Prelude.{◌≡◌, ◌≤◌, ◌+◌, ◌*◌, ◌<◌, length};
ghost use Rattle.laws.specs.Tests.{Says};
ghost use Rattle.cached.specs.Cached.{span_at, edges_before, offsets_before, Present, WordFormed, Answers};

use formed::{Span, formed, read};

// The span of a word: its four numbers. For callers that have shown that it has one.
pub fn span_at(spans: &[u32], word: usize) -> Span
    requires { Present spans.now word }
    ensures { result ≡ span_at spans.now word }
{
    let k = 4 * word;
    Span {
        from: read(spans, k),
        to: read(spans, k + 1),
        at: read(spans, k + 2),
        n: read(spans, k + 3),
    }
}

// Where the edges of the words before end.
fn edges_before(spans: &[u32], word: usize) -> usize
    requires { 4 * word ≤ length spans.now }
    ensures { result ≡ edges_before spans.now word }
{
    if word == 0 {
        0
    } else {
        span_at(spans, word - 1).to
    }
}

// Where the offsets of the words before end: each has n + 2. For callers that have shown that those have spans.
pub fn offsets_before(spans: &[u32], word: usize) -> usize
    requires { 4 * word ≤ length spans.now }
    ensures { result ≡ offsets_before spans.now word }
{
    if word == 0 {
        return 0;
    }
    let before = span_at(spans, word - 1);
    before.at + before.n + 2
}

// Whether a word stands where the words before end, and its lattice is well formed.
fn word_formed(
    starts: &[u32],
    ids: &[u32],
    ends: &[u32],
    spans: &[u32],
    pieces: usize,
    word: usize,
) -> bool
    ensures { Says result (WordFormed starts.now ids.now ends.now spans.now pieces word) }
{
    if spans.len() / 4 <= word {
        return false;
    }
    let span = span_at(spans, word);
    span.from == edges_before(spans, word)
        && span.at == offsets_before(spans, word)
        && formed(starts, ids, ends, pieces, span)
}

// Whether a cache of so many words is well formed, where ids below `pieces` have a score or a remap entry; else the first
// word that is not as it should be.
pub fn cached(
    starts: &[u32],
    ids: &[u32],
    ends: &[u32],
    spans: &[u32],
    words: usize,
    pieces: usize,
) -> Result<(), usize>
    ensures { Answers starts.now ids.now ends.now spans.now pieces words result }
{
    for word in 0..words {
        if !word_formed(starts, ids, ends, spans, pieces, word) {
            return Err(word);
        }
    }
    Ok(())
}
