// One pruning: the trie of the pieces, their uses, their losses, who survives, and all that is kept in step with the survivors.
// 001's loop body behind EM, document 01's port order 10.
//
// 001 builds the trie after a pruning, for the next. Here it is built before the losses that need it, so that a round begins
// with nothing but pieces, scores and lattices. All slices but the trie's are cut to what they hold.
#![tactic(auto)]

ghost use Rattle.std.specs.Prelude.{List, ℕ, length};
ghost use Rattle.shrink.specs.Steps.{Weighing, Weighed, Narrowing, Narrowed, Shrinking, Shrinks};
ghost use Rattle.shrink.specs.Lent.{slices_of, SameState, SameWork, ClearedState, ClearedWork};

use losses::losses;
use prune::{compact_pieces, compact_scores, survivors};
use retain::retain_core;
use uses::uses;

// The pieces with their scores, and the lattices of all words over them, each in front of its slice: what rounds hand on.
#[derive(Drop)]
pub struct State<'a> {
    pub pieces: &'a mut [u32],
    pub scores: &'a mut [f64],
    pub offsets: &'a mut [u32],
    pub starts: &'a mut [u32],
    pub ids: &'a mut [u32],
    pub spans: &'a mut [u32],
}

// Slices to work in: four with a slot for each piece, and the trie's two.
#[derive(Drop)]
pub struct Work<'a> {
    pub expected: &'a mut [f64],
    pub bits: &'a mut [u64],
    pub ranked: &'a mut [u32],
    pub remap: &'a mut [u32],
    pub keys: &'a mut [u64],
    pub ends: &'a mut [u32],
}

impl State<'_> {
    // Zeros in all slices.
    pub fn clear(&mut self)
        ensures { ClearedState self.old self.new }
    {
        self.pieces.fill(0);
        self.scores.fill(0.0);
        self.offsets.fill(0);
        self.starts.fill(0);
        self.ids.fill(0);
        self.spans.fill(0);
    }
}

impl Work<'_> {
    // Zeros in all slices.
    pub fn clear(&mut self)
        ensures { ClearedWork self.old self.new }
    {
        self.expected.fill(0.0);
        self.bits.fill(0);
        self.ranked.fill(0);
        self.remap.fill(0);
        self.keys.fill(0);
        self.ends.fill(0);
    }
}

// How many pieces survive, and how many edges.
#[derive(Clone, Copy, Debug, PartialEq, Eq)]
pub struct Shrunk {
    pub pieces: usize,
    pub edges: usize,
}

// The bits of each piece's loss.
fn weigh(
    setting: usize,
    text: &[u8],
    words: usize,
    frequencies: &[u64],
    pieces: &[u32],
    scores: &[f64],
    used: &mut [f64],
    bits: &mut [u64],
    offsets: &[u32],
    starts: &[u32],
    ids: &[u32],
    spans: &[u32],
    keys: &mut [u64],
    ends: &mut [u32],
)
    requires { Weighing setting text.now words frequencies.now (record { pieces = pieces.now; scores = scores.now; offsets = offsets.now; starts = starts.now; ids = ids.now; spans = spans.now }) (length used.old) (length bits.old) (length keys.old) (length ends.old) }
    ensures { Weighed setting text.now words frequencies.now (record { pieces = pieces.now; scores = scores.now; offsets = offsets.now; starts = starts.now; ids = ids.now; spans = spans.now }) bits.new }
{
    let places = keys.len().min(ends.len()).min(4294967295);
    fresh::index_front(keys, ends, places, text, pieces);
    uses(
        offsets,
        starts,
        ids,
        spans,
        words,
        frequencies,
        scores,
        used,
    );
    losses(
        text,
        pieces,
        setting,
        &keys[..places],
        &ends[..places],
        scores,
        used,
        bits,
    );
}

// The survivors, by the bits of losses: their pieces and scores close up, and the lattices lose the edges of the others.
fn narrow(
    required: usize,
    keep: usize,
    words: usize,
    pieces: &mut [u32],
    scores: &mut [f64],
    bits: &mut [u64],
    ranked: &mut [u32],
    remap: &mut [u32],
    offsets: &mut [u32],
    starts: &mut [u32],
    ids: &mut [u32],
    spans: &mut [u32],
) -> Shrunk
    requires { (text : List ℕ) × Narrowing text words required (record { pieces = pieces.now; scores = scores.old; offsets = offsets.old; starts = starts.old; ids = ids.old; spans = spans.old }) bits.old (length ranked.old) (length remap.old) }
    ensures { (text : List ℕ) → Narrowed text words required keep (record { pieces = pieces.old; scores = scores.old; offsets = offsets.old; starts = starts.old; ids = ids.old; spans = spans.old }) bits.old (record { pieces = pieces.new; scores = scores.new; offsets = offsets.new; starts = starts.new; ids = ids.new; spans = spans.new }) result }
{
    let left = survivors(bits, required, keep, ranked, remap);
    compact_pieces(pieces, remap);
    compact_scores(scores, remap);
    let edges = retain_core(offsets, starts, ids, spans, words, remap);
    Shrunk {
        pieces: left,
        edges,
    }
}

// Prunes `count` pieces to `keep`.
pub fn shrink(
    setting: usize,
    text: &[u8],
    words: usize,
    frequencies: &[u64],
    required: usize,
    keep: usize,
    count: usize,
    edges: usize,
    state: &mut State,
    work: &mut Work,
) -> Shrunk
    requires { Shrinking setting text.now words frequencies.now required count edges (slices_of state.old) (length work.old.expected.now) (length work.old.bits.now) (length work.old.ranked.now) (length work.old.remap.now) (length work.old.keys.now) (length work.old.ends.now) }
    ensures shrinks { Shrinks setting text.now words frequencies.now required keep count edges (slices_of state.old) (slices_of state.new) result }
    ensures same_state { SameState state.old state.new }
    ensures same_work { SameWork work.old work.new }
{
    // Each slice by a name of its own: of what a field lends in place, no more than the length would be known afterwards.
    let pieces = &mut *state.pieces;
    let scores = &mut *state.scores;
    let offsets = &mut *state.offsets;
    let starts = &mut *state.starts;
    let ids = &mut *state.ids;
    let spans = &mut *state.spans;
    let expected = &mut *work.expected;
    let bits = &mut *work.bits;
    let ranked = &mut *work.ranked;
    let remap = &mut *work.remap;
    let keys = &mut *work.keys;
    let ends = &mut *work.ends;
    let numbers = 2 * count;
    weigh(
        setting,
        text,
        words,
        frequencies,
        &pieces[..numbers],
        &scores[..count],
        &mut expected[..count],
        &mut bits[..count],
        offsets,
        &starts[..edges],
        &ids[..edges],
        spans,
        keys,
        ends,
    );
    narrow(
        required,
        keep,
        words,
        &mut pieces[..numbers],
        &mut scores[..count],
        &mut bits[..count],
        &mut ranked[..count],
        &mut remap[..count],
        offsets,
        &mut starts[..edges],
        &mut ids[..edges],
        spans,
    )
}
