// One word's lattice, seen among the slices of a cache: `LatticeView` of lattice.rs.
//
// Document 01: "`LatticeView` keeps its borrowed slices, over thin functions": "a struct over offsets, starts and piece ids; first
// a covered form with plain slices, then this view by hand". The covered form is `Located`, which says where the word's edges
// stand in `starts` and `ids` and where its n + 2 offsets stand in `offsets`, each from the first up to, not with, the last. The
// view borrows those parts. "`view` of an absent index, or of a span outside its slices, is BadLattice at it, with n 0 and empty
// slices".
#![tactic(auto)]

ghost use Rattle.std.specs.Prelude.{◌≡◌, ◌<◌, length};
ghost use Rattle.cut.specs.Cut.{Answers, Excludes, zeros, zero_floats};
ghost use Rattle.cut.specs.Sums.{Connects, Expects};
ghost use Rattle.view.specs.Located.{inside, absent, located};
ghost use Rattle.view.specs.View.{shown, viewed, lent_of};

use cached::span_at;
use cut::Cut;
use formed::Span;
use refusal::Refusal;

// Where a word's edges and offsets stand, and how many characters it has. `seen` says that the lattice is there, or why not.
#[derive(Clone, Copy, Debug, PartialEq, Eq)]
pub struct Located {
    pub seen: Result<(), Refusal>,
    pub from: usize,
    pub to: usize,
    pub at: usize,
    pub past: usize,
    pub n: usize,
}

// Whether a span is inside the slices.
fn inside(starts: &[u32], ids: &[u32], offsets: &[u32], span: Span) -> bool
    requires { (span.at < 4294967296) × (span.n < 4294967296) }
    ensures { result ≡ inside starts.now ids.now offsets.now span.from span.to span.at span.n }
{
    span.from <= span.to
        && span.to <= starts.len()
        && span.to <= ids.len()
        && span.at + span.n + 2 <= offsets.len()
}

// No lattice: n 0 and nothing of the slices.
fn absent(index: usize) -> Located
    ensures { result ≡ absent index }
{
    Located {
        seen: Err(Refusal::BadLattice(index as u64)),
        from: 0,
        to: 0,
        at: 0,
        past: 0,
        n: 0,
    }
}

// Where the lattice of one word of a cache stands.
#[tactic(auto, unfolding(crate::specs::Located::located))]
pub fn locate(starts: &[u32], ids: &[u32], offsets: &[u32], spans: &[u32], index: usize) -> Located
    ensures { result ≡ located starts.now ids.now offsets.now spans.now index }
{
    if spans.len() / 4 <= index {
        return absent(index);
    }
    let span = span_at(spans, index);
    if !inside(starts, ids, offsets, span) {
        return absent(index);
    }
    Located {
        seen: Ok(()),
        from: span.from,
        to: span.to,
        at: span.at,
        past: span.at + span.n + 2,
        n: span.n,
    }
}

// One word's lattice, borrowed: its n + 2 offsets, and where each of its edges starts and which piece it is.
#[derive(Clone, Copy, Debug, PartialEq, Eq)]
pub struct LatticeView<'a> {
    pub offsets: &'a [u32],
    pub starts: &'a [u32],
    pub ids: &'a [u32],
    pub n: usize,
    pub seen: Result<(), Refusal>,
}

// The lattice of one word of a cache.
#[tactic(auto, using(crate::proofs::Seeing::within_at))]
pub fn view<'a>(
    starts: &'a [u32],
    ids: &'a [u32],
    offsets: &'a [u32],
    spans: &[u32],
    index: usize,
) -> LatticeView<'a>
    ensures { shown result ≡ viewed starts.now ids.now offsets.now spans.now index }
{
    let word = locate(starts, ids, offsets, spans, index);
    LatticeView {
        offsets: &offsets[word.at..word.past],
        starts: &starts[word.from..word.to],
        ids: &ids[word.from..word.to],
        n: word.n,
        seen: word.seen,
    }
}

// Thin functions: each takes the view apart, and calls what works on plain slices.
impl<'a> LatticeView<'a> {
    // Whether some chain of edges leads from the first position of the word to its last.
    pub fn is_connected(self, reach: &mut [u32]) -> Result<bool, Refusal>
        ensures connects { Connects self.entry.offsets.now self.entry.starts.now self.entry.ids.now self.entry.n reach.old result }
        ensures reach_after { reach.new ≡ zeros (length reach.old) }
    {
        cut::is_connected(self.offsets, self.starts, self.ids, self.n, reach)
    }

    // The best cut of the word: the ids of its pieces in front of the path.
    pub fn viterbi(
        self,
        scores: &[f64],
        best: &mut [f64],
        back: &mut [u32],
        path: &mut [u32],
    ) -> Result<Cut, Refusal>
        ensures answers { Answers (lent_of (shown self.entry) scores.now) best.old back.old path.old path.new result }
        ensures best_after { (best.new ≡ zero_floats (length best.old)) × (back.new ≡ zeros (length back.old)) }
    {
        cut::viterbi(
            self.offsets,
            self.starts,
            self.ids,
            self.n,
            scores,
            best,
            back,
            path,
        )
    }

    // The best score of the word without ever using a piece.
    pub fn viterbi_excluding(
        self,
        scores: &[f64],
        excluded: u32,
        best: &mut [f64],
    ) -> Result<f64, Refusal>
        ensures excludes { Excludes (lent_of (shown self.entry) scores.now) excluded best.old result }
        ensures best_after { best.new ≡ zero_floats (length best.old) }
    {
        cut::viterbi_excluding(
            self.offsets,
            self.starts,
            self.ids,
            self.n,
            scores,
            excluded,
            best,
        )
    }

    // The expected count of every edge of the word over all of its cuts, an entry an edge, and the logarithm of the sum of all
    // cuts.
    pub fn expectations(
        self,
        scores: &[f64],
        alpha: &mut [f64],
        beta: &mut [f64],
        emitted: &mut [f64],
    ) -> Result<f64, Refusal>
        ensures expects { Expects (lent_of (shown self.entry) scores.now) alpha.old beta.old emitted.old emitted.new result }
        ensures alpha_after { (alpha.new ≡ zero_floats (length alpha.old)) × (beta.new ≡ zero_floats (length beta.old)) }
    {
        cut::expectations(
            self.offsets,
            self.starts,
            self.ids,
            self.n,
            scores,
            alpha,
            beta,
            emitted,
        )
    }
}

// The best cut of one word of a cache. Its parameters are plain slices, for those who lend a cache and make no view. A word that is not
// seen has no offsets, so its cut is BadLattice at place 0, as of any one word's lattice; `view` tells the index.
pub fn viterbi_at<'a>(
    starts: &'a [u32],
    ids: &'a [u32],
    offsets: &'a [u32],
    spans: &[u32],
    index: usize,
    scores: &[f64],
    best: &mut [f64],
    back: &mut [u32],
    path: &mut [u32],
) -> Result<Cut, Refusal>
    ensures answers { Answers (lent_of (viewed starts.now ids.now offsets.now spans.now index) scores.now) best.old back.old path.old path.new result }
    ensures best_after { (best.new ≡ zero_floats (length best.old)) × (back.new ≡ zeros (length back.old)) }
{
    view(starts, ids, offsets, spans, index).viterbi(scores, best, back, path)
}
