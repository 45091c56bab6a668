// How often each piece is used: the first half of `losses` of 001, document 01's port order 10.
//
// Every word gives its frequency to each piece on its best cut, words in order and pieces in order. 001 skips words with no
// characters or no connection before it asks for the best cut. Those have no piece on it, or no cut at all, so they add nothing
// here either: proofs/Theorems.antt says so, and a pass over the edges is saved. The work slices of a best cut are arrays,
// made once: a word has at most 255 characters.
#![tactic(auto)]

ghost use Rattle.std.specs.Prelude.{◌≡◌, List, length, slice_index};
ghost use Rattle.lattice.specs.Lattice.{Edge};
ghost use Rattle.cached.specs.Cached.{span_at};
ghost use Rattle.cached.specs.Held.{Held};
ghost use Rattle.uses.specs.Uses.{add_each, add_word, uses_of};
ghost use Rattle.uses.specs.Steps.{Named, Cuttable, WordAt, Given, add_span};

use cached::span_at;
use formed::Lattice;
use viterbi::path_core;

// The work slices of a word's best cut.
#[derive(Drop)]
struct Work {
    best: [f64; 256],
    back: [u32; 256],
    path: [u32; 256],
}

// One more use, so many times, of each piece on a path.
fn add_path(path: &[u32], uses: &mut [f64], weight: f64)
    requires { Named (length uses.old) path.now }
    ensures { uses.new ≡ add_each weight uses.old path.now }
{
    for id in path {
        uses[*id as usize] += weight;
    }
}

// What a word adds, by its lattice. No path has no ids.
fn add_lattice(lattice: &Lattice, scores: &[f64], uses: &mut [f64], work: &mut Work, frequency: u64)
    requires cuttable { Cuttable lattice.now.offsets.now lattice.now.starts.now lattice.now.ids.now scores.now lattice.now.n }
    requires as_many { length uses.old ≡ length scores.now }
    ensures { uses.new ≡ add_word lattice.now.offsets.now lattice.now.starts.now lattice.now.ids.now lattice.now.n scores.now frequency uses.old }
{
    let count = path_core(
        lattice,
        scores,
        &mut work.best,
        &mut work.back,
        &mut work.path,
    );
    let weight = std::num::nearest_u64_to_f64(frequency);
    add_path(&work.path[..count], uses, weight);
}

// What a cache holds of its words, and the scores of pieces. The same as in `em`; what is added up is each crate's own.
#[derive(Clone, Copy)]
struct Lent<'a> {
    offsets: &'a [u32],
    starts: &'a [u32],
    ids: &'a [u32],
    spans: &'a [u32],
    frequencies: &'a [u64],
    scores: &'a [f64],
}

impl Lent<'_> {
    // What a word of the cache adds: its lattice is that at its span.
    fn add_word(&self, uses: &mut [f64], work: &mut Work, word: usize)
        requires word_at { WordAt self.now.offsets.now self.now.starts.now self.now.ids.now self.now.spans.now self.now.frequencies.now self.now.scores.now word }
        requires as_many { length uses.old ≡ length self.now.scores.now }
        ensures { uses.new ≡ add_span self.now.offsets.now self.now.starts.now self.now.ids.now (span_at self.now.spans.now word) self.now.scores.now (slice_index self.now.frequencies.now word) uses.old }
    {
        let span = span_at(self.spans, word);
        let lattice = Lattice::at(self.offsets, self.starts, self.ids, span);
        add_lattice(&lattice, self.scores, uses, work, self.frequencies[word]);
    }

    // All words in order, from zeros.
    fn add_words(&self, words: usize, uses: &mut [f64], work: &mut Work)
        requires given { Given self.now.offsets.now self.now.starts.now self.now.ids.now self.now.spans.now self.now.frequencies.now words self.now.scores.now }
        requires as_many { length uses.old ≡ length self.now.scores.now }
        ensures { (lattices : List (List (List Edge))) → Held self.now.starts.now self.now.ids.now self.now.offsets.now self.now.spans.now (length self.now.scores.now) words lattices → uses.new ≡ uses_of lattices self.now.frequencies.now self.now.scores.now }
    {
        uses.fill(0.0);
        for word in 0..words {
            self.add_word(uses, work, word);
        }
    }
}

// How often each piece is used over the words of a cache. For whatever lattices the slices hold, `uses` is that of those
// lattices. It has as many slots as there are scores. The scores may be any: EM's are not known to be at zero or below.
pub fn uses(
    offsets: &[u32],
    starts: &[u32],
    ids: &[u32],
    spans: &[u32],
    words: usize,
    frequencies: &[u64],
    scores: &[f64],
    uses: &mut [f64],
)
    requires { Given offsets.now starts.now ids.now spans.now frequencies.now words scores.now × (length uses.old ≡ length scores.now) }
    ensures { (lattices : List (List (List Edge))) → Held starts.now ids.now offsets.now spans.now (length scores.now) words lattices → uses.new ≡ uses_of lattices frequencies.now scores.now }
{
    let mut work = Work {
        best: [0.0; 256],
        back: [0; 256],
        path: [0; 256],
    };
    let lent = Lent {
        offsets,
        starts,
        ids,
        spans,
        frequencies,
        scores,
    };
    lent.add_words(words, uses, &mut work);
}
