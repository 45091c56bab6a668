// What removing each piece would cost: the second half of `losses` of 001, document 01's port order 10.
//
// "Loss is uses times the larger of 0 and score less alternative, +0 for either zero; plus infinity if there is no finite
// alternative; 0 unused." The alternative is the best score of the piece's own text spelt without it, over the lattice that the
// current trie gives. That lattice is built in local arrays, made once: a piece has at most 255 bytes, as a word has.
//
// Losses are given by their bits, which order as the losses do: proofs/Theorems.antt.
#![tactic(auto)]

ghost use Rattle.std.specs.Prelude.{◌≡◌, ◌<◌, length, get_or};
ghost use Rattle.std.specs.Float.{nan};
ghost use Rattle.spans.specs.Spans.{many, chars_at, listed};
ghost use Rattle.losses.specs.Losses as Losses;
ghost use Rattle.losses.specs.Steps.{Lent, Given};

use builder::build_words;
use formed::{Lattice, read};
use viterbi::excluding_core;

// What each use of a piece would cost: nothing where the alternative is as good.
fn penalty(score: f64, other: f64) -> f64
    ensures { result ≡ Losses.penalty score other }
{
    if !other.is_finite() {
        return f64::INFINITY;
    }
    let more = score - other;
    // "+0 for either zero": of two zeros, `max` promises neither.
    if more > 0.0 { more } else { 0.0 }
}

// Slots for the lattice of one piece's text, which has at most 255 bytes and 32 edges a character, and for the sums over it.
#[derive(Drop)]
struct Work {
    chars: [u32; 255],
    grid: [u32; 8160],
    offsets: [u32; 257],
    starts: [u32; 8160],
    ids: [u32; 8160],
    place: [u32; 4],
    best: [f64; 256],
}

// Pieces inside their text, each with a score, and the trie of them.
#[derive(Clone, Copy)]
struct Scored<'a> {
    text: &'a [u8],
    pieces: &'a [u32],
    setting: usize,
    keys: &'a [u64],
    ends: &'a [u32],
    scores: &'a [f64],
}

impl Scored<'_> {
    // The best score of a piece's text without the piece.
    fn alternative(&self, work: &mut Work, id: usize) -> f64
        requires { Lent self.now.text.now self.now.pieces.now self.now.setting self.now.keys.now self.now.ends.now self.now.scores.now × (id < many self.now.pieces.now) }
        ensures { result ≡ Losses.alternative self.now.setting (listed self.now.text.now self.now.pieces.now) (chars_at self.now.text.now self.now.pieces.now id) self.now.scores.now id }
    {
        let from = 2 * id;
        let past = from + 2;
        let so = build_words(
            self.keys,
            self.ends,
            self.text,
            &self.pieces[from..past],
            self.setting,
            &mut work.chars,
            &mut work.grid,
            &mut work.offsets,
            &mut work.starts,
            &mut work.ids,
            &mut work.place,
        );
        let edges = so.edges;
        let n = read(&work.place, 3);
        let stop = n + 2;
        let piece = id as u32;
        let lattice = Lattice {
            offsets: &work.offsets[..stop],
            starts: &work.starts[..edges],
            ids: &work.ids[..edges],
            n,
        };
        excluding_core(&lattice, self.scores, piece, &mut work.best)
    }

    // The loss of one piece.
    fn loss(&self, used: f64, work: &mut Work, id: usize) -> f64
        requires { Lent self.now.text.now self.now.pieces.now self.now.setting self.now.keys.now self.now.ends.now self.now.scores.now × (id < many self.now.pieces.now) }
        ensures { result ≡ Losses.loss used (get_or self.now.scores.now id nan) (Losses.alternative self.now.setting (listed self.now.text.now self.now.pieces.now) (chars_at self.now.text.now self.now.pieces.now id) self.now.scores.now id) }
    {
        if used == 0.0 {
            return 0.0;
        }
        let other = self.alternative(work, id);
        used * penalty(self.scores[id], other)
    }
}

// The bits of the loss of each piece, where the trie is that of the pieces. `scores`, `uses` and `bits` have a slot for each.
pub fn losses(
    text: &[u8],
    pieces: &[u32],
    setting: usize,
    keys: &[u64],
    ends: &[u32],
    scores: &[f64],
    uses: &[f64],
    bits: &mut [u64],
)
    requires { Given text.now pieces.now setting keys.now ends.now scores.now uses.now bits.old }
    ensures { bits.new ≡ Losses.bits_of (Losses.losses_of setting (listed text.now pieces.now) scores.now uses.now) }
{
    let mut work = Work {
        chars: [0; 255],
        grid: [0; 8160],
        offsets: [0; 257],
        starts: [0; 8160],
        ids: [0; 8160],
        place: [0; 4],
        best: [0.0; 256],
    };
    let scored = Scored {
        text,
        pieces,
        setting,
        keys,
        ends,
        scores,
    };
    for id in 0..bits.len() {
        let cost = scored.loss(uses[id], &mut work, id);
        bits[id] = math::bits(cost);
    }
}
