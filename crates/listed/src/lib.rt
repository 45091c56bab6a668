// A list of found pieces as the rest of training reads it: each piece as bytes of the text, and each with its score. Document
// 01, port order 8: "Score: ln(count/total)".
//
// A piece is found as a position and a length in characters. Its bytes begin where the position's character does, and end
// where the position after its last character does, if that is one of the same word; else where the word ends. So no
// character is decoded again, and no piece goes on into the next word.
#![tactic(auto)]

ghost use Rattle.std.specs.Prelude.{◌≡◌, ◌+◌, ◌-◌, ◌<◌, ◌≤◌, ◌++◌, length, drop};
ghost use Rattle.positions.specs.Positions.{at};
ghost use Rattle.ranking.specs.Scores.{seed_total, seed_score, seed_scores};
ghost use Rattle.listed.specs.Spelled.{end_of, Ending, Cutting, Spelling, Cut, Spelled};

use math::ln;
use positions::{at, word};
use std::num::nearest_u64_to_f64;

// The byte after the first l characters of position p's text. There are n positions.
fn end(words: &[u32], places: &[u32], n: usize, p: usize, l: usize) -> usize
    requires { Ending words.now places.now n p l }
    ensures { result ≡ end_of words.now places.now n p l }
{
    let k = word(places, p);
    let next = p + l;
    if next < n && word(places, next) == k {
        at(places, next)
    } else {
        spans::from(words, k) + spans::bytes(words, k)
    }
}

// Writes piece i, a position and a length, as bytes of the text.
fn cut(words: &[u32], places: &[u32], n: usize, pieces: &mut [u32], i: usize)
    requires { Cutting words.now places.now n pieces.old i }
    ensures { Cut words.now places.now n pieces.old i pieces.new }
{
    let p = pieces[2 * i] as usize;
    let l = pieces[2 * i + 1] as usize;
    let low = at(places, p);
    let high = end(words, places, n, p, l);
    pieces[2 * i] = low as u32;
    pieces[2 * i + 1] = (high - low) as u32;
}

// Writes every piece as bytes of the text.
pub fn spell(words: &[u32], places: &[u32], n: usize, pieces: &mut [u32])
    requires { Spelling words.now places.now n pieces.old }
    ensures { Spelled words.now places.now n pieces.old pieces.new }
{
    for i in 0..spans::count(pieces) {
        cut(words, places, n, pieces, i);
    }
}

// The sum of the counts, in the list's order, from +0: the library's sum of floats begins at -0.
fn total(counts: &[u64]) -> f64
    ensures { result ≡ seed_total counts.now }
{
    let mut sum = 0.0;
    for &count in counts {
        sum += nearest_u64_to_f64(count);
    }
    sum
}

// A count's part of the total, as a score.
fn score(total: f64, count: u64) -> f64
    ensures { result ≡ seed_score total count }
{
    ln(nearest_u64_to_f64(count) / total)
}

// Writes the score of each count, and keeps the slots behind them.
pub fn score_all(counts: &[u64], scores: &mut [f64])
    requires { length counts.now ≤ length scores.old }
    ensures { scores.new ≡ seed_scores counts.now ++ drop (length counts.now) scores.old }
{
    let sum = total(counts);
    for i in 0..counts.len() {
        scores[i] = score(sum, counts[i]);
    }
}
