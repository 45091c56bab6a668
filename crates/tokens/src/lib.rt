// Training's answer: the tokens, written to three slices that the caller lends.
//
// Document 01: "Specials come first, score 0.", then the final pieces with their scores. A token's bytes stand in `bytes`, right
// after those of the token before it; `tokens` has two numbers for each token, where its bytes begin and how many they are, and
// `token_scores` its score. NoRoom 4 is "result slots or bytes too few", and it goes by all tokens' texts, specials included. All
// is counted before anything is written, since "A refusal changes no result slice"; and "An accepted call keeps result and path
// slots it doesn't fill."
//
// Specials and pieces are spans (crate `spans`), checked before: at most 256 and 1,048,576 of them with at most 255 bytes each,
// so all bytes together are fewer than 2^28, and a number of 32 bits holds where a token begins.
#![tactic(auto)]

ghost use Rattle.std.specs.Prelude.{◌≡◌};
ghost use Rattle.laws.specs.Tests.{Says};
ghost use Rattle.spans.specs.Spans.{octets};
ghost use Rattle.copied.specs.Put.{Puts, PutsAll};
ghost use Rattle.tokens.specs.Tokens.{Given, texts_of, tokens_of, scores_of, Answers};
ghost use Rattle.tokens.specs.Steps.{Fits, Putting, PuttingAll};

use copied::{over, put};

// Whether so many tokens of so many bytes fit into the slices.
fn fits(count: usize, long: usize, bytes: &[u8], tokens: &[u32], token_scores: &[f64]) -> bool
    ensures { Says result (Fits count long bytes.now tokens.now token_scores.now) }
{
    count <= tokens.len() / 2 && count <= token_scores.len() && long <= bytes.len()
}

// Puts span k of a list: its bytes from `at` on, its two numbers at a slot. Answers where the next token's bytes begin.
fn put_span(
    text: &[u8],
    list: &[u32],
    k: usize,
    bytes: &mut [u8],
    tokens: &mut [u32],
    slot: usize,
    at: usize,
) -> usize
    requires { Putting text.now list.now k bytes.old tokens.old slot at }
    ensures { Puts (octets text.now list.now k) bytes.old tokens.old slot at bytes.new tokens.new result }
{
    put(spans::octets(text, list, k), bytes, tokens, slot, at)
}

// Puts all spans of a list, the first at a slot and from a byte on. Answers where the next token's bytes begin.
fn put_all(
    text: &[u8],
    list: &[u32],
    bytes: &mut [u8],
    tokens: &mut [u32],
    slot: usize,
    at: usize,
) -> usize
    requires { PuttingAll text.now list.now bytes.old tokens.old slot at }
    ensures { PutsAll (texts_of text.now list.now) bytes.old tokens.old slot at bytes.new tokens.new result }
{
    let mut next = at;
    for k in 0..spans::count(list) {
        next = put_span(text, list, k, bytes, tokens, slot + k, next);
    }
    next
}

// Writes the tokens, specials first, if there is room for all, and answers how many they are.
pub fn write(
    texts: &[u8],
    specials: &[u32],
    text: &[u8],
    pieces: &[u32],
    scores: &[f64],
    bytes: &mut [u8],
    tokens: &mut [u32],
    token_scores: &mut [f64],
) -> Option<usize>
    requires { Given texts.now specials.now text.now pieces.now scores.now }
    ensures { Answers (tokens_of texts.now specials.now text.now pieces.now) (scores_of specials.now scores.now) bytes.old tokens.old token_scores.old bytes.new tokens.new token_scores.new result }
{
    let first = spans::count(specials);
    let count = first + spans::count(pieces);
    let special_bytes = spans::all_bytes(specials);
    let long = special_bytes + spans::all_bytes(pieces);
    if !fits(count, long, bytes, tokens, token_scores) {
        return None;
    }
    let next = put_all(texts, specials, bytes, tokens, 0, 0);
    put_all(text, pieces, bytes, tokens, first, next);
    token_scores[..first].fill(0.0);
    over(&mut token_scores[first..count], scores);
    Some(count)
}
