// The words that training is lent: which are refused, and which it uses.
//
// Document 01's refusals 3 to 6, in this order: a word with "frequency 0, over 255 bytes, or outside the text"; one with "equal
// bytes to an earlier word"; "W over 2^48"; "no word, or none UTF-8". "Non-UTF-8 words in training are skipped, as in 001; an
// empty word counts as a word": such words are no BadWord, they can repeat, and they weigh nothing. A word is two numbers, a
// span of the text (crate `spans`), with a frequency beside it.
//
// W is exact, though one product alone can take 72 bits: the sum stops one above its bound, and no two weights above that are
// told apart.
#![tactic(auto)]

ghost use Rattle.std.specs.Prelude.{◌≡◌, ◌+◌, ◌*◌, ◌<◌, min, length};
ghost use Rattle.laws.specs.Tests.{Says};
ghost use Rattle.utf8.specs.Chars.{measured};
ghost use Rattle.spans.specs.Spans.{many, Inside, octets};
ghost use Rattle.corpus.specs.Corpus.{GoodWord, Judges, AllInside, Utf8, SomeUtf8, weight_at, weight_of};
ghost use Rattle.corpus.specs.Check.{Asked, Answers};
ghost use Rattle.corpus.specs.Kept.{Keeping, Kept};
ghost use Rattle.corpus.specs.Steps.{Lent, Weighing, Turning, Turns};

use refusal::Refusal;
use repeats::repeat;
use utf8::measure;

// One more than the most that W may be.
const TOO_HEAVY: u64 = refusal::WEIGHT + 1;

// Whether a word has a frequency, at most 255 bytes, and lies inside the text.
fn good(text: &[u8], words: &[u32], frequencies: &[u64], k: usize) -> bool
    requires { (k < many words.now) × (k < length frequencies.now) }
    ensures { Says result (GoodWord text.now words.now frequencies.now k) }
{
    let long = spans::bytes(words, k);
    frequencies[k] != 0 && long <= refusal::WORD_BYTES && spans::from(words, k) + long <= text.len()
}

// The first word that is bad, UTF-8 or not.
fn judge(text: &[u8], words: &[u32], frequencies: &[u64]) -> Result<(), usize>
    requires { length frequencies.now ≡ many words.now }
    ensures { Judges text.now words.now frequencies.now result }
{
    for k in 0..spans::count(words) {
        if !good(text, words, frequencies, k) {
            return Err(k);
        }
    }
    Ok(())
}

// How many characters a word has, if it is UTF-8.
fn characters(text: &[u8], words: &[u32], k: usize) -> Result<usize, usize>
    requires { (k < many words.now) × Inside text.now words.now k }
    ensures { result ≡ measured (octets text.now words.now k) }
{
    measure(spans::octets(text, words, k))
}

// A weight and so many characters at a frequency more; past the bound all weights are one.
fn heavier(weight: u64, frequency: u64, chars: u64) -> u64
    ensures { result ≡ min (weight + frequency * chars) 281474976710657 }
{
    weight
        .saturating_add(frequency.saturating_mul(chars))
        .min(TOO_HEAVY)
}

// A weight and one word more, which is UTF-8 or weighs nothing.
fn weigh(text: &[u8], words: &[u32], frequencies: &[u64], k: usize, weight: u64) -> u64
    requires { Weighing text.now words.now frequencies.now k weight }
    ensures { result ≡ min (weight + weight_at text.now words.now frequencies.now k) 281474976710657 }
{
    match characters(text, words, k) {
        Ok(chars) => heavier(weight, frequencies[k], chars as u64),
        Err(_) => weight,
    }
}

// Whether W is over its bound.
fn heavy(text: &[u8], words: &[u32], frequencies: &[u64]) -> bool
    requires { Lent text.now words.now frequencies.now }
    ensures { Says result (281474976710656 < weight_of text.now words.now frequencies.now) }
{
    let mut weight: u64 = 0;
    for k in 0..spans::count(words) {
        weight = weigh(text, words, frequencies, k, weight);
    }
    refusal::WEIGHT < weight
}

// Whether a word is UTF-8.
fn is_utf8(text: &[u8], words: &[u32], k: usize) -> bool
    requires { (k < many words.now) × Inside text.now words.now k }
    ensures { Says result (Utf8 text.now words.now k) }
{
    characters(text, words, k).is_ok()
}

// Whether any word is UTF-8.
fn some_utf8(text: &[u8], words: &[u32]) -> bool
    requires { AllInside text.now words.now }
    ensures { Says result (SomeUtf8 text.now words.now) }
{
    for k in 0..spans::count(words) {
        if is_utf8(text, words, k) {
            return true;
        }
    }
    false
}

// Checks all words, with a work table that is left as it may be.
pub fn check(
    text: &[u8],
    words: &[u32],
    frequencies: &[u64],
    table: &mut [u32],
) -> Result<(), Refusal>
    requires { Asked text.now words.now frequencies.now table.old }
    ensures { Answers text.now words.now frequencies.now result }
{
    if let Err(k) = judge(text, words, frequencies) {
        return Err(Refusal::BadWord(k as u64));
    }
    if let Some(k) = repeat(text, words, table) {
        return Err(Refusal::RepeatedWord(k as u64));
    }
    if heavy(text, words, frequencies) {
        return Err(Refusal::TooHeavy);
    }
    if !some_utf8(text, words) {
        return Err(Refusal::EmptyCorpus);
    }
    Ok(())
}

// Puts a word's span and its frequency after the r that are kept, if it is UTF-8; answers how many are kept then.
fn turn(
    text: &[u8],
    words: &[u32],
    frequencies: &[u64],
    kept: &mut [u32],
    counts: &mut [u64],
    k: usize,
    r: usize,
) -> usize
    requires { Turning text.now words.now frequencies.now kept.old counts.old k r }
    ensures { Turns (measured (octets text.now words.now k)) words.now frequencies.now k r kept.old counts.old kept.new counts.new result }
{
    if characters(text, words, k).is_err() {
        return r;
    }
    kept[2 * r] = words[2 * k];
    kept[2 * r + 1] = words[2 * k + 1];
    counts[r] = frequencies[k];
    r + 1
}

// The words that are UTF-8, in order: their spans go to the front of `kept`, their frequencies to that of `counts`. Answers
// how many they are.
pub fn utf8_words(
    text: &[u8],
    words: &[u32],
    frequencies: &[u64],
    kept: &mut [u32],
    counts: &mut [u64],
) -> usize
    requires { Keeping text.now words.now frequencies.now kept.old counts.old }
    ensures { Kept text.now words.now frequencies.now (many words.now) kept.old counts.old kept.new counts.new result }
{
    let mut r = 0;
    for k in 0..spans::count(words) {
        r = turn(text, words, frequencies, kept, counts, k, r);
    }
    r
}
