// Which word or piece stands a second time: the lowest index whose bytes are those of an earlier one.
//
// This is document 01's RepeatedWord, "equal bytes to an earlier word", and RepeatedPiece, "a spelling stands twice", whose
// place is the later one. Each index is compared with the earlier ones of its bucket only, and there are as many buckets as
// indexes, so the time goes by the number of bytes and not by the square of the number of words.
//
// The lent table has two entries for each of the m indexes. The first m are links: the latest earlier index of the same
// bucket, plus 1, or 0. The next m are heads, one for each bucket: its latest index so far, plus 1, or 0. The heads are set to
// 0 first and a link is written before it is read, so what the table holds at entry does not matter. At exit it is work.
//
// A bucket is the hash of the bytes as a fraction of the buckets: a product where a remainder would do. The hash adds each
// byte and multiplies by one constant, modulo 2^32. Over 16 families of spellings (all short ones of letters or of bytes,
// numbers with heads and tails, runs of one byte, Cyrillic, Chinese, random letters) in up to 8 sizes, to a million, an index
// is compared with 1.22 earlier ones at the worst mean, and no bucket has more than 9. Of eight constants that were tried this
// one is the best. Whoever knows it can still choose words that share a bucket: the search is then slow, and right.
#![tactic(auto)]

ghost use Rattle.std.specs.Prelude.{◌≡◌, false, ◌+◌, ◌<◌};
ghost use Rattle.laws.specs.Tests.{Says};
ghost use Rattle.spans.specs.Spans.{many, Inside, octets};
ghost use Rattle.repeats.specs.Repeats.{Again, Answers, Repeating};
ghost use Rattle.repeats.specs.Chains.{mixed, hash_of, bucket_of, Chained, Turning};

use spans::{count, octets};

// A hash and one byte more.
#[tactic(auto, unfolding(crate::specs::Chains::mixed))]
fn mix(h: u64, byte: u8) -> u64
    requires { h < 4294967296 }
    ensures { (result ≡ mixed h byte) × (result < 4294967296) }
{
    (h + u64::from(byte)) * 2654435769 % 4294967296
}

// The hash of some bytes.
#[tactic(auto, unfolding(crate::specs::Chains::mixed_all))]
fn hash(word: &[u8]) -> u64
    ensures { (result ≡ hash_of word.now) × (result < 4294967296) }
{
    let mut h = 2166136261;
    for &byte in word {
        h = mix(h, byte);
    }
    h
}

// The bucket of an index, of as many as there are indexes.
fn bucket(text: &[u8], spans: &[u32], k: usize) -> usize
    requires { (k < many spans.now) × Inside text.now spans.now k × (many spans.now < 4294967295) }
    ensures { (result ≡ bucket_of text.now spans.now k) × (result < many spans.now) }
{
    let h = hash(octets(text, spans, k));
    (h * (count(spans) as u64) / 4294967296) as usize
}

// Whether two indexes have equal bytes.
fn equal_spans(text: &[u8], spans: &[u32], i: usize, k: usize) -> bool
    requires i_bound { (i < many spans.now) × (k < many spans.now) }
    requires inside { Inside text.now spans.now i × Inside text.now spans.now k }
    ensures { Says result (octets text.now spans.now i ≡ octets text.now spans.now k) }
{
    octets(text, spans, i) == octets(text, spans, k)
}

// Whether the bytes of k stand at an earlier index, which would be in the same bucket.
fn seen(text: &[u8], spans: &[u32], table: &[u32], k: usize, bucket: usize) -> bool
    requires turning { Turning text.now spans.now table.now k }
    requires bucket_value { (bucket ≡ bucket_of text.now spans.now k) × (bucket < many spans.now) }
    ensures { Says result (Again text.now spans.now k) }
{
    let mut e = table[count(spans) + bucket] as usize;
    // A `while`, since an entry says which one comes next.
    while 0 < e {
        if equal_spans(text, spans, e - 1, k) {
            return true;
        }
        e = table[e - 1] as usize;
    }
    false
}

// Whether the bytes of k stand at an earlier index; if not, k becomes the head of its bucket.
fn turn(text: &[u8], spans: &[u32], table: &mut [u32], k: usize) -> bool
    requires { Turning text.now spans.now table.old k }
    ensures says { Says result (Again text.now spans.now k) }
    ensures chained { result ≡ false → Chained (bucket_of text.now spans.now) (many spans.now) table.new (k + 1) }
{
    let b = bucket(text, spans, k);
    if seen(text, spans, table, k, b) {
        return true;
    }
    let head = count(spans) + b;
    table[k] = table[head];
    table[head] = k as u32 + 1;
    false
}

// The lowest index whose bytes stand at an earlier index too, if there is one.
pub fn repeat(text: &[u8], spans: &[u32], table: &mut [u32]) -> Option<usize>
    requires { Repeating text.now spans.now table.old }
    ensures { Answers text.now spans.now result }
{
    let many = count(spans);
    table[many..2 * many].fill(0);
    for k in 0..many {
        if turn(text, spans, table, k) {
            return Some(k);
        }
    }
    None
}
