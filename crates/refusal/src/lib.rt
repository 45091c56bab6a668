// Why a call said no, and how much work a call may be given.
//
// This crate is document 01's table "Numbers that say no", a case of `Refusal` for each row, and its paragraph "Numbers that
// bound the work", a constant for each bound. It decides nothing: the other crates answer with it.
//
// The order of refusals is data: specs/Rows.antt has a row of the table and what a list of rows gives, "the first that applies
// [..], with the lowest place". Each call has its list, in document 01's order; that no second refusal fits is proved here, once.
//
// A case holds its place and nothing else. The rows whose place is always 0 hold nothing. A place is a u64: the index that
// a caller lends or asks for is a usize of 64 bits, which a place must be able to repeat (`view` of an absent index is
// BadLattice at that index), so no narrower type would hold every place.
#![tactic(auto)]

ghost use Rattle.std.specs.Prelude.{◌≡◌};
ghost use Rattle.refusal.specs.Numbers.{number_of, place_of};

// The fifteen refusals, in the order of their numbers.
#[derive(Clone, Copy, Debug, PartialEq, Eq)]
pub enum Refusal {
    // 1: the line, from 1, that breaks the frame rules.
    BadFrame(u64),
    // 2: the setting beyond its bound, one of the BAD_SETTING places.
    BadSetting(u64),
    // 3: the index of a word with frequency 0, over 255 bytes, or outside the text.
    BadWord(u64),
    // 4: the index of a word with equal bytes to an earlier word.
    RepeatedWord(u64),
    // 5: the sum of frequency times characters is over its bound.
    TooHeavy,
    // 6: there is no word, or none is UTF-8.
    EmptyCorpus,
    // 7: the room that ran short, one of the NO_ROOM places.
    NoRoom(u64),
    // 8: required + specials, where the target is below required.
    VocabTooSmall(u64),
    // 9: the index of the word whose lent lattice is not well formed.
    BadLattice(u64),
    // 10: the id of a piece whose score is NaN, above zero or missing.
    BadScore(u64),
    // 11: no cut has a finite sum.
    NoPath,
    // 12: the position at which the walk back meets no edge.
    PathBroken(u64),
    // 13: the entry that is neither u32::MAX nor the count of survivors before it.
    BadRemap(u64),
    // 14: the id of a lent piece that is not UTF-8 or outside its text.
    BadPiece(u64),
    // 15: the later id of a spelling that stands twice.
    RepeatedPiece(u64),
}

// "A word has 0 to 255 bytes and a frequency from 1."
pub const WORD_BYTES: usize = 255;
// "At most 16,384 words".
pub const WORDS: usize = 16_384;
// "1,048,576 bytes of text".
pub const TEXT_BYTES: usize = 1_048_576;
// "1,048,576 lent pieces".
pub const LENT_PIECES: usize = 1_048_576;
// "W, the sum of frequency times characters over UTF-8 words, is at most 2^48."
pub const WEIGHT: u64 = 0x1_0000_0000_0000;
// "Piece length setting at most 32 characters."
pub const PIECE_LENGTH: usize = 32;
// "`vocab_size` ≤ 65,536".
pub const VOCAB_SIZE: usize = 65_536;
// "`seed_size`, if set, ≤ 1,048,576".
pub const SEED_SIZE: usize = 1_048_576;
// "`em_iterations` ≤ 100".
pub const EM_ITERATIONS: usize = 100;
// "at most 256 specials".
pub const SPECIALS: usize = 256;
// "each UTF-8 of at most 255 bytes".
pub const SPECIAL_BYTES: usize = 255;

// BadSetting's places: "1 vocab, 2 seed, 3 piece length, 4 EM, 5 specials".
pub const BAD_SETTING_VOCAB: u64 = 1;

pub const BAD_SETTING_SEED: u64 = 2;

pub const BAD_SETTING_PIECE_LENGTH: u64 = 3;

pub const BAD_SETTING_EM: u64 = 4;

pub const BAD_SETTING_SPECIALS: u64 = 5;

// NoRoom's places. 0: "word count, lent piece count or text over the bounds".
pub const NO_ROOM_BOUNDS: u64 = 0;
// 1: "the seed list before its cut exceeds the piece slots".
pub const NO_ROOM_PIECES: u64 = 1;
// 2: "distinct non-empty prefixes plus the root exceed half the lent trie places".
pub const NO_ROOM_TRIE: u64 = 2;
// 3: "first-round edges, offsets or a word's n+1 positions exceed their slots".
pub const NO_ROOM_EDGES: u64 = 3;
// 4: "result slots or bytes too few, or for a path fewer than n free slots".
pub const NO_ROOM_RESULTS: u64 = 4;
// 5: "the program's word room".
pub const NO_ROOM_WORDS: u64 = 5;

// The number of a refusal, as the table has it.
pub fn number(r: Refusal) -> u8
    ensures { result ≡ number_of r }
{
    match r {
        Refusal::BadFrame(_) => 1,
        Refusal::BadSetting(_) => 2,
        Refusal::BadWord(_) => 3,
        Refusal::RepeatedWord(_) => 4,
        Refusal::TooHeavy => 5,
        Refusal::EmptyCorpus => 6,
        Refusal::NoRoom(_) => 7,
        Refusal::VocabTooSmall(_) => 8,
        Refusal::BadLattice(_) => 9,
        Refusal::BadScore(_) => 10,
        Refusal::NoPath => 11,
        Refusal::PathBroken(_) => 12,
        Refusal::BadRemap(_) => 13,
        Refusal::BadPiece(_) => 14,
        Refusal::RepeatedPiece(_) => 15,
    }
}

// The place of a refusal: what its case holds, and 0 where the table says 0.
pub fn place(r: Refusal) -> u64
    ensures { result ≡ place_of r }
{
    match r {
        Refusal::BadFrame(line) => line,
        Refusal::BadSetting(setting) => setting,
        Refusal::BadWord(word) => word,
        Refusal::RepeatedWord(word) => word,
        Refusal::TooHeavy => 0,
        Refusal::EmptyCorpus => 0,
        Refusal::NoRoom(room) => room,
        Refusal::VocabTooSmall(needed) => needed,
        Refusal::BadLattice(word) => word,
        Refusal::BadScore(id) => id,
        Refusal::NoPath => 0,
        Refusal::PathBroken(position) => position,
        Refusal::BadRemap(entry) => entry,
        Refusal::BadPiece(id) => id,
        Refusal::RepeatedPiece(id) => id,
    }
}
