// Whether what a build is lent is in order: the setting, the sizes, the words, the pieces.
//
// Document 01: "Building a cache checks 2 (piece length), 3 (no frequency; also for a word not UTF-8), 14, 15, 7", of which 7 at
// place 0 comes before 3. These are the refusals that need no trie. The first that applies is given, at its lowest place.
#![tactic(auto)]

ghost use Rattle.laws.specs.Tests.{Says};
ghost use Rattle.inputs.specs.Inputs.{Bounded, Answers};

use refusal::Refusal;
use repeats::repeat;

// Whether the sizes are within the bounds, and the work table has two numbers for each piece.
fn bounded(text: &[u8], words: &[u32], spellings: &[u8], pieces: &[u32], table: &[u32]) -> bool
    ensures { Says result (Bounded text.now words.now spellings.now pieces.now table.now) }
{
    let many = spans::count(pieces);
    spans::count(words) <= refusal::WORDS
        && many <= refusal::LENT_PIECES
        && text.len() <= refusal::TEXT_BYTES
        && spellings.len() <= refusal::TEXT_BYTES
        && 2 * many <= table.len()
}

// Checks all, with a work table that is left as it may be.
pub fn check(
    setting: usize,
    text: &[u8],
    words: &[u32],
    spellings: &[u8],
    pieces: &[u32],
    table: &mut [u32],
) -> Result<(), Refusal>
    ensures { Answers setting text.now words.now spellings.now pieces.now table.old result }
{
    if refusal::PIECE_LENGTH < setting {
        return Err(Refusal::BadSetting(refusal::BAD_SETTING_PIECE_LENGTH));
    }
    if !bounded(text, words, spellings, pieces, table) {
        return Err(Refusal::NoRoom(refusal::NO_ROOM_BOUNDS));
    }
    if let Err(k) = spans::check(text, words, refusal::WORD_BYTES) {
        return Err(Refusal::BadWord(k as u64));
    }
    if let Err(k) = spans::check(spellings, pieces, refusal::TEXT_BYTES) {
        return Err(Refusal::BadPiece(k as u64));
    }
    if let Some(k) = repeat(spellings, pieces, table) {
        return Err(Refusal::RepeatedPiece(k as u64));
    }
    Ok(())
}
