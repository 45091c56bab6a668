// Which pieces begin at each character of a word: the walks of `LatticeBuilder::build` of lattice.rs, step 4 of document 01's
// port order. "From each start, the walk stops at the first character no piece continues, or after the length setting."
//
// A walk writes what it finds into its row of a grid: at each step the piece that is spelt so far, as its id plus 1, or 0.
// The builder then reads the grid end by end, and so has the edges in their order with nothing to sort. A row is as long as the
// longest setting, and what a walk does not reach is cleared, so that one grid serves all words.
//
// The word's characters are decoded once, and each start walks over numbers.
#![tactic(auto)]

ghost use Rattle.std.specs.Prelude.{◌<◌};
ghost use Rattle.rows.specs.Chars.{Decoding, Decodes};
ghost use Rattle.spans.specs.Spans.{many, chars_at};
ghost use Rattle.spans.specs.Check.{Good};
ghost use Rattle.rows.specs.Walks.{Walking, Walks};
ghost use Rattle.rows.specs.Word.{Room, Walked};

use places::find;
use utf8::decode;

// A row of the grid has a number for each step: "Piece length setting at most 32 characters."
pub const STRIDE: usize = 32;

// Writes a word's characters at the front of a slice, and answers how many they are.
pub fn characters(word: &[u8], chars: &mut [u32]) -> usize
    requires { Decoding word.now chars.old }
    ensures { Decodes word.now chars.old chars.new result }
{
    let mut at = 0;
    let mut n = 0;
    // A word is UTF-8, so its characters end where it does.
    while let Some(found) = decode(word, at) {
        chars[n] = found.code;
        at += found.width;
        n += 1;
    }
    n
}

// Walks from each start of a word.
pub fn rows(keys: &[u64], ends: &[u32], chars: &[u32], setting: usize, grid: &mut [u32])
    requires { Walking keys.now ends.now chars.now setting grid.old }
    ensures { Walks keys.now ends.now chars.now setting grid.old grid.new }
{
    for start in 0..chars.len() {
        let most = setting.min(chars.len() - start);
        let mut node: u32 = 0;
        // A `while`, since what the walk does not reach is cleared from the step at which it stopped.
        let mut step = 0;
        while step < most {
            let Some(child) = find(keys, node, chars[start + step]) else {
                break;
            };
            node = child;
            grid[STRIDE * start + step] = ends[node as usize - 1];
            step += 1;
        }
        grid[STRIDE * start + step..STRIDE * start + most].fill(0);
    }
}

// Walks from each start of word k of a list. Answers its number of characters.
pub fn walk_word(
    keys: &[u64],
    ends: &[u32],
    text: &[u8],
    words: &[u32],
    k: usize,
    setting: usize,
    chars: &mut [u32],
    grid: &mut [u32],
) -> usize
    requires room { Room keys.now ends.now setting chars.old grid.old }
    requires k_bound { (k < many words.now) × Good text.now words.now 255 k }
    ensures { Walked keys.now ends.now setting grid.old (chars_at text.now words.now k) grid.new result }
{
    let n = characters(spans::octets(text, words, k), chars);
    rows(keys, ends, &chars[..n], setting, grid);
    n
}
