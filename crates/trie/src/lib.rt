// Which piece is spelt by some characters: the pieces as a trie over `places`, so that a lattice is built by walking.
//
// This crate is the Rust's unigram/trie.rs, step 3 of document 01's port order. A piece's id is its position in the list. The
// node of a prefix is the place of its key in `keys`, plus 1, and the root is 0; the piece that ends there stands at the same
// place of a second slice, `ends`, as its id plus 1, or 0 where none ends. An empty spelling has no node but the root, and so
// is never an edge. A later equal spelling wins, as in the Rust, and the earlier one is told when the later is added; of two
// empty pieces nothing is told, since they have no place to be told from.
//
// The nodes are the distinct non-empty prefixes and the root: specs/Prefixes.antt. There is no room (document 01's NoRoom 2)
// exactly where they would be more than half of the places. Both slices are work, as long as each other, and zero before the
// first piece; the root alone wants two places. `index` makes the trie of a whole list, `add` adds one piece. A piece is read
// where it stands in its text, character by character, since it may be as long as the text. What a contract says, it says of
// every trie that the slices may be, so `add` asks only for lengths and for UTF-8.
//
// A caller walks by a loop of its own, with `places::find` at each character: proofs/Walked.antt says what a step finds.
// proofs/Theorems.antt has all in document 01's words, and proofs/Same.antt says that the ids are the lattice's.
#![tactic(auto)]

ghost use Rattle.std.specs.Prelude.{[], ◌≤◌, ◌<◌, length};
ghost use Rattle.utf8.specs.Chars.{chars_of};
ghost use Rattle.trie.specs.Trie.{Trie};
ghost use Rattle.trie.specs.Promised.{Grows, Spelling, Reaches, Adding, Adds};
ghost use Rattle.trie.specs.Index.{Putting, Puts, Indexing, Indexes};

use places::Inserted;
use utf8::decode;

// The node of a spelling, and how many nodes there are besides the root.
#[derive(Clone, Copy, Debug, PartialEq, Eq)]
struct Spelt {
    node: u32,
    count: usize,
}

// How many nodes there are besides the root after a piece whose spelling is new; or the same, and the earlier piece that has
// the spelling.
#[derive(Clone, Copy, Debug, PartialEq, Eq)]
pub enum Added {
    New(usize),
    Again { earlier: u32, count: usize },
}

// The node one character on, made where there is none and there is room.
fn grow(keys: &mut [u64], node: u32, character: u32, count: usize) -> Option<Spelt>
    requires { (length keys.old ≤ 4294967295) × (character < 4294967295) }
    ensures { Grows keys.old node character count keys.new result }
{
    match places::insert(keys, node, character, count)? {
        Inserted::Old(m) => Some(Spelt { node: m, count }),
        Inserted::New(m) => Some(Spelt {
            node: m,
            count: count + 1,
        }),
    }
}

// The node of a spelling, made where there is none, with those of its prefixes.
fn spell(keys: &mut [u64], piece: &[u8], count: usize) -> Option<Spelt>
    requires { Spelling keys.old piece.now }
    ensures { Reaches keys.old (chars_of piece.now) count keys.new result }
{
    let mut spelt = Spelt { node: 0, count };
    let mut at = 0;
    // A step is as wide as its character.
    while at < piece.len() {
        // A piece is UTF-8, so a character stands here.
        let found = decode(piece, at)?;
        spelt = grow(keys, spelt.node, found.code, spelt.count)?;
        at += found.width;
    }
    Some(spelt)
}

// Adds a piece, whose id is the number of pieces before it, if there is room.
pub fn add(keys: &mut [u64], ends: &mut [u32], piece: &[u8], id: u32, count: usize) -> Option<Added>
    requires { Adding keys.old ends.old piece.now id }
    ensures { Adds keys.old ends.old (chars_of piece.now) id count keys.new ends.new result }
{
    if piece.is_empty() {
        return Some(Added::New(count));
    }
    let spelt = spell(keys, piece, count)?;
    let p = spelt.node as usize - 1;
    let before = ends[p];
    ends[p] = id + 1;
    if before == 0 {
        return Some(Added::New(spelt.count));
    }
    Some(Added::Again {
        earlier: before - 1,
        count: spelt.count,
    })
}

// Adds piece k of a list to the trie of those before it, and answers how many nodes there are then besides the root. That a
// spelling stands twice is told elsewhere.
fn put(
    keys: &mut [u64],
    ends: &mut [u32],
    text: &[u8],
    pieces: &[u32],
    k: usize,
    count: usize,
) -> Option<usize>
    requires { Putting keys.old ends.old text.now pieces.now k }
    ensures { Puts keys.old ends.old text.now pieces.now k count keys.new ends.new result }
{
    let piece = spans::octets(text, pieces, k);
    match add(keys, ends, piece, k as u32, count)? {
        Added::New(made) => Some(made),
        Added::Again { count: made, .. } => Some(made),
    }
}

// The trie of all pieces of a list, in slices that hold the trie of none.
fn fill(keys: &mut [u64], ends: &mut [u32], text: &[u8], pieces: &[u32]) -> Option<usize>
    requires { Indexing keys.old ends.old text.now pieces.now × Trie keys.old ends.old [] [] }
    ensures { Indexes text.now pieces.now keys.old keys.new ends.new result }
{
    let many = spans::count(pieces);
    let mut count = 0;
    for k in 0..many {
        count = put(keys, ends, text, pieces, k, count)?;
    }
    Some(count)
}

// The trie of all pieces of a list, in slices that may hold anything: they are cleared first. The answer is how many nodes
// there are besides the root, or None where there is no room.
pub fn index(keys: &mut [u64], ends: &mut [u32], text: &[u8], pieces: &[u32]) -> Option<usize>
    requires { Indexing keys.old ends.old text.now pieces.now }
    ensures { Indexes text.now pieces.now keys.old keys.new ends.new result }
{
    keys.fill(0);
    ends.fill(0);
    // The root is at most half of the places.
    if keys.len() < 2 {
        return None;
    }
    fill(keys, ends, text, pieces)
}
