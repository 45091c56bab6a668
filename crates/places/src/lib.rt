// Which node a node has as its child by a character: the map (node, character) to node that document 01's trie walks (step 3
// of the port order; "What must change shape": hash maps become lent places of numbers, keyed by node and character).
//
// The map is one lent slice of u64 keys. Node and character make one key, never 0, and 0 is an empty place. The child is no
// number that is kept beside its key: it is the place where the key stands, plus 1, and 0 is the root. So there is one slice
// to lend and to clear, no counter of nodes to store, and one load answers a search.
//
// A key's walk begins at its home, goes up to the last place and on from the first, as two plain scans without a remainder.
// A new key is refused where the count and the root would pass half of the places, so a table that was filled here has an
// empty place, and each walk ends. What the slice then means is a list of keys in order of creation: specs/Entries.antt.
//
// Home mixes node and character by a wrapping add of two products, and takes the low half of the sum as a fraction of the
// places: a product where a remainder would do. With a remainder all keys whose nodes are multiples of 65,536 begin at one
// place of 65,536, and a walk passes 16,384 places in the mean; and its division took a fifth of the time of a text's walk.
// As it is, over 14 families of keys in 6 sizes of table, all half full, the longest walk to a key passes 25 places and the
// worst mean is 1.74; where the key is missing, 37 and 2.86. Of eight second constants that were tried over 17 families and 22
// sizes this one is the best. The program places_probes counts anew at each check. Whoever knows the constants can still
// choose keys that share a home, as with the Rust's hasher: the table is then slow, and right.
#![tactic(auto)]

ghost use Rattle.std.specs.Prelude.{◌≡◌, ◌+◌, ◌-◌, ◌/◌, ◌<◌, ◌≤◌, length, nat_le};
ghost use Rattle.places.specs.Walk.{key_of, home_of, seek, stop_of};
ghost use Rattle.places.specs.Map.{found_in, inserted_in, put_in};
ghost use Rattle.places.specs.Entries.{Finds, Inserts};

// The child of a node by a character: it was there, or was made.
#[derive(Clone, Copy, Debug, PartialEq, Eq)]
pub enum Inserted {
    Old(u32),
    New(u32),
}

// A node and a character as one number, never 0.
pub fn key(node: u32, character: u32) -> u64
    requires { character < 4294967295 }
    ensures { result ≡ key_of node character }
{
    u64::from(node) * 4294967296 + (u64::from(character) + 1)
}

// The place at which the walk for a key begins, of so many.
pub fn home(key: u64, places: usize) -> usize
    requires { places ≤ 4294967295 }
    ensures { result ≡ home_of key places }
{
    let mixed = (key / 4294967296 * 2654435769).wrapping_add(key % 4294967296 * 3144134277);
    (mixed % 4294967296 * (places as u64) / 4294967296) as usize
}

// The first place from `from` up to `to` that holds the key or nothing, or `to`.
fn scan(keys: &[u64], key: u64, from: usize, to: usize) -> usize
    requires { (from ≤ to) × (to ≤ length keys.now) }
    ensures { result ≡ seek keys.now key (to - from) from }
{
    for p in from..to {
        let there = keys[p];
        if there == key || there == 0 {
            return p;
        }
    }
    to
}

// The place at which the walk for a key ends.
fn stop(keys: &[u64], key: u64) -> usize
    requires { (0 < length keys.now) × (length keys.now ≤ 4294967295) }
    ensures { (result ≡ stop_of keys.now key) × (result < length keys.now) }
{
    let from = home(key, keys.len());
    let right = scan(keys, key, from, keys.len());
    if right < keys.len() {
        return right;
    }
    scan(keys, key, 0, from)
}

// Whether one node more, with the root and those there are, is at most half of the places.
fn room(places: usize, count: usize) -> bool
    ensures { result ≡ nat_le (count + 2) (places / 2) }
{
    let half = places / 2;
    2 <= half && count <= half - 2
}

// The child of a node by a character.
pub fn find(keys: &[u64], node: u32, character: u32) -> Option<u32>
    requires { (length keys.now ≤ 4294967295) × (character < 4294967295) }
    ensures value { result ≡ found_in keys.now (key_of node character) }
    ensures finds { Finds keys.now (key_of node character) result }
{
    if keys.is_empty() {
        return None;
    }
    let k = key(node, character);
    let p = stop(keys, k);
    if keys[p] == k {
        Some(p as u32 + 1)
    } else {
        None
    }
}

// The child of a node by a character, made where there is none and there is room, in a table of `count` nodes besides the root.
pub fn insert(keys: &mut [u64], node: u32, character: u32, count: usize) -> Option<Inserted>
    requires { (length keys.old ≤ 4294967295) × (character < 4294967295) }
    ensures value { result ≡ inserted_in keys.old (key_of node character) count }
    ensures keys_after { keys.new ≡ put_in keys.old (key_of node character) count }
    ensures inserts { Inserts keys.old (key_of node character) count keys.new result }
{
    if keys.is_empty() {
        return None;
    }
    let k = key(node, character);
    let p = stop(keys, k);
    let there = keys[p];
    if there == k {
        return Some(Inserted::Old(p as u32 + 1));
    }
    if there != 0 || !room(keys.len(), count) {
        return None;
    }
    keys[p] = k;
    Some(Inserted::New(p as u32 + 1))
}
