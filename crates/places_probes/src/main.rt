// How many places a walk of `places` passes, over families of keys that real and hostile texts make, in tables that are half
// full, of sizes that are and are not powers of two.
//
// The proofs of `places` say that each walk ends, and not when: a table whose keys all begin at one place is proved as well,
// and is unusable. So this program counts. Of each family it writes
//
//     PLACES FAMILY: KEYS longest LONGEST mean MEAN, missing longest LONGEST mean MEAN
//
// first for the keys that are there, then for a key that is not there, over all places as its home. A mean is in hundredths.
// Keys thrown at random into a table that is half full pass 1.5 places in the mean, and 2.5 where they are missing; and the
// longest walk is some three dozen places. So a longest of 64 and a mean of 3 are bounds that make sense, 4 for a missing key:
// the last line says how many families are beyond one of them.
#![tactic(auto)]

ghost use Rattle.std.specs.Prelude.{◌<◌, ◌≤◌, length};

use places::Inserted;
use std::io;

// What a family's keys are: the node steps and the character steps; or the characters go through a row for each node; or the
// keys are those of words, whose characters are drawn from a row.
#[derive(Clone, Copy)]
enum Kind {
    Steps,
    Rows,
    Words,
}

// A family of keys. A node and a character to begin with, how far each steps, and how many characters a row has.
#[derive(Clone, Copy)]
struct Family {
    kind: Kind,
    node: u64,
    node_step: u64,
    first: u64,
    step: u64,
    row: u64,
}

// The next key of a family, the character's place in its row, and what the next random number is made of.
#[derive(Clone, Copy)]
struct Next {
    node: u64,
    character: u64,
    column: u64,
    seed: u64,
}

// How many keys there are, how many places their walks pass in all, the most that one passes, and the node of the last key.
#[derive(Clone, Copy)]
struct Tally {
    count: u64,
    total: u64,
    longest: u64,
    node: u64,
}

const FAMILIES: u8 = 14;

// Nodes and characters are taken into their ranges where they are used, so sums may wrap.
fn add(a: u64, b: u64) -> u64 {
    a.wrapping_add(b)
}

impl Family {
    // Node and character step.
    fn steps(node: u64, node_step: u64, first: u64, step: u64) -> Family {
        Family {
            kind: Kind::Steps,
            node,
            node_step,
            first,
            step,
            row: 1,
        }
    }

    // The characters go through a row for each node from 1 on.
    fn rows(first: u64, step: u64, row: u64) -> Family {
        Family {
            kind: Kind::Rows,
            node: 1,
            node_step: 1,
            first,
            step,
            row,
        }
    }

    // The keys of words, whose characters are drawn from a row.
    fn words(first: u64, row: u64) -> Family {
        Family {
            kind: Kind::Words,
            node: 0,
            node_step: 0,
            first,
            step: 0,
            row,
        }
    }
}

fn family_of(i: u8, size: u64) -> Family {
    match i {
        0 => Family::steps(1, 1, 0x65, 0),
        1 => Family::steps(0, 0, 0, 1),
        2 => Family::steps(0, 0, 0x4E00, 1),
        3 => Family::rows(0xE00, 1, 96),
        4 => Family::rows(0x4E00, 64, 64),
        5 => Family::steps(0, size, 0x65, 0),
        6 => Family::steps(0, 0, 0, size),
        7 => Family::steps(0, 4096, 0x65, 0),
        8 => Family::steps(0, 1, 0, 1),
        9 => Family::steps(size, u64::MAX, 0, 1),
        10 => Family::words(0x61, 1),
        11 => Family::words(0x61, 26),
        12 => Family::words(0xE00, 96),
        _ => Family::words(0x4E00, 3000),
    }
}

fn name_of(i: u8) -> &'static str {
    match i {
        0 => "all nodes by one character",
        1 => "the root by all characters",
        2 => "the root by ideographs",
        3 => "all nodes by a Thai block",
        4 => "all nodes by every 64th ideograph",
        5 => "nodes that are multiples of the places",
        6 => "characters that are multiples of the places",
        7 => "nodes that are multiples of 4096",
        8 => "node and character both rise",
        9 => "the node falls and the character rises",
        10 => "one long word of one letter",
        11 => "words of letters",
        12 => "words of Thai",
        _ => "words of ideographs",
    }
}

fn write_name(rt: &impl Print, i: u8) -> io::Result<()> {
    rt.print(name_of(i))
}

// The key after a key, where the last key's node is `last`.
fn after(f: Family, key: Next, last: u64) -> Next {
    match f.kind {
        Kind::Steps => Next {
            node: add(key.node, f.node_step),
            character: add(key.character, f.step),
            column: 0,
            seed: 0,
        },
        Kind::Rows => {
            let column = add(key.column, 1);
            if column < f.row {
                return Next {
                    node: key.node,
                    character: add(key.character, f.step),
                    column,
                    seed: 0,
                };
            }
            Next {
                node: add(key.node, f.node_step),
                character: f.first,
                column: 0,
                seed: 0,
            }
        }
        Kind::Words => {
            let seed = key.seed % 2147483648 * 1103515245 + 12345;
            if f.row < 2 {
                return Next {
                    node: last,
                    character: f.first,
                    column: 0,
                    seed,
                };
            }
            let character = add(f.first, seed / 65536 % f.row);
            if seed / 2097152 % 5 == 0 {
                return Next {
                    node: 0,
                    character,
                    column: 0,
                    seed,
                };
            }
            Next {
                node: last,
                character,
                column: 0,
                seed,
            }
        }
    }
}

// How many places a walk passes that begins at `from` and ends below a node, with the place where it ends.
fn walked(node: u64, from: u64, size: u64) -> u64
    requires { 0 < size }
{
    if from < node {
        return node - from;
    }
    add(node, size).wrapping_sub(from)
}

// Inserts a key, and counts its walk if it is new.
fn one(keys: &mut [u64], node: u64, character: u64, t: Tally) -> Tally
    requires { length keys.old ≤ 65536 }
{
    let size = keys.len();
    if size == 0 {
        return t;
    }
    let n = (node % 4294967296) as u32;
    let c = (character % 1114112) as u32;
    match places::insert(keys, n, c, t.count as usize) {
        Some(Inserted::New(m)) => {
            let from = places::home(places::key(n, c), size);
            let walk = walked(u64::from(m), from as u64, size as u64);
            Tally {
                count: add(t.count, 1),
                total: add(t.total, walk),
                longest: t.longest.max(walk),
                node: u64::from(m),
            }
        }
        Some(Inserted::Old(m)) => Tally {
            node: u64::from(m),
            ..t
        },
        None => Tally { node: 0, ..t },
    }
}

// Fills a table with the keys of a family, as long as there is room.
fn fill(keys: &mut [u64], f: Family) -> Tally
    requires { length keys.old ≤ 65536 }
{
    let mut t = Tally {
        count: 0,
        total: 0,
        longest: 0,
        node: 0,
    };
    let mut key = Next {
        node: f.node,
        character: f.first,
        column: 0,
        seed: 1,
    };
    let turns = keys.len() * 2;
    for _turn in 0..turns {
        t = one(keys, key.node, key.character, t);
        key = after(f, key, t.node);
    }
    t
}

// Goes down through the places, after a walk from the place above would pass `run`, and counts the walk from each place.
fn missing(keys: &[u64], run: u64) -> Tally {
    let mut count: u64 = 0;
    let mut total: u64 = 0;
    let mut longest: u64 = 0;
    let mut walk = run;
    for key in keys.iter().rev() {
        walk = if *key == 0 { 1 } else { add(walk, 1) };
        count = add(count, 1);
        total = add(total, walk);
        longest = longest.max(walk);
    }
    Tally {
        count,
        total,
        longest,
        node: walk,
    }
}

// A mean in hundredths.
fn mean(t: Tally) -> u64 {
    let count = t.count;
    let total = t.total % 4294967296;
    if count == 0 {
        return 0;
    }
    total * 100 / count
}

fn write_tally(rt: &impl Print, t: Tally) -> io::Result<()> {
    let longest = t.longest;
    let mean = mean(t);
    print!(rt; " longest {longest} mean {mean}")
}

// Whether a walk or a mean is beyond its bound.
fn beyond(t: Tally, bound: u64) -> u64 {
    if 64 < t.longest {
        return 1;
    }
    if bound < mean(t) { 1 } else { 0 }
}

// Writes what a family's keys came to, and answers whether it is beyond a bound.
fn report(rt: &impl Print, keys: &[u64], i: u8, there: Tally) -> io::Result<u64> {
    let round = missing(keys, 0);
    let none = missing(keys, round.node);
    let size = keys.len();
    let count = there.count;
    print!(rt; "{size} ")?;
    write_name(rt, i)?;
    print!(rt; ": {count}")?;
    write_tally(rt, there)?;
    print!(rt; ", missing")?;
    write_tally(rt, none)?;
    println!(rt; "")?;
    if beyond(there, 300) == 1 {
        Ok(1)
    } else {
        Ok(beyond(none, 400))
    }
}

// Tries a family in a table, and answers whether it is beyond a bound.
fn case(rt: &impl Print, keys: &mut [u64], i: u8) -> io::Result<u64>
    requires { length keys.old ≤ 65536 }
{
    keys.fill(0);
    let there = fill(keys, family_of(i, keys.len() as u64));
    report(rt, keys, i, there)
}

// Tries every family in a table, and answers how many are beyond a bound.
fn cases(rt: &impl Print, keys: &mut [u64]) -> io::Result<u64>
    requires { length keys.old ≤ 65536 }
{
    let mut worse: u64 = 0;
    for i in 0..FAMILIES {
        worse = add(worse, case(rt, keys, i)?);
    }
    Ok(worse)
}

// The same in so many places.
fn sized(rt: &impl Print, keys: &mut [u64], size: usize) -> io::Result<u64>
    requires { (size ≤ length keys.old) × (length keys.old ≤ 65536) }
{
    cases(rt, &mut keys[..size])
}

fn main(rt: HostRuntime) -> io::Result<()> {
    let mut keys = [0u64; 65536];
    let mut worse = sized(&rt, &mut keys, 1024)?;
    worse = add(worse, sized(&rt, &mut keys, 8192)?);
    worse = add(worse, sized(&rt, &mut keys, 8191)?);
    worse = add(worse, sized(&rt, &mut keys, 10007)?);
    worse = add(worse, sized(&rt, &mut keys, 12288)?);
    worse = add(worse, sized(&rt, &mut keys, 65536)?);
    println!(rt; "beyond a bound: {worse}")
}
