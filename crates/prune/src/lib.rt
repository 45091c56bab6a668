// Which pieces survive a pruning, and the remap that says so: `prune` of 001, step 10 of document 01's port order. "Costliest
// survive, lower id on ties, the required prefix always."
//
// Losses come as the bits of f64s that are +0 or greater, which order as the losses do. The ids after the required prefix
// are sorted by loss; the sort is stable and they go in rising, so ties stand by id. The sort rises, so the losses are turned
// first, in their own slice. The remap's slice is the sort's second buffer before it holds the remap. All slices are cut to
// the pieces there are. Pieces and scores close up in place afterwards: what moves, moves down or stays, so what is written
// over has been read.
#![tactic(auto)]

ghost use Rattle.std.specs.Prelude.{◌≡◌, cond, map, ◌+◌, ◌*◌, ◌≤◌, ◌<◌, eqb, length, get_or, set, replicate};
ghost use Rattle.std.specs.Float.{nan};
ghost use Rattle.lattice.specs.Pruning.{gone};
ghost use Rattle.order.specs.Orders.{Each};
ghost use Rattle.prune.specs.Prune.{ids, ranking, kept, remap_from, remap_of};
ghost use Rattle.prune.specs.Compact.{surviving, compacted, twice, spread};
ghost use Rattle.prune.specs.Steps.{Pruning, turned, alive, marked};

use order::{ByKeys, sort};

// `u32::MAX`: the piece is gone.
const GONE: u32 = 0xffff_ffff;

// What a survivor's entry holds until it gets its new id.
const LIVES: u32 = 0;

// Turns the losses, so that the costliest has the lowest key.
fn turn(losses: &mut [u64])
    ensures { losses.new ≡ map turned losses.old }
{
    for loss in losses.iter_mut() {
        *loss = u64::MAX - *loss;
    }
}

// Each slot holds its own number.
fn fill_ids(ranked: &mut [u32])
    requires { length ranked.old ≤ gone }
    ensures { ranked.new ≡ ids 0 (length ranked.old) }
{
    for (id, slot) in ranked.iter_mut().enumerate() {
        *slot = id as u32;
    }
}

// These pieces live.
fn mark(survivors: &[u32], remap: &mut [u32])
    requires { Each (λ id. id < length remap.old) survivors.now }
    ensures { remap.new ≡ marked survivors.now remap.old }
{
    for id in survivors {
        remap[*id as usize] = LIVES;
    }
}

// Each piece that lives gets as its new id the count of survivors before it.
fn renew_all(remap: &mut [u32])
    requires { length remap.old ≤ gone }
    ensures { remap.new ≡ remap_from 0 (map alive remap.old) }
{
    let mut next = 0;
    for entry in remap.iter_mut() {
        if *entry != GONE {
            *entry = next;
            next += 1;
        }
    }
}

// Puts the ids in rank: the required prefix, and then the others, costliest first. `losses` and `work` are used up.
fn rank(losses: &mut [u64], required: usize, ranked: &mut [u32], work: &mut [u32])
    requires { Pruning losses.old required ranked.old work.old }
    ensures { ranked.new ≡ ranking losses.old required }
{
    turn(losses);
    fill_ids(ranked);
    let by_losses = ByKeys { keys: losses };
    sort(&by_losses, &mut ranked[required..], &mut work[required..]);
}

// The remap of a pruning to `keep` pieces, of which the first `required` are always kept. Answers how many survive. `losses`
// and `ranked` are used up.
pub fn survivors(
    losses: &mut [u64],
    required: usize,
    keep: usize,
    ranked: &mut [u32],
    remap: &mut [u32],
) -> usize
    requires { Pruning losses.old required ranked.old remap.old }
    ensures value { result ≡ kept required keep (length losses.old) }
    ensures remap_after { remap.new ≡ remap_of losses.old required keep }
{
    let count = keep.clamp(required, losses.len());
    rank(losses, required, ranked, remap);
    remap.fill(GONE);
    mark(&ranked[..count], remap);
    renew_all(remap);
    count
}

// What is left of the items of all pieces, of which each has `WIDTH`, moves to the front in its order; what stands behind is as
// it was. Answers how many items they are.
fn compact<T: Copy, const WIDTH: usize>(items: &mut [T], remap: &[u32]) -> usize
    requires some { 0 < WIDTH }
    requires room { WIDTH * length remap.now ≤ length items.old }
    ensures value { result ≡ length (surviving (spread WIDTH remap.now) items.old) }
    ensures items_after { items.new ≡ compacted (spread WIDTH remap.now) items.old }
{
    let mut write = 0;
    for item in 0..WIDTH * remap.len() {
        if remap[item / WIDTH] != GONE {
            items[write] = items[item];
            write += 1;
        }
    }
    write
}

// The scores of the survivors move to the front in their order; what stands behind is as it was. Answers how many they are.
pub fn compact_scores(scores: &mut [f64], remap: &[u32]) -> usize
    requires { length remap.now ≤ length scores.old }
    ensures value { result ≡ length (surviving remap.now scores.old) }
    ensures scores_after { scores.new ≡ compacted remap.now scores.old }
{
    compact::<f64, 1>(scores, remap)
}

// The survivors of a list of pieces, two numbers each, move to the front in their order; what stands behind is as it was.
// Answers how many they are.
pub fn compact_pieces(pieces: &mut [u32], remap: &[u32]) -> usize
    requires { 2 * length remap.now ≤ length pieces.old }
    ensures result_value { 2 * result ≡ length (surviving (twice remap.now) pieces.old) }
    ensures pieces_after { pieces.new ≡ compacted (twice remap.now) pieces.old }
{
    compact::<u32, 2>(pieces, remap) / 2
}
