// A cache of lattices, as callers lend it: its building and its pruning.
//
// `build` checks, builds and clears. Document 01: "Building a cache checks 2 (piece length), 3 (no frequency; also for a word
// not UTF-8), 14, 15, 7". Words and pieces are spans of their texts, two numbers each. A refusal changes no result slice. After
// an accepted call the slices hold the lattices of the words, one behind the other from slot 0, and zeros behind. The work
// slices are zero after every call: `keys` and `ends` have the trie, and `table` tells which spelling stands twice.
//
// `retain` checks, prunes in place and clears. Document 01: "Retain checks 9, 13." A refusal changes no slice. After an
// accepted call the slices hold the pruned lattices, words following each other from slot 0, and zeros behind.
#![tactic(auto)]

ghost use Rattle.std.specs.Prelude.{length};
ghost use Rattle.cached.specs.Cached.{CacheFormed};
ghost use Rattle.fresh.specs.Build.{Answers, Zeros};
ghost use Rattle.cache.specs.Retain.{Pruned, Answers as RetainAnswers};

use cached::{cached, offsets_before};
use fresh::{clear, index_and_lay};
use refusal::Refusal;
use retain::{check_remap, retain_core};

// Prunes a cache that was checked, and clears what stands behind.
fn prune(
    offsets: &mut [u32],
    starts: &mut [u32],
    ids: &mut [u32],
    spans: &mut [u32],
    words: usize,
    remap: &[u32],
) -> usize
    requires { CacheFormed starts.old ids.old offsets.old spans.old (length remap.now) words }
    ensures { Pruned offsets.old starts.old ids.old spans.old words remap.now offsets.new starts.new ids.new spans.new result }
{
    let ends = offsets_before(spans, words);
    let count = retain_core(offsets, starts, ids, spans, words, remap);
    clear(offsets, starts, ids, spans, ends, count, words);
    count
}

// Drops the edges of pieces that are gone from every lattice of a cache of so many words, and renumbers the others. Answers how
// many edges are left.
pub fn retain(
    offsets: &mut [u32],
    starts: &mut [u32],
    ids: &mut [u32],
    spans: &mut [u32],
    words: usize,
    remap: &[u32],
) -> Result<usize, Refusal>
    ensures { RetainAnswers offsets.old starts.old ids.old spans.old words remap.now offsets.new starts.new ids.new spans.new result }
{
    if let Err(word) = cached(starts, ids, offsets, spans, words, remap.len()) {
        return Err(Refusal::BadLattice(word as u64));
    }
    check_remap(remap)?;
    Ok(prune(offsets, starts, ids, spans, words, remap))
}

// Checks, and builds; the work slices are left as they may be.
fn check_and_build(
    setting: usize,
    text: &[u8],
    words: &[u32],
    spellings: &[u8],
    pieces: &[u32],
    offsets: &mut [u32],
    starts: &mut [u32],
    ids: &mut [u32],
    spans: &mut [u32],
    keys: &mut [u64],
    ends: &mut [u32],
    table: &mut [u32],
) -> Result<usize, Refusal>
    ensures { Answers (record { setting = setting; text = text.now; words = words.now; spellings = spellings.now; pieces = pieces.now }) (record { offsets = offsets.old; starts = starts.old; ids = ids.old; spans = spans.old }) (record { keys = keys.old; ends = ends.old; table = table.old }) (record { offsets = offsets.new; starts = starts.new; ids = ids.new; spans = spans.new }) result }
{
    inputs::check(setting, text, words, spellings, pieces, table)?;
    index_and_lay(
        setting, text, words, spellings, pieces, offsets, starts, ids, spans, keys, ends,
    )
}

// Builds the lattices of words over pieces, for a length setting. Answers how many edges they have.
pub fn build(
    setting: usize,
    text: &[u8],
    words: &[u32],
    spellings: &[u8],
    pieces: &[u32],
    offsets: &mut [u32],
    starts: &mut [u32],
    ids: &mut [u32],
    spans: &mut [u32],
    keys: &mut [u64],
    ends: &mut [u32],
    table: &mut [u32],
) -> Result<usize, Refusal>
    ensures answers { Answers (record { setting = setting; text = text.now; words = words.now; spellings = spellings.now; pieces = pieces.now }) (record { offsets = offsets.old; starts = starts.old; ids = ids.old; spans = spans.old }) (record { keys = keys.old; ends = ends.old; table = table.old }) (record { offsets = offsets.new; starts = starts.new; ids = ids.new; spans = spans.new }) result }
    ensures zeros { Zeros (record { keys = keys.old; ends = ends.old; table = table.old }) (record { keys = keys.new; ends = ends.new; table = table.new }) }
{
    let answer = check_and_build(
        setting, text, words, spellings, pieces, offsets, starts, ids, spans, keys, ends, table,
    );
    keys.fill(0);
    ends.fill(0);
    table.fill(0);
    answer
}
