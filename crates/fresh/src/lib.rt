// A cache built afresh from words and pieces that are in order: the trie, the room, the lattices.
//
// "A refusal changes no result slice", so it is known that there is room before any lattice is written. Where as many edges are
// lent as words of so many bytes can have at most, that is a sum over the words; else the edges are counted, which takes a walk
// of every word. The lattices are then laid out one behind the other from slot 0, and the slots behind them are cleared.
#![tactic(auto)]

ghost use Rattle.std.specs.Prelude.{◌≡◌, ◌≤◌};
ghost use Rattle.laws.specs.Tests.{Says};
ghost use Rattle.spans.specs.Spans.{many};
ghost use Rattle.rows.specs.Word.{Room as WalkRoom};
ghost use Rattle.builder.specs.Lay.{Fits, Listed};
ghost use Rattle.fresh.specs.Slots.{Room, Cleared};
ghost use Rattle.fresh.specs.Steps.{Short, Ample, Laying, Enough, Lays, Front, Fronted, InOrder, Follows};

use builder::{build_words, count_words};
use refusal::Refusal;
use retain::clear_from;

// Zeros in the slots past those used.
pub fn clear(
    offsets: &mut [u32],
    starts: &mut [u32],
    ids: &mut [u32],
    spans: &mut [u32],
    ends: usize,
    edges: usize,
    words: usize,
)
    requires { Room offsets.old starts.old ids.old spans.old ends edges words }
    ensures { Cleared offsets.old starts.old ids.old spans.old ends edges words offsets.new starts.new ids.new spans.new }
{
    clear_from(offsets, ends);
    clear_from(starts, edges);
    clear_from(ids, edges);
    clear_from(spans, 4 * words);
}

// Whether so many edges and offsets, and four numbers a word, have slots.
fn fits(
    offsets: &[u32],
    starts: &[u32],
    ids: &[u32],
    spans: &[u32],
    words: usize,
    edges: usize,
    ends: usize,
) -> bool
    requires { words ≤ 16384 }
    ensures { Says result (Fits offsets.now starts.now ids.now spans.now words (record { edges = edges; ends = ends })) }
{
    ends <= offsets.len() && edges <= starts.len() && edges <= ids.len() && 4 * words <= spans.len()
}

// Whether there are slots for whatever lattices the words have. A character has a byte or more, and ends at most as many edges as
// the length setting.
fn ample(
    offsets: &[u32],
    starts: &[u32],
    ids: &[u32],
    spans: &[u32],
    words: &[u32],
    setting: usize,
) -> bool
    requires { Short words.now × (setting ≤ 32) }
    ensures { Says result (Ample words.now setting (record { offsets = offsets.now; starts = starts.now; ids = ids.now; spans = spans.now })) }
{
    let many = spans::count(words);
    let bytes = spans::all_bytes(words);
    fits(
        offsets,
        starts,
        ids,
        spans,
        many,
        setting * bytes,
        bytes + 2 * many,
    )
}

// Whether there are slots for the lattices of all words over a trie. They are counted only where there may be too few.
fn enough(
    keys: &[u64],
    ends: &[u32],
    text: &[u8],
    words: &[u32],
    setting: usize,
    chars: &mut [u32],
    grid: &mut [u32],
    offsets: &[u32],
    starts: &[u32],
    ids: &[u32],
    spans: &[u32],
) -> bool
    requires { WalkRoom keys.now ends.now setting chars.old grid.old × Listed text.now words.now }
    ensures { Enough keys.now ends.now text.now words.now setting (record { offsets = offsets.now; starts = starts.now; ids = ids.now; spans = spans.now }) result }
{
    if ample(offsets, starts, ids, spans, words, setting) {
        return true;
    }
    let so = count_words(keys, ends, text, words, setting, chars, grid);
    fits(
        offsets,
        starts,
        ids,
        spans,
        spans::count(words),
        so.edges,
        so.ends,
    )
}

// The lattices of all words over a trie, laid out, and how many edges they have; or there are too few slots, and nothing is done.
pub fn lay(
    keys: &[u64],
    ends: &[u32],
    text: &[u8],
    words: &[u32],
    setting: usize,
    offsets: &mut [u32],
    starts: &mut [u32],
    ids: &mut [u32],
    spans: &mut [u32],
) -> Result<usize, Refusal>
    requires { Laying keys.now ends.now text.now words.now setting }
    ensures { Lays keys.now ends.now text.now words.now setting (record { offsets = offsets.old; starts = starts.old; ids = ids.old; spans = spans.old }) (record { offsets = offsets.new; starts = starts.new; ids = ids.new; spans = spans.new }) result }
{
    let mut chars = [0u32; 255];
    let mut grid = [0u32; 8160];
    if !enough(
        keys, ends, text, words, setting, &mut chars, &mut grid, offsets, starts, ids, spans,
    ) {
        return Err(Refusal::NoRoom(refusal::NO_ROOM_EDGES));
    }
    let all = build_words(
        keys, ends, text, words, setting, &mut chars, &mut grid, offsets, starts, ids, spans,
    );
    let many = spans::count(words);
    clear(offsets, starts, ids, spans, all.ends, all.edges, many);
    Ok(all.edges)
}

// The trie of the pieces, in the first places of both slices.
pub fn index_front(
    keys: &mut [u64],
    ends: &mut [u32],
    places: usize,
    spellings: &[u8],
    pieces: &[u32],
) -> Option<usize>
    requires { Front keys.old ends.old places spellings.now pieces.now }
    ensures { Fronted keys.old places spellings.now pieces.now keys.new ends.new result }
{
    trie::index(&mut keys[..places], &mut ends[..places], spellings, pieces)
}

// Builds the trie and then the cache, of words and pieces that are in order. Answers how many edges there are.
pub fn index_and_lay(
    setting: usize,
    text: &[u8],
    words: &[u32],
    spellings: &[u8],
    pieces: &[u32],
    offsets: &mut [u32],
    starts: &mut [u32],
    ids: &mut [u32],
    spans: &mut [u32],
    keys: &mut [u64],
    ends: &mut [u32],
) -> Result<usize, Refusal>
    requires { InOrder (record { setting = setting; text = text.now; words = words.now; spellings = spellings.now; pieces = pieces.now }) keys.old ends.old }
    ensures { Follows (record { setting = setting; text = text.now; words = words.now; spellings = spellings.now; pieces = pieces.now }) (record { offsets = offsets.old; starts = starts.old; ids = ids.old; spans = spans.old }) keys.old ends.old (record { offsets = offsets.new; starts = starts.new; ids = ids.new; spans = spans.new }) result }
{
    let places = keys.len().min(ends.len()).min(4294967295);
    index_front(keys, ends, places, spellings, pieces).ok_or(Refusal::NoRoom(
        refusal::NO_ROOM_TRIE,
    ))?;
    lay(
        &keys[..places],
        &ends[..places],
        text,
        words,
        setting,
        offsets,
        starts,
        ids,
        spans,
    )
}
