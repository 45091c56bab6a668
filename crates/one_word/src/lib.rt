// The best cut of one word over a list of pieces, as a caller lends them: document 01's one-word cut.
//
// It checks, cuts and clears. "The one-word cut: 2 (piece length), 3 (too long or not UTF-8; place 0), 14, 15, 10, 7, 11, 12"; of
// 7, place 0 comes before 3, as everywhere. A word has at most 255 bytes, so its lattice and the tables of the best cut are
// local, and only the trie and the table of spellings are lent. They hold zeros after every call.
//
// Each call builds the trie of all pieces. Whoever cuts many words over one list calls `cache::build` and then `cut::viterbi` of
// each word, and builds the trie once.
#![tactic(auto)]

ghost use Rattle.std.specs.Prelude.{◌≡◌};
ghost use Rattle.one_word.specs.Word.{Checks, Answers, Zeros};
ghost use Rattle.one_word.specs.Steps.{Spanned, Exact, Cuts, Ready, Follows};

pub use cut::Cut;
use cut::cut_core;
use formed::Lattice;
use fresh::index_and_lay;
use lent::check_scores;
use refusal::Refusal;

// Checks all, with a work table that is left as it may be. The word's first `bytes` bytes stand at the span.
fn check(
    setting: usize,
    word: &[u8],
    bytes: usize,
    span: &[u32],
    spellings: &[u8],
    pieces: &[u32],
    scores: &[f64],
    table: &mut [u32],
) -> Result<(), Refusal>
    requires { Spanned word.now bytes span.now }
    ensures { Checks (record { setting = setting; word = word.now; spellings = spellings.now; pieces = pieces.now; scores = scores.now }) table.old result }
{
    inputs::check(setting, &word[..bytes], span, spellings, pieces, table)?;
    if let Err(id) = check_scores(scores) {
        return Err(Refusal::BadScore(id as u64));
    }
    if scores.len() < spans::count(pieces) {
        return Err(Refusal::BadScore(scores.len() as u64));
    }
    Ok(())
}

// The best cut of a lattice that stands in front of its slices.
fn best_of(front: &Lattice, edges: usize, scores: &[f64], path: &mut [u32]) -> Result<Cut, Refusal>
    requires { Exact front.now.offsets.now front.now.starts.now front.now.ids.now edges front.now.n scores.now }
    ensures { Cuts front.now.offsets.now front.now.starts.now front.now.ids.now edges front.now.n scores.now path.old path.new result }
{
    let n = front.n;
    if path.len() < n {
        return Err(Refusal::NoRoom(refusal::NO_ROOM_RESULTS));
    }
    let mut best = [0.0f64; 256];
    let mut back = [0u32; 256];
    let lattice = Lattice {
        offsets: &front.offsets[..n + 2],
        starts: &front.starts[..edges],
        ids: &front.ids[..edges],
        n,
    };
    cut_core(&lattice, scores, &mut best, &mut back, path)
}

// Builds the trie and the word's lattice, and cuts, of what was checked.
fn lay_and_cut(
    setting: usize,
    word: &[u8],
    bytes: usize,
    span: &[u32],
    spellings: &[u8],
    pieces: &[u32],
    scores: &[f64],
    path: &mut [u32],
    keys: &mut [u64],
    ends: &mut [u32],
) -> Result<Cut, Refusal>
    requires spanned { Spanned word.now bytes span.now }
    requires ready { Ready (record { setting = setting; word = word.now; spellings = spellings.now; pieces = pieces.now; scores = scores.now }) }
    ensures { Follows (record { setting = setting; word = word.now; spellings = spellings.now; pieces = pieces.now; scores = scores.now }) keys.old ends.old path.old path.new result }
{
    // A word of at most 255 bytes has at most 257 offsets, and 32 edges a character.
    let mut offsets = [0u32; 257];
    let mut starts = [0u32; 8160];
    let mut ids = [0u32; 8160];
    let mut place = [0u32; 4];
    let edges = index_and_lay(
        setting,
        &word[..bytes],
        span,
        spellings,
        pieces,
        &mut offsets,
        &mut starts,
        &mut ids,
        &mut place,
        keys,
        ends,
    )?;
    let front = Lattice {
        offsets: &offsets,
        starts: &starts,
        ids: &ids,
        n: place[3] as usize,
    };
    best_of(&front, edges, scores, path)
}

// Checks, and cuts; the work slices are left as they may be.
fn check_and_cut(
    setting: usize,
    word: &[u8],
    spellings: &[u8],
    pieces: &[u32],
    scores: &[f64],
    path: &mut [u32],
    keys: &mut [u64],
    ends: &mut [u32],
    table: &mut [u32],
) -> Result<Cut, Refusal>
    ensures { Answers (record { setting = setting; word = word.now; spellings = spellings.now; pieces = pieces.now; scores = scores.now }) (record { keys = keys.old; ends = ends.old; table = table.old }) path.old path.new result }
{
    // By its first 256 bytes it is known whether a word is too long.
    let bytes = word.len().min(256);
    let span = [0u32, bytes as u32];
    check(
        setting, word, bytes, &span, spellings, pieces, scores, table,
    )?;
    lay_and_cut(
        setting, word, bytes, &span, spellings, pieces, scores, path, keys, ends,
    )
}

// The best cut of a word: the ids of its pieces in front of the path. The empty word has no pieces, and its score is 0.
pub fn cut(
    setting: usize,
    word: &[u8],
    spellings: &[u8],
    pieces: &[u32],
    scores: &[f64],
    path: &mut [u32],
    keys: &mut [u64],
    ends: &mut [u32],
    table: &mut [u32],
) -> Result<Cut, Refusal>
    ensures answers { Answers (record { setting = setting; word = word.now; spellings = spellings.now; pieces = pieces.now; scores = scores.now }) (record { keys = keys.old; ends = ends.old; table = table.old }) path.old path.new result }
    ensures zeros { Zeros (record { keys = keys.old; ends = ends.old; table = table.old }) (record { keys = keys.new; ends = ends.new; table = table.new }) }
{
    let answer = check_and_cut(
        setting, word, spellings, pieces, scores, path, keys, ends, table,
    );
    keys.fill(0);
    ends.fill(0);
    table.fill(0);
    answer
}
