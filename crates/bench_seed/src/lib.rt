// The seed list over plain numbers and slices. tools/seeds, tools/bench/seed.rs and tools/replay.py call it, and nothing else.
//
// Training makes the list in slices that it is lent, and gives no more of it than its tokens. So this is no part of the library
// that others link, and include/causeylark.h does not declare it. It answers as the calls of crate `export` do: 0 where there is
// a list, and else the number of the refusal; in the lent slice `told` stands what more there is to tell. What a seed list is,
// and which refusal comes when, `start::start` says, and this promises the same of what it is lent.
#![tactic(auto)]

ghost use Rattle.std.specs.Prelude.{◌≡◌, ◌*◌, take, Result};
ghost use Rattle.refusal.specs.declared.Refusal as RefusalOf;
ghost use Rattle.listing.specs.declared.Seeded as SeededOf;
ghost use Rattle.listing.specs.Start.{count_of, Answers};
ghost use Rattle.told.specs.Told.{answer_number};
ghost use Rattle.bench_seed.specs.Told.{settings_of, started_told};

use listing::{Lent, Seeded};
use refusal::Refusal;
use settings::Settings;
use told::answer;

// What `start::start` answered: of a seed list how many words are UTF-8, how many pieces there are, how many of them are required.
fn answered(told: &mut [u64], started: Result<Seeded, Refusal>) -> u32
    ensures { (result ≡ answer_number started) × (told.new ≡ started_told started told.old) }
{
    answer(
        told,
        started.map(|seeded| (
            seeded.words as u64,
            seeded.pieces as u64,
            seeded.required as u64,
        )),
    )
}

// Answers 0 or the refusal's number. The list is as `start::start` leaves it.
#[unsafe(no_mangle)]
pub extern "C" fn bench_seed(
    vocab_size: usize,
    flag: u32,
    seed: usize,
    max_piece_chars: usize,
    min_frequency: u64,
    em_iterations: usize,
    texts: &[u8],
    specials: &[u32],
    text: &[u8],
    words: &[u32],
    frequencies: &[u64],
    kept: &mut [u32],
    counts: &mut [u64],
    chars: &mut [u32],
    places: &mut [u32],
    order: &mut [u32],
    work: &mut [u32],
    ranks: &mut [u64],
    pieces: &mut [u32],
    tallies: &mut [u64],
    scores: &mut [f64],
    table: &mut [u32],
    told: &mut [u64],
) -> u32
    ensures { (r : Result SeededOf.Seeded RefusalOf.Refusal) × Answers (record { settings = settings_of vocab_size flag seed max_piece_chars min_frequency em_iterations; texts = texts.now; specials = specials.now; text = text.now; words = take (2 * (count_of words.now frequencies.now)) words.now; frequencies = take (count_of words.now frequencies.now) frequencies.now }) (record { kept = kept.old; counts = counts.old; chars = chars.old; places = places.old; order = order.old; work = work.old; ranks = ranks.old; pieces = pieces.old; tallies = tallies.old; scores = scores.old; table = table.old }) (record { kept = kept.new; counts = counts.new; pieces = pieces.new; tallies = tallies.new; scores = scores.new }) r × (result ≡ answer_number r) × (told.new ≡ started_told r told.old) }
{
    let lent = Lent {
        settings: told::settings_of(
            vocab_size,
            flag,
            seed,
            max_piece_chars,
            min_frequency,
            Settings::DEFAULT_SHRINK_FACTOR,
            em_iterations,
        ),
        texts,
        specials,
        text,
        words,
        frequencies,
    };
    let started = start::start(
        &lent, kept, counts, chars, places, order, work, ranks, pieces, tallies, scores, table,
    );
    answered(told, started)
}
