// What C and Rust can call: numbers and slices in, numbers out, nothing demanded of a caller.
//
// A C function answers one number, or one struct. So a call that can be refused answers 0 where it was accepted, and else the
// number of the refusal, as document 01's table has it. What more there is to tell stands in slot 0 of the lent slice `told`:
// how many edges, or the refusal's place. A caller that does not want it lends no slot. The calls of cuts are in cuts.rt.
//
// A slice is a pointer and a count in C. include/causeylark.h declares these functions for C, and bindings/rust for Rust.
// Nothing checks the declarations against this file, so they are few and plain.
#![tactic(auto)]

mod cuts;

ghost use Rattle.std.specs.Prelude.{◌≡◌, ℕ, set, Result};
ghost use Rattle.math.specs.Steps.{exp_steps, ln_steps, ln1p_steps};
ghost use Rattle.utf8.specs.Chars.{valid_of};
ghost use Rattle.fresh.specs.Build.{Answers, Zeros};
ghost use Rattle.cache.specs.Retain as Retain;
ghost use Rattle.refusal.specs.declared.Refusal as RefusalOf;
ghost use Rattle.told.specs.Told.{answer_number};
ghost use Rattle.export.specs.Told.{answer_told};

use refusal::Refusal;
use told::{refused, tell};

#[unsafe(no_mangle)]
pub extern "C" fn causeylark_exp(x: f64) -> f64
    ensures { result ≡ exp_steps x }
{
    math::exp(x)
}

#[unsafe(no_mangle)]
pub extern "C" fn causeylark_ln(x: f64) -> f64
    ensures { result ≡ ln_steps x }
{
    math::ln(x)
}

#[unsafe(no_mangle)]
pub extern "C" fn causeylark_ln_1p(y: f64) -> f64
    ensures { result ≡ ln1p_steps y }
{
    math::ln_1p(y)
}

#[unsafe(no_mangle)]
pub extern "C" fn causeylark_utf8_valid_up_to(text: &[u8]) -> usize
    ensures { result ≡ valid_of text.now }
{
    utf8::valid_up_to(text)
}

// A call's answer: 0, and how many; or the refusal's number, and its place.
fn answer(told: &mut [u64], given: Result<usize, Refusal>) -> u32
    ensures { (result ≡ answer_number given) × (told.new ≡ set told.old 0 (answer_told (λ many. many) given)) }
{
    match given {
        Ok(many) => {
            tell(told, 0, many as u64);
            0
        }
        Err(r) => refused(told, r),
    }
}

// Builds the lattices of words over pieces, as `cache::build` does.
#[unsafe(no_mangle)]
pub extern "C" fn causeylark_build(
    setting: usize,
    text: &[u8],
    words: &[u32],
    spellings: &[u8],
    pieces: &[u32],
    offsets: &mut [u32],
    starts: &mut [u32],
    ids: &mut [u32],
    spans: &mut [u32],
    keys: &mut [u64],
    ends: &mut [u32],
    table: &mut [u32],
    told: &mut [u64],
) -> u32
    ensures { (r : Result ℕ RefusalOf.Refusal) × Answers (record { setting = setting; text = text.now; words = words.now; spellings = spellings.now; pieces = pieces.now }) (record { offsets = offsets.old; starts = starts.old; ids = ids.old; spans = spans.old }) (record { keys = keys.old; ends = ends.old; table = table.old }) (record { offsets = offsets.new; starts = starts.new; ids = ids.new; spans = spans.new }) r × Zeros (record { keys = keys.old; ends = ends.old; table = table.old }) (record { keys = keys.new; ends = ends.new; table = table.new }) × (result ≡ answer_number r) × (told.new ≡ set told.old 0 (answer_told (λ many. many) r)) }
{
    let built = cache::build(
        setting, text, words, spellings, pieces, offsets, starts, ids, spans, keys, ends, table,
    );
    answer(told, built)
}

// Prunes a cache in place, as `cache::retain` does.
#[unsafe(no_mangle)]
pub extern "C" fn causeylark_retain(
    offsets: &mut [u32],
    starts: &mut [u32],
    ids: &mut [u32],
    spans: &mut [u32],
    words: usize,
    remap: &[u32],
    told: &mut [u64],
) -> u32
    ensures { (r : Result ℕ RefusalOf.Refusal) × Retain.Answers offsets.old starts.old ids.old spans.old words remap.now offsets.new starts.new ids.new spans.new r × (result ≡ answer_number r) × (told.new ≡ set told.old 0 (answer_told (λ many. many) r)) }
{
    let retained = cache::retain(offsets, starts, ids, spans, words, remap);
    answer(told, retained)
}
