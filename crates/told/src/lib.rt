// What the calls for C share: plain numbers in, and how an answer is told.
//
// A C function answers one number: 0 where it was accepted, and else the number of the refusal, as document 01's table has it.
// What more there is to tell stands in a lent slice, which callers name `told`; of a refusal its place, in slot 0. A caller that
// does not want it lends fewer slots.
#![tactic(auto)]

ghost use Rattle.std.specs.Prelude.{◌≡◌, ◌*◌, set};
ghost use Rattle.refusal.specs.Numbers.{number_of, place_of};
ghost use Rattle.told.specs.Told.{seed_size_of, settings_of, answer_number, three, told_of};

use refusal::Refusal;
use settings::Settings;

// "`seed_size`, if set": it is where the flag is not 0.
pub fn seed_size(flag: u32, seed: usize) -> Option<usize>
    ensures { result ≡ seed_size_of flag seed }
{
    (flag != 0).then_some(seed)
}

// The settings, of plain numbers. Apart from the calls, where each step and each value costs the prover much.
pub fn settings_of(
    vocab_size: usize,
    seed_flag: u32,
    seed: usize,
    max_piece_chars: usize,
    min_frequency: u64,
    shrink_factor: f64,
    em_iterations: usize,
) -> Settings
    ensures { result ≡ settings_of vocab_size seed_flag seed max_piece_chars min_frequency shrink_factor em_iterations }
{
    Settings {
        vocab_size,
        seed_size: seed_size(seed_flag, seed),
        max_piece_chars,
        min_frequency,
        shrink_factor,
        em_iterations,
    }
}

// What there is to tell, at a slot if there is one; by an index, since `get_mut` and a match are no plainer.
pub fn tell<T: Copy>(slots: &mut [T], slot: usize, value: T)
    ensures { slots.new ≡ set slots.old slot value }
{
    if slot < slots.len() {
        slots[slot] = value;
    }
}

// A refused call: the refusal's number, and its place.
pub fn refused(told: &mut [u64], r: Refusal) -> u32
    ensures { (result ≡ number_of r) × (told.new ≡ set told.old 0 (place_of r)) }
{
    tell(told, 0, refusal::place(r));
    u32::from(refusal::number(r))
}

// What a call answered that has three numbers to tell: 0, and the numbers; or the refusal's number, and its place.
pub fn answer(told: &mut [u64], given: Result<(u64, u64, u64), Refusal>) -> u32
    ensures { (result ≡ answer_number given) × (told.new ≡ told_of three given told.old) }
{
    match given {
        Ok((first, second, third)) => {
            tell(told, 0, first);
            tell(told, 1, second);
            tell(told, 2, third);
            0
        }
        Err(r) => refused(told, r),
    }
}
