// The settings of training: what they are by default, which are refused, and how many pieces they ask for.
//
// These are the fields of 001's `UnigramTrainerBuilder`, by value. Document 01: "Defaults from 001 (8,000; unset; 16; 2; 0.75;
// 2; none) and `DEFAULT_SEED_MULTIPLE` 16 belong to the settings type", so they are constants of `Settings`. The specials are
// lent beside it, as a text and two numbers each (crate `spans`); by default the slices are empty.
#![tactic(auto)]

ghost use Rattle.std.specs.Prelude.{◌≡◌};
ghost use Rattle.laws.specs.Tests.{Says};
ghost use Rattle.settings.specs.Settings.{defaults, seed_of, target_of, pool_of};
ghost use Rattle.settings.specs.Check.{SeedWithin, SpecialsWithin, Answers};

use refusal::Refusal;

#[derive(Clone, Copy, Debug, PartialEq)]
pub struct Settings {
    pub vocab_size: usize,
    // None where it is unset.
    pub seed_size: Option<usize>,
    pub max_piece_chars: usize,
    pub min_frequency: u64,
    pub shrink_factor: f64,
    pub em_iterations: usize,
}

impl Settings {
    pub const DEFAULT_VOCAB_SIZE: usize = 8_000;

    pub const DEFAULT_SEED_SIZE: Option<usize> = None;

    pub const DEFAULT_MAX_PIECE_CHARS: usize = 16;

    pub const DEFAULT_MIN_FREQUENCY: u64 = 2;

    pub const DEFAULT_SHRINK_FACTOR: f64 = 0.75;

    pub const DEFAULT_EM_ITERATIONS: usize = 2;
    // How many times target the seed is, where its size is unset.
    pub const DEFAULT_SEED_MULTIPLE: usize = 16;

    // The defaults.
    pub fn new() -> Settings
        ensures { result ≡ defaults }
    {
        Settings {
            vocab_size: Settings::DEFAULT_VOCAB_SIZE,
            seed_size: Settings::DEFAULT_SEED_SIZE,
            max_piece_chars: Settings::DEFAULT_MAX_PIECE_CHARS,
            min_frequency: Settings::DEFAULT_MIN_FREQUENCY,
            shrink_factor: Settings::DEFAULT_SHRINK_FACTOR,
            em_iterations: Settings::DEFAULT_EM_ITERATIONS,
        }
    }

    // "Target is `vocab_size` less specials, not below 0."
    pub fn target(self, specials: usize) -> usize
        ensures { result ≡ target_of self specials }
    {
        self.vocab_size.saturating_sub(specials)
    }

    // "Pool is the larger of target and `seed_size` (or 16 times target)."
    pub fn pool(self, target: usize) -> usize
        ensures { result ≡ pool_of self target }
    {
        target.max(seed(self.seed_size, target))
    }
}

// The seed's size, or 16 times target, which stops at the largest number as 001's does.
fn seed(size: Option<usize>, target: usize) -> usize
    ensures { result ≡ seed_of size target }
{
    size.unwrap_or(target.saturating_mul(Settings::DEFAULT_SEED_MULTIPLE))
}

// Whether the seed's size is within its bound, which one that is unset always is.
fn seed_within(size: Option<usize>) -> bool
    ensures { Says result (SeedWithin size) }
{
    match size {
        Some(pieces) => pieces <= refusal::SEED_SIZE,
        None => true,
    }
}

// Whether there are few enough specials, each UTF-8 and short enough.
fn specials_within(texts: &[u8], specials: &[u32]) -> bool
    ensures { Says result (SpecialsWithin texts.now specials.now) }
{
    spans::count(specials) <= refusal::SPECIALS
        && spans::check(texts, specials, refusal::SPECIAL_BYTES).is_ok()
}

// The first setting that is beyond its bound.
pub fn check(settings: Settings, texts: &[u8], specials: &[u32]) -> Result<(), Refusal>
    ensures { Answers settings texts.now specials.now result }
{
    if refusal::VOCAB_SIZE < settings.vocab_size {
        return Err(Refusal::BadSetting(refusal::BAD_SETTING_VOCAB));
    }
    if !seed_within(settings.seed_size) {
        return Err(Refusal::BadSetting(refusal::BAD_SETTING_SEED));
    }
    if refusal::PIECE_LENGTH < settings.max_piece_chars {
        return Err(Refusal::BadSetting(refusal::BAD_SETTING_PIECE_LENGTH));
    }
    if refusal::EM_ITERATIONS < settings.em_iterations {
        return Err(Refusal::BadSetting(refusal::BAD_SETTING_EM));
    }
    if !specials_within(texts, specials) {
        return Err(Refusal::BadSetting(refusal::BAD_SETTING_SPECIALS));
    }
    Ok(())
}
