// The ends of the floats, and what lies between them: the library's, as the definitions of the crates above spell them.
#![tactic(auto)]

ghost use Rattle.std.specs.Prelude.{◌≡◌, true, false};
ghost use Rattle.std.specs.Float.{inf};
ghost use Rattle.std.specs.Float.Ieee.Scale.{finite};

// Minus infinity, the score of no cut.
pub fn lowest() -> f64
    ensures { result ≡ inf true }
{
    f64::NEG_INFINITY
}

// Plus infinity.
pub fn highest() -> f64
    ensures { result ≡ inf false }
{
    f64::INFINITY
}

// Whether a float is finite: neither an infinity nor NaN, which is below and above nothing.
pub fn is_finite(x: f64) -> bool
    ensures { result ≡ finite x }
{
    x.is_finite()
}
