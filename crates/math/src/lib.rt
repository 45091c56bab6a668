// exp, ln and ln_1p on f64, and a float's bits: document 01, port order 2.
//
// docs/MATH.md fixes every bit by a definition in rounded steps, and specs/Steps.antt is that page
// in symbols. Each function here equals it. The bounds that document 01 asks for are theorems about
// the definition, in the crate `bounds`. Training spends most of its time in `exp` and `ln_1p`, so
// their kernels are one table step and one short polynomial, with no division and no branch.
#![tactic(auto)]

ghost use Rattle.std.specs.Prelude.{◌≡◌};
ghost use Rattle.std.specs.Float.{binary64};
ghost use Rattle.std.specs.Float.Ieee.{of_bits, to_bits};
ghost use Rattle.math.specs.Steps.{exp_steps, ln_steps, ln1p_steps};

mod kernels;

// The bits of a float. A NaN of any kind has 7ff8000000000000.
pub fn bits(x: f64) -> u64
    ensures { result ≡ to_bits binary64 x }
{
    if x.is_nan() {
        0x7ff8_0000_0000_0000
    } else {
        x.to_bits()
    }
}

// The float with these bits. Every pattern of a NaN gives the one NaN.
pub fn from_bits(b: u64) -> f64
    ensures { result ≡ of_bits binary64 b }
{
    if b % 0x8000_0000_0000_0000 > 0x7ff0_0000_0000_0000 {
        f64::NAN
    } else {
        f64::from_bits(b)
    }
}

// e^x. Strict tests come first, so that neither zero reaches a kernel.
pub fn exp(x: f64) -> f64
    ensures { result ≡ exp_steps x }
{
    if x < 0.0 {
        if x > -746.0 {
            kernels::exp_neg(-x)
        } else {
            0.0
        }
    } else if x > 0.0 {
        if x < 746.0 {
            1.0 / kernels::exp_neg(x)
        } else {
            f64::INFINITY
        }
    } else if x == 0.0 {
        1.0
    } else {
        f64::NAN
    }
}

// The natural logarithm: minus infinity at either zero, NaN below.
pub fn ln(x: f64) -> f64
    ensures { result ≡ ln_steps x }
{
    if x > 0.0 {
        kernels::ln_positive(x)
    } else if x == 0.0 {
        f64::NEG_INFINITY
    } else {
        f64::NAN
    }
}

// ln(1 + y), without the loss that 1 + y would bring where y is small.
pub fn ln_1p(y: f64) -> f64
    ensures { result ≡ ln1p_steps y }
{
    if y > 0.0 {
        if y <= 1.0 {
            kernels::ln_1p_unit(y)
        } else {
            ln(1.0 + y)
        }
    } else if y == 0.0 {
        0.0
    } else {
        ln(1.0 + y)
    }
}
