// The kernels: a step of a table and a short polynomial each, by docs/MATH.md.
ghost use Rattle.std.specs.Prelude.{◌≡◌, ◌≤◌, ◌<◌, T, false};
ghost use Rattle.std.specs.Float.{inf};
ghost use Rattle.std.specs.Float.Ieee.{lt, le};
ghost use Rattle.rounding.specs.Grid.{cut};
ghost use Rattle.math.specs.Steps.{zero, half, one, end, grid64, grid128, fall as fallOf, exp_poly, ln_fall, ln_rise, exp_neg, ln_half, field, significand as significandOf, ln_down, ln_below, ln_above, ln_positive, ln1p_unit};

use std::f64::consts::LN_2;

// t cut down to a multiple of 1/64: adding 1.5 * 2^46 leaves no smaller digit.
fn cut64(t: f64) -> f64
    ensures { result ≡ cut grid64 t }
{
    ((t - 0.0078125) + 105553116266496.0) - 105553116266496.0
}

// The same for multiples of 1/128.
fn cut128(t: f64) -> f64
    ensures { result ≡ cut grid128 t }
{
    ((t - 0.00390625) + 52776558133248.0) - 52776558133248.0
}

// f - f^2/2 + c f^3 - w f^4. What the three series share is worked out side by side, so that few
// steps wait for each other: by Horner's rule exp took 1.4 times libm's latency, so 1.1.
fn fall(f: f64, c: f64, w: f64) -> f64
    ensures { result ≡ fallOf f c w }
{
    let s = f * f;
    f - s * ((0.5 - f * c) + s * w)
}

// e^-f to its fifth power.
fn exp_poly(f: f64) -> f64
    ensures { result ≡ exp_poly f }
{
    let w = 0.041666666666666664 - f * 0.008333333333333333;
    1.0 - fall(f, 0.16666666666666666, w)
}

// ln(1 + r) to its sixth power.
fn ln_fall(r: f64) -> f64
    ensures { result ≡ ln_fall r }
{
    let s = r * r;
    let w = (0.25 - r * 0.2) + s * 0.16666666666666666;
    fall(r, 0.3333333333333333, w)
}

// -ln(1 - s) to its sixth power.
fn ln_rise(s: f64) -> f64
    ensures { result ≡ ln_rise s }
{
    let q = s * s;
    s + q * ((0.5 + s * 0.3333333333333333) + q * ((0.25 + s * 0.2) + q * 0.16666666666666666))
}

// e^-t: t = 4i + j/64 + f, by a table for each of the first two parts.
pub fn exp_neg(t: f64) -> f64
    requires t { T (lt zero t) }
    requires t_2 { T (lt t end) }
    ensures { result ≡ exp_neg t }
{
    let a = cut64(t);
    let k = (a * 64.0) as u32;
    tables::lo(k % 256) * exp_poly(t - a) * tables::hi(k / 256)
}

// ln(1 + y): 1 + y = (1 + j/64)(1 + r). A division, and not a second table: two tables read at one
// index are fused into a jump by the compiler, and then ln_1p took 2.2 times libm's time, so 0.4.
pub fn ln_1p_unit(y: f64) -> f64
    requires t { T (lt zero y) }
    requires t_2 { T (le y one) }
    ensures { result ≡ ln1p_unit y }
{
    let a = cut64(y);
    let k = (a * 64.0) as u32;
    tables::log(k) + ln_fall((y - a) / (1.0 + a))
}

// -ln x: x = (1 - j/128)(1 - s).
fn ln_half(x: f64) -> f64
    requires t { T (le half x) }
    requires t_2 { T (le x one) }
    ensures { result ≡ ln_half x }
{
    let v = 1.0 - x;
    let a = cut128(v);
    let k = (a * 128.0) as u32;
    tables::mlog(k) + ln_rise((v - a) / (1.0 - a))
}

// The digits of a bit pattern, as a value from 1/2 up and below 1.
fn significand(b: u64) -> f64
    ensures value { result ≡ significandOf b }
    ensures t { T (le half result) }
    ensures t_2 { T (le result one) }
{
    f64::from_bits(b % 0x10_0000_0000_0000 + 0x3fe0_0000_0000_0000)
}

// -ln x for x = m * 2^(e - n) below 1/2, by the pattern b of m * 2^e.
fn ln_down(b: u64, n: u64) -> f64
    requires b_bound { field b ≤ n }
    requires n_bound { n < 1077 }
    ensures { result ≡ ln_down b n }
{
    let e = b / 0x10_0000_0000_0000;
    ((n - e) as f64) * LN_2 + ln_half(significand(b))
}

// ln x below 1/2. A subnormal is scaled by 2^54 first, which is exact.
fn ln_below(x: f64) -> f64
    requires t { T (lt zero x) }
    requires t_2 { T (lt x half) }
    ensures { result ≡ ln_below x }
{
    if x >= f64::MIN_POSITIVE {
        0.0 - ln_down(x.to_bits(), 1022)
    } else {
        0.0 - ln_down((x * 18014398509481984.0).to_bits(), 1076)
    }
}

// ln x above 1: x = m * 2^(e - 1022).
fn ln_above(x: f64) -> f64
    requires t { T (lt one x) }
    requires t_2 { T (lt x (inf false)) }
    ensures { result ≡ ln_above x }
{
    let b = x.to_bits();
    let e = b / 0x10_0000_0000_0000;
    ((e - 1022) as f64) * LN_2 - ln_half(significand(b))
}

// ln x for every x above 0. From 1/2 to 1 it is 0 - z and not -z, so that ln 1 is +0.
pub fn ln_positive(x: f64) -> f64
    requires { T (lt zero x) }
    ensures { result ≡ ln_positive x }
{
    if x < 0.5 {
        ln_below(x)
    } else if x <= 1.0 {
        0.0 - ln_half(x)
    } else if x < f64::INFINITY {
        ln_above(x)
    } else {
        f64::INFINITY
    }
}
