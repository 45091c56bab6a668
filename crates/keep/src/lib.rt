// How many pieces a round of pruning keeps.
//
// Document 01: "The count kept is pieces times `shrink_factor`, rounded once, then cut toward zero, NaN and negatives to 0, too
// large to the largest; then not below target." In 001 that is `((pieces.len() as f64 * shrink_factor) as usize).max(target)`.
// The count goes in as the nearest f64, which is the count itself below 2^53, so that only the product rounds. The cast back is
// worked out here, with the cases that a plain cast has no answer for: document 01 asks for "a worked-out truncation to a whole
// number", so the library's saturating cast does not stand for it.
#![tactic(auto)]

ghost use Rattle.std.specs.Prelude.{◌≡◌};
ghost use Rattle.keep.specs.Keep.{whole_of, keep_of};

use std::num::{nearest_usize_to_f64, truncating_f64_to_u64};

// A number without its fraction: NaN and negatives give 0, one that is too large gives the largest.
pub fn whole(x: f64) -> u64
    ensures { result ≡ whole_of x }
{
    // No NaN passes this test, and what it stops that is a number is -1 or less.
    if x > -1.0 {
        if x < 18446744073709551616.0 {
            return truncating_f64_to_u64(x);
        }
        return u64::MAX;
    }
    0
}

// The count kept of so many pieces.
pub fn keep(pieces: usize, shrink_factor: f64, target: usize) -> usize
    ensures { result ≡ keep_of pieces shrink_factor target }
{
    let product = nearest_usize_to_f64(pieces) * shrink_factor;
    (whole(product) as usize).max(target)
}
