// Numbers as bits, and the next number up. The order and rounding laws of binary64 are in proofs/.
#![tactic(auto)]

ghost use Rattle.std.specs.Prelude.{◌≡◌};
ghost use Rattle.std.specs.Float.{binary64};
ghost use Rattle.std.specs.Float.Ieee.{of_bits, to_bits};
ghost use Rattle.floats.specs.Next.{next_up};

use std::num::{f64_from_bits_with_nan, f64_to_bits_with_nan};

// The bits of x. A NaN in compiled code may have any of its patterns, so one is fixed here.
pub fn to_bits(x: f64) -> u64
    ensures { result ≡ to_bits binary64 x }
{
    f64_to_bits_with_nan(x)
}

// The number that the bits stand for; `f64::from_bits` is not defined at the patterns of a NaN.
pub fn from_bits(b: u64) -> f64
    ensures { result ≡ of_bits binary64 b }
{
    f64_from_bits_with_nan(b)
}

// The least number above x; +∞ and a NaN stay.
#[tactic(auto, using(crate::proofs::Library::as_library))]
pub fn next_up(x: f64) -> f64
    ensures { result ≡ next_up binary64 x }
{
    x.next_up()
}
