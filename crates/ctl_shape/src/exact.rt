//! Arithmetic of transmissions on whole micro-units. It is exact: a number is brought into the range where the name
//! says so.

ghost use Rattle.std.specs.Prelude.{◌≡◌, ◌<ℤ◌, ◌+ℤ◌, ◌*◌, ◌≤◌, pos, nat_abs};
ghost use Rattle.fixed_num.specs.Micro.{clamped};
ghost use Rattle.fixed_num.specs.Arithmetic.{floor_div};
ghost use Rattle.cm_model.specs.Transmissions.{quotient};

use fixed_num::{Fx, LARGEST, MICRO, floor, wide_floor};

/// An actuator's value divided by a reduction, rounded down. Nearly always the product fits 64 bits, which divide far
/// faster than 128.
#[tactic(auto, using(crate::proofs::TransmissionLemmas::sizes))]
pub(crate) fn quotient(u: Fx, reduction: Fx) -> i128
    requires positive { pos 0 <ℤ reduction }
    ensures value { result ≡ quotient reduction u }
    ensures small { nat_abs result ≤ LARGEST * MICRO }
{
    match u.micro().checked_mul(i64::from(MICRO)) {
        Some(product) => i128::from(floor(product, reduction.micro())),
        None => wide_floor(
            i128::from(u.micro()) * i128::from(MICRO),
            i128::from(reduction.micro()),
        ),
    }
}

/// A whole number of micro-units and an offset, in the range.
pub(crate) fn shifted(n: i128, offset: Fx) -> Fx
    requires small { nat_abs n ≤ LARGEST * MICRO }
    ensures { result ≡ clamped (n +ℤ offset) }
{
    Fx::from_wide(n + i128::from(offset.micro()))
}

/// The half of a sum of two numbers, rounded down.
#[tactic(auto, using(crate::proofs::TransmissionLemmas::half_no_more))]
pub(crate) fn half(sum: i64) -> i64
    ensures value { result ≡ floor_div sum (pos 2) }
    ensures no_more { nat_abs result ≤ nat_abs sum }
{
    floor(sum, 2)
}
