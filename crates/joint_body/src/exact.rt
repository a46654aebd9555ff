//! The arithmetic of a step, on whole micro-units. It is exact: a number is brought into the range or within a limit
//! where the name says so.

ghost use Rattle.std.specs.Prelude.{◌≡◌, ◌≤◌, ◌≤ℤ◌, ◌+ℤ◌, ◌*◌, pos, nat_abs};
ghost use Rattle.fixed_num.specs.Arithmetic.{floor_div, within, change_at};

use crate::LONGEST_STEP;
use fixed_num::{Fx, LARGEST, MICRO};

/// A number and a change of it, within a limit.
#[tactic(auto, using(crate::proofs::StepLemmas::ends))]
pub(crate) fn limited(number: Fx, change: i64, limit: Fx) -> Fx
    requires small { nat_abs change ≤ 2 * LARGEST }
    requires not_negative { pos 0 ≤ℤ limit }
    ensures { result ≡ within limit (number +ℤ change) }
{
    number.shifted(change).clamp(limit)
}

/// The nearest number from `-limit` to `limit`.
#[tactic(auto, unfolding(fixed_num::specs::Arithmetic::within))]
pub(crate) fn within(number: i64, limit: i64) -> i64
    requires { pos 0 ≤ℤ limit }
    ensures value { result ≡ within limit number }
    ensures no_more { nat_abs result ≤ nat_abs limit }
{
    number.clamp(-limit, limit)
}

/// What a rate in units a second adds up to. Nearly always the product fits 64 bits, which divide far faster than 128.
#[tactic(auto, using(crate::proofs::StepLemmas::sizes))]
pub(crate) fn change_at(rate: i64, dt_us: u32) -> i64
    requires { dt_us ≤ LONGEST_STEP }
    ensures value { result ≡ change_at rate dt_us }
    ensures no_more { nat_abs result ≤ nat_abs rate }
    ensures not_negative { pos 0 ≤ℤ rate → pos 0 ≤ℤ result }
{
    match rate.checked_mul(i64::from(dt_us)) {
        Some(product) => floor(product),
        None => wide_change_at(rate, dt_us),
    }
}

#[tactic(auto, unfolding(fixed_num::specs::Arithmetic::floor_div))]
fn floor(product: i64) -> i64
    ensures { result ≡ floor_div product (pos MICRO) }
{
    product.div_euclid(i64::from(MICRO))
}

#[tactic(auto, unfolding(fixed_num::specs::Arithmetic::floor_div))]
fn wide_change_at(rate: i64, dt_us: u32) -> i64
    requires { dt_us ≤ LONGEST_STEP }
    ensures { result ≡ change_at rate dt_us }
{
    (i128::from(rate) * i128::from(dt_us)).div_euclid(i128::from(MICRO)) as i64
}
