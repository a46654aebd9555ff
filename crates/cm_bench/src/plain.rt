//! The plain bodies: each as its contract reads, its result under the clause of the call that it stands beside.

ghost use Rattle.std.specs.Prelude.{◌≡◌, pos, ◌*ℤ◌, ◌<ℤ◌};
ghost use Rattle.fixed_num.specs.Micro.{clamped};
ghost use Rattle.fixed_num.specs.Arithmetic.{multiplied, ratio, floor_div};

use fixed_num::{Fx, LARGEST, MICRO};

/// The largest number, in micro-units.
const TOP: i128 = LARGEST as i128;

/// The product, always by 128 bits.
pub(crate) fn plain_mul(left: Fx, right: Fx) -> Fx
    ensures { result ≡ multiplied left right }
{
    in_range(quotient(left.micro(), right.micro(), i64::from(MICRO)))
}

/// The number times `num` and divided by `den`, always by 128 bits.
pub(crate) fn plain_over(number: Fx, num: i64, den: i64) -> Fx
    requires positive { pos 0 <ℤ den }
    ensures { result ≡ ratio number num den }
{
    in_range(quotient(number.micro(), num, den))
}

/// The product of two numbers divided by a third, rounded down.
fn quotient(left: i64, right: i64, den: i64) -> i128
    requires positive { pos 0 <ℤ den }
    ensures { result ≡ floor_div (left *ℤ right) den }
{
    floor(left as i128 * right as i128, den as i128)
}

#[tactic(auto, unfolding(fixed_num::specs::Arithmetic::floor_div))]
fn floor(product: i128, den: i128) -> i128
    requires positive { pos 0 <ℤ den }
    ensures { result ≡ floor_div product den }
{
    product.div_euclid(den)
}

/// The nearest number of the range.
#[tactic(auto, unfolding(fixed_num::specs::Micro::clamped))]
pub(crate) fn in_range(n: i128) -> Fx
    ensures { result ≡ clamped n }
{
    Fx::from_micro(n.max(-TOP).min(TOP) as i64)
}
