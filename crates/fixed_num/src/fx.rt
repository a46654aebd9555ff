//! `Fx`: a number with six decimals, from minus to plus a thousand million.

ghost use Rattle.std.specs.Prelude.{◌≡◌, ◌≤◌, ◌*◌, pos, nat_abs, ◌+ℤ◌, ◌-ℤ◌, ◌*ℤ◌, ◌<ℤ◌, ◌≤ℤ◌};
ghost use Rattle.fixed_num.specs.Micro.{IsInRange, clamped, units};
ghost use Rattle.fixed_num.specs.Arithmetic.{added, subtracted, multiplied, ratio, within, floor_div};

use crate::{LARGEST, MICRO, MOST_UNITS};
use std::marker::Model;

/// The largest number, in micro-units.
const TOP: i64 = LARGEST as i64;

/// A whole number of micro-units (millionths) from -10^15 to 10^15. Contracts see that whole number.
#[derive(Clone, Copy, Debug, PartialEq, Eq)]
pub struct Fx {
    micro: i64,
}

impl Model for Fx {
    ghost use Rattle.std.specs.Prelude.{ℤ};
    ghost use Rattle.fixed_num.specs.Micro.{IsInRange};

    ghost Value = { ℤ };

    ghost view = { λ s. s.micro };

    ghost invariant = { λ s. IsInRange s.micro };

    ghost inverse = { λ n. record { micro = n } };
}

impl Fx {
    /// Nothing.
    pub const ZERO: Fx = Fx { micro: 0 };

    /// One unit.
    pub const ONE: Fx = Fx {
        micro: MICRO as i64,
    };

    /// The largest number: a thousand million units.
    pub const MAX: Fx = Fx { micro: TOP };

    /// The number of `n` micro-units; past either end of the range it is that end.
    #[tactic(auto, unfolding(crate::specs::Micro::clamped))]
    pub fn from_micro(n: i64) -> Fx
        ensures { result ≡ clamped n }
    {
        Fx {
            micro: n.max(-TOP).min(TOP),
        }
    }

    /// The number of `n` whole units; None exactly where that is past an end of the range.
    #[tactic(auto, unfolding(crate::specs::Micro::clamped))]
    pub fn from_units(n: i64) -> Option<Fx>
        ensures { result ≡ units n }
    {
        let most = i64::from(MOST_UNITS);
        if n < -most || n > most {
            return None;
        }
        Some(Fx {
            micro: n * i64::from(MICRO),
        })
    }

    /// How many micro-units it is.
    pub fn micro(self) -> i64
        ensures same { result ≡ self }
        ensures range { IsInRange result }
    {
        self.micro
    }

    /// The sum; past either end of the range it is that end.
    pub fn add(self, other: Fx) -> Fx
        ensures { result ≡ added self other }
    {
        Fx::from_micro(self.micro + other.micro)
    }

    /// The difference; past either end of the range it is that end.
    pub fn sub(self, other: Fx) -> Fx
        ensures { result ≡ subtracted self other }
    {
        Fx::from_micro(self.micro - other.micro)
    }

    /// How many micro-units the one number is more than the other: exactly, also where that is past an end of the
    /// range.
    pub fn difference(more: Fx, less: Fx) -> i64
        ensures value { result ≡ more -ℤ less }
        ensures small { nat_abs result ≤ 2 * LARGEST }
    {
        more.micro - less.micro
    }

    /// The number that is `change` micro-units more; past either end of the range it is that end.
    #[tactic(auto, unfolding(crate::specs::Micro::clamped))]
    pub fn shifted(self, change: i64) -> Fx
        requires small { nat_abs change ≤ 2 * LARGEST }
        ensures value { result ≡ clamped (self +ℤ change) }
        ensures no_further { nat_abs (result -ℤ self) ≤ nat_abs change }
    {
        Fx::from_micro(self.micro + change)
    }

    /// The product, rounded down to whole micro-units; past either end of the range it is that end.
    pub fn mul(self, other: Fx) -> Fx
        ensures { result ≡ multiplied self other }
    {
        match self.micro.checked_mul(other.micro) {
            Some(product) => Fx::from_micro(floor(product, i64::from(MICRO))),
            None => Fx::from_wide(wide_ratio(self.micro, other.micro, i64::from(MICRO))),
        }
    }

    /// The number times `num` and divided by `den`, rounded down to whole micro-units; past either end of the range it
    /// is that end.
    pub fn over(self, num: i64, den: i64) -> Fx
        requires positive { pos 0 <ℤ den }
        ensures { result ≡ ratio self num den }
    {
        match self.micro.checked_mul(num) {
            Some(product) => Fx::from_micro(floor(product, den)),
            None => Fx::from_wide(wide_ratio(self.micro, num, den)),
        }
    }

    /// The nearest number from `-limit` to `limit`.
    #[tactic(auto, unfolding(crate::specs::Arithmetic::within))]
    pub fn clamp(self, limit: Fx) -> Fx
        requires not_negative { pos 0 ≤ℤ limit }
        ensures { result ≡ within limit self }
    {
        Fx {
            micro: self.micro.clamp(-limit.micro, limit.micro),
        }
    }
}

impl Fx {
    /// The number of `n` micro-units, which may be more than 64 bits hold; past either end of the range it is that end.
    #[tactic(auto, unfolding(crate::specs::Micro::clamped))]
    pub fn from_wide(n: i128) -> Fx
        ensures { result ≡ clamped n }
    {
        Fx {
            micro: n.max(-i128::from(TOP)).min(i128::from(TOP)) as i64,
        }
    }
}

/// The quotient, rounded down.
#[tactic(auto, unfolding(crate::specs::Arithmetic::floor_div))]
pub fn floor(product: i64, den: i64) -> i64
    requires positive { pos 0 <ℤ den }
    ensures { result ≡ floor_div product den }
{
    product.div_euclid(den)
}

/// The quotient of a product that does not fit 64 bits, rounded down. It stands apart, because a division of 128 bits
/// takes six times as long as one of 64.
#[tactic(auto, unfolding(crate::specs::Arithmetic::floor_div))]
pub fn wide_floor(product: i128, den: i128) -> i128
    requires positive { pos 0 <ℤ den }
    ensures { result ≡ floor_div product den }
{
    product.div_euclid(den)
}

fn wide_ratio(a: i64, num: i64, den: i64) -> i128
    requires positive { pos 0 <ℤ den }
    ensures { result ≡ floor_div (a *ℤ num) den }
{
    wide_floor(a as i128 * num as i128, den as i128)
}
