//! A differential transmission: two actuators move two joints together.

ghost use Rattle.std.specs.Prelude.{◌≡◌, ◌<ℤ◌, ◌≤◌, ◌*◌, ◌+ℤ◌, ◌-ℤ◌, pos, nat_abs};
ghost use Rattle.fixed_num.specs.Arithmetic.{floor_div};
ghost use Rattle.cm_model.specs.Transmissions.{IsMotion, less_offset, with_offset, to_actuators, to_joints};

use crate::exact::half;
use fixed_num::{Fx, LARGEST, MICRO};
use iface_names::Kind;
use std::marker::Model;

/// A differential between two actuators and two joints. Contracts see its numbers (`Pair`).
#[derive(Debug, Drop)]
pub struct Differential {
    kind: Kind,
    reductions: (Fx, Fx),
    offsets: (Fx, Fx),
}

impl Model for Differential {
    ghost use Rattle.cm_model.specs.Transmissions.{Pair, IsPair};

    ghost Value = { Pair };

    ghost view = { λ d. record { kind = d.kind; reductions = d.reductions; offsets = d.offsets } };

    ghost invariant = { λ d. IsPair (record { kind = d.kind; reductions = d.reductions; offsets = d.offsets }) };
}

impl Differential {
    /// A differential for values of this kind, with the reductions of the two actuators and the offsets of the two
    /// joints.
    pub fn make(kind: Kind, reductions: (Fx, Fx), offsets: (Fx, Fx)) -> Differential
        requires positive { (pos 0 <ℤ reductions.0) × (pos 0 <ℤ reductions.1) }
        requires motion { IsMotion kind }
        ensures { result ≡ record { kind = kind; reductions = reductions; offsets = offsets } }
    {
        Differential {
            kind,
            reductions,
            offsets,
        }
    }

    /// What the two actuators are told if the two joints are to have these values.
    pub fn to_actuators(&self, j1: Fx, j2: Fx) -> (Fx, Fx)
        ensures { result ≡ to_actuators self.now (j1, j2) }
    {
        let s = less_offset(self.kind, self.offsets.0, j1);
        let d = less_offset(self.kind, self.offsets.1, j2);
        (
            self.reductions.0.mul(s.add(d)),
            self.reductions.1.mul(s.sub(d)),
        )
    }

    /// Which values the two joints have if the two actuators have these.
    pub fn to_joints(&self, u1: Fx, u2: Fx) -> (Fx, Fx)
        ensures { result ≡ to_joints self.now (u1, u2) }
    {
        let b1 = u1.over(i64::from(MICRO), self.reductions.0.micro());
        let b2 = u2.over(i64::from(MICRO), self.reductions.1.micro());
        (
            by_half_sum(self.kind, self.offsets.0, b1, b2),
            by_half_difference(self.kind, self.offsets.1, b1, b2),
        )
    }
}

/// A joint's value less its offset, which a position alone has.
fn less_offset(kind: Kind, offset: Fx, r: Fx) -> Fx
    ensures { result ≡ less_offset kind offset r }
{
    match kind {
        Kind::Position => r.sub(offset),
        Kind::Velocity | Kind::Effort => r,
    }
}

/// The first joint's value: half the sum, with its offset.
fn by_half_sum(kind: Kind, offset: Fx, b1: Fx, b2: Fx) -> Fx
    ensures { result ≡ with_offset kind offset (floor_div (b1 +ℤ b2) (pos 2)) }
{
    with_offset(kind, offset, half(b1.micro() + b2.micro()))
}

/// The second joint's value: half the difference, with its offset.
fn by_half_difference(kind: Kind, offset: Fx, b1: Fx, b2: Fx) -> Fx
    ensures { result ≡ with_offset kind offset (floor_div (b1 -ℤ b2) (pos 2)) }
{
    with_offset(kind, offset, half(Fx::difference(b1, b2)))
}

/// A joint's value of so many micro-units and its offset, in the range.
fn with_offset(kind: Kind, offset: Fx, n: i64) -> Fx
    requires small { nat_abs n ≤ 2 * LARGEST }
    ensures { result ≡ with_offset kind offset n }
{
    match kind {
        Kind::Position => offset.shifted(n),
        Kind::Velocity | Kind::Effort => Fx::from_micro(n),
    }
}
