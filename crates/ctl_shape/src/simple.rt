//! A simple transmission: one actuator moves one joint.

ghost use Rattle.std.specs.Prelude.{◌≡◌, ◌<ℤ◌, pos};
ghost use Rattle.cm_model.specs.Transmissions.{to_actuator, to_joint};

use crate::exact::{quotient, shifted};
use fixed_num::{Fx, MICRO};
use iface_names::Kind;
use std::marker::Model;

/// A gear between an actuator and a joint. Contracts see its three numbers (`Gear`).
#[derive(Debug, Drop)]
pub struct Simple {
    kind: Kind,
    reduction: Fx,
    offset: Fx,
}

impl Model for Simple {
    ghost use Rattle.std.specs.Prelude.{◌<ℤ◌, pos};
    ghost use Rattle.cm_model.specs.Transmissions.{Gear};

    ghost Value = { Gear };

    ghost view = { λ s. record { kind = s.kind; reduction = s.reduction; offset = s.offset } };

    ghost invariant = { λ s. pos 0 <ℤ s.reduction };
}

impl Simple {
    /// A transmission for values of this kind, with its reduction and the position of the joint where the actuator's is
    /// nothing.
    pub fn make(kind: Kind, reduction: Fx, offset: Fx) -> Simple
        requires positive { pos 0 <ℤ reduction }
        ensures { result ≡ record { kind = kind; reduction = reduction; offset = offset } }
    {
        Simple {
            kind,
            reduction,
            offset,
        }
    }

    /// What the actuator is told if the joint is to have this value.
    pub fn to_actuator(&self, r: Fx) -> Fx
        ensures { result ≡ to_actuator self.now r }
    {
        match self.kind {
            Kind::Position => self.reduction.mul(r.sub(self.offset)),
            Kind::Velocity => self.reduction.mul(r),
            Kind::Effort => r.over(i64::from(MICRO), self.reduction.micro()),
        }
    }

    /// Which value the joint has if the actuator has this one.
    pub fn to_joint(&self, u: Fx) -> Fx
        ensures { result ≡ to_joint self.now u }
    {
        match self.kind {
            Kind::Position => shifted(quotient(u, self.reduction), self.offset),
            Kind::Velocity => u.over(i64::from(MICRO), self.reduction.micro()),
            Kind::Effort => self.reduction.mul(u),
        }
    }
}
