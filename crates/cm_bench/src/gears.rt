//! What an actuator is told through a gear, beside one whose arithmetic is all by 128 bits.

ghost use Rattle.std.specs.Prelude.{◌≡◌};
ghost use Rattle.fixed_num.specs.Arithmetic.{subtracted};
ghost use Rattle.cm_model.specs.Transmissions.{to_actuator};

use crate::bodies::Contender;
use crate::plain::{in_range, plain_mul, plain_over};
use ctl_shape::Simple;
use fixed_num::{Fx, MICRO};
use iface_names::Kind;
use std::marker::Model;

/// The reduction of both, fifty turns for one, and their offset, a tenth.
const REDUCTION: i64 = 50_000_000;

const OFFSET: i64 = 100_000;

/// The transmission of `ctl_shape`.
#[derive(Drop)]
pub(crate) struct FastGear {
    gear: Simple,
}

impl Model for FastGear {
    ghost use Rattle.cm_model.specs.Transmissions.{Gear};

    ghost Value = { Gear };

    ghost view = { λ s. s.gear };
}

impl FastGear {
    #[tactic(auto, unfolding(fixed_num::specs::Micro::clamped))]
    pub fn make() -> FastGear {
        FastGear {
            gear: Simple::make(
                Kind::Position,
                Fx::from_micro(REDUCTION),
                Fx::from_micro(OFFSET),
            ),
        }
    }
}

impl Contender<Fx> for FastGear {
    fn turn(&mut self, joint: &Fx) -> i64
        ensures { result ≡ to_actuator self.old joint.now }
    {
        self.gear.to_actuator(*joint).micro()
    }
}

/// The transmission that does without `ctl_shape`.
#[derive(Drop)]
pub(crate) struct PlainGear {
    kind: Kind,
    reduction: Fx,
    offset: Fx,
}

impl Model for PlainGear {
    ghost use Rattle.std.specs.Prelude.{◌<ℤ◌, pos};
    ghost use Rattle.cm_model.specs.Transmissions.{Gear};

    ghost Value = { Gear };

    ghost view = { λ s. record { kind = s.kind; reduction = s.reduction; offset = s.offset } };

    ghost invariant = { λ s. pos 0 <ℤ s.reduction };
}

impl PlainGear {
    #[tactic(auto, unfolding(fixed_num::specs::Micro::clamped))]
    pub fn make() -> PlainGear {
        PlainGear {
            kind: Kind::Position,
            reduction: Fx::from_micro(REDUCTION),
            offset: Fx::from_micro(OFFSET),
        }
    }

    fn told(&self, joint: Fx) -> Fx
        ensures { result ≡ to_actuator self.now joint }
    {
        match self.kind {
            Kind::Position => plain_mul(self.reduction, less(joint, self.offset)),
            Kind::Velocity => plain_mul(self.reduction, joint),
            Kind::Effort => plain_over(joint, i64::from(MICRO), self.reduction.micro()),
        }
    }
}

impl Contender<Fx> for PlainGear {
    fn turn(&mut self, joint: &Fx) -> i64
        ensures { result ≡ to_actuator self.old joint.now }
    {
        self.told(*joint).micro()
    }
}

/// The difference of two numbers.
fn less(number: Fx, offset: Fx) -> Fx
    ensures { result ≡ subtracted number offset }
{
    in_range(i128::from(number.micro()) - i128::from(offset.micro()))
}
