//! A limiter for the time between two updates.

ghost use Rattle.std.specs.Prelude.{◌≡◌, ◌≤ℤ◌};
ghost use Rattle.cm_model.specs.Limiters.{between};
ghost use Rattle.ctl_shape.specs.Limiters.{bounds_in};
ghost use Rattle.ctl_shape.specs.Controllers.{AreBounds, CanBeLed, IsLedTo, at_pace};

use crate::limiter::Limiter;
use crate::limits::{Limits, ends_in_range};
use fixed_num::{Fx, Value};
use std::marker::Model;

/// Limits, and what they come to in the time between two updates, which is worked out anew only when that time changes.
/// Contracts see the limits.
#[derive(Debug, Drop)]
pub(crate) struct Paced {
    limits: Limits,
    limiter: Limiter,
}

impl Model for Paced {
    ghost use Rattle.ctl_shape.specs.Controllers.{IsPaced};
    ghost use Rattle.ctl_shape.specs.declared.limits.Limits.{Limits};

    ghost Value = { Limits };

    ghost view = { λ p. p.limits };

    ghost invariant = { λ p. IsPaced p.limits p.limiter };
}

impl Paced {
    /// Limits that can be kept.
    pub(crate) fn make(limits: Limits) -> Paced
        requires { AreBounds (bounds_in limits) }
        ensures { result ≡ limits }
    {
        ends_in_range(&limits);
        Paced {
            limiter: Limiter::of(&limits),
            limits,
        }
    }

    /// The number brought between the ends.
    pub(crate) fn brought(&self, number: Fx) -> Fx
        ensures value { result ≡ between self.now.min self.now.max number }
        ensures above { self.now.min ≤ℤ result }
        ensures below { result ≤ℤ self.now.max }
    {
        self.limiter.brought(number)
    }

    /// The next place from one between the ends, after the last step: one new step further towards what is wanted. No
    /// time is longer than a second, so a step is a number of the range.
    pub(crate) fn advance(&mut self, dt_us: u32, at: Fx, last: Fx, wanted: Value) -> Fx
        requires { CanBeLed self.old at dt_us }
        ensures paced { self.new ≡ at_pace self.old dt_us }
        ensures next { IsLedTo (at_pace self.old dt_us) at last wanted result }
    {
        self.pace(dt_us);
        self.limiter.advance(at, last.micro(), wanted)
    }

    /// The time between two updates is this one.
    fn pace(&mut self, dt_us: u32)
        ensures { self.new ≡ at_pace self.old dt_us }
    {
        if self.limits.dt_us != dt_us {
            self.limits.dt_us = dt_us;
            self.limiter = Limiter::of(&self.limits);
        }
    }
}
