//! A limiter: how a position goes on within limits, step by step.

ghost use Rattle.std.specs.Prelude.{◌≡◌, ◌*◌, ◌≤◌, ◌≤ℤ◌, ◌+ℤ◌, ◌-ℤ◌, pos, nat_abs};
ghost use Rattle.fixed_num.specs.Micro.{IsInRange};
ghost use Rattle.cm_model.specs.Limiters.{brought, wanted_step};
ghost use Rattle.ctl_shape.specs.Limiters.{IsNewStep, reach_in};
ghost use Rattle.ctl_shape.specs.Capped.{capped, IsCapped};
ghost use Rattle.ctl_shape.specs.Calls.Steps.{CanStep, CanCut, AreAllowed, IsCut};

use crate::limits::{Limits, ends_in_range};
use crate::way::{come_to, farthest_to};
use fixed_num::{Fx, LARGEST, MICRO, Value};
use std::marker::Model;

/// No step between two ends is longer than this many micro-units.
pub(crate) const LONGEST_STEP: u64 = 2 * LARGEST;

/// No two steps between two ends differ by more than this many micro-units.
pub(crate) const LARGEST_CHANGE: u64 = 4 * LARGEST;

/// The ends of a position, how long a step may be, and by how much it may differ from the one before. Contracts see
/// these (`Reach`).
#[derive(Debug, Drop)]
pub struct Limiter {
    lowest: Fx,
    highest: Fx,
    longest: u64,
    change: u64,
}

impl Model for Limiter {
    ghost use Rattle.ctl_shape.specs.Capped.{IsCapped};
    ghost use Rattle.cm_model.specs.Limiters.{Reach};

    ghost Value = { Reach };

    ghost view = { λ s.
        record { lowest = s.lowest; highest = s.highest; longest = s.longest; change = s.change } };

    ghost invariant = { λ s.
        IsCapped
        (record { lowest = s.lowest; highest = s.highest; longest = s.longest; change = s.change }) };
}

impl Limiter {
    /// What these limits come to in the time of one update. Limits that are too large to matter are cut (`capped`).
    pub fn of(limits: &Limits) -> Limiter
        requires speed { pos 0 ≤ℤ limits.now.vmax }
        requires acceleration { pos 0 ≤ℤ limits.now.amax }
        ensures value { result ≡ capped (reach_in limits.now) }
        ensures cut { IsCapped result }
    {
        ends_in_range(limits);
        let time = u64::from(limits.dt_us);
        let unit = u64::from(MICRO);
        Limiter {
            lowest: limits.min,
            highest: limits.max,
            longest: come_to(limits.vmax, time, unit, LONGEST_STEP),
            change: come_to(limits.amax, time * time, unit * unit, LARGEST_CHANGE),
        }
    }

    /// The number brought between the ends.
    pub fn brought(&self, number: Fx) -> Fx
        requires ordered { self.now.lowest ≤ℤ self.now.highest }
        ensures value { result ≡ brought self.now number }
        ensures above { self.now.lowest ≤ℤ result }
        ensures below { result ≤ℤ self.now.highest }
    {
        if number.micro() < self.lowest.micro() {
            self.lowest
        } else if number.micro() > self.highest.micro() {
            self.highest
        } else {
            number
        }
    }

    /// The next place from one between the ends, after the last step: one new step further towards what is wanted.
    pub fn advance(&self, at: Fx, last: i64, wanted: Value) -> Fx
        requires { CanStep self.now at last }
        ensures step { IsNewStep self.now at last (wanted_step self.now at wanted) (result -ℤ at) }
        ensures above { self.now.lowest ≤ℤ result }
        ensures below { result ≤ℤ self.now.highest }
    {
        let wanted = self.wanted_step(at, wanted);
        at.shifted(self.new_step(at, last, wanted))
    }

    /// The step to what is wanted, brought between the ends, and none if nothing is wanted.
    fn wanted_step(&self, at: Fx, wanted: Value) -> i64
        requires above { self.now.lowest ≤ℤ at }
        requires below { at ≤ℤ self.now.highest }
        ensures step { result ≡ wanted_step self.now at wanted }
        ensures small { nat_abs result ≤ 2 * LARGEST }
    {
        match wanted {
            Value::Unset => 0,
            Value::Num(r) => Fx::difference(self.brought(r), at),
        }
    }

    /// The new step: the feasible step that is nearest to the wanted one, and none if no step is feasible.
    #[tactic(auto, using(crate::proofs::StepLemmas::still_is_new))]
    pub fn new_step(&self, at: Fx, last: i64, wanted: i64) -> i64
        requires { CanStep self.now at last }
        ensures step { IsNewStep self.now at last wanted result }
        ensures small { nat_abs result ≤ 2 * LARGEST }
        ensures lands { IsInRange (at +ℤ result) }
    {
        if self.change == 0 {
            return 0;
        }
        let (least, most) = self.allowed(last);
        if least > most {
            return 0;
        }
        let step = self.cut(at, wanted.max(least).min(most));
        if step < least {
            return 0;
        }
        if step > most {
            return 0;
        }
        step
    }

    /// The longest steps, down and up, that speed and change allow.
    fn allowed(&self, last: i64) -> (i64, i64)
        requires { nat_abs last ≤ 2 * LARGEST }
        ensures { AreAllowed self.now last result.0 result.1 }
    {
        let longest = self.longest as i64;
        let change = self.change as i64;
        ((-longest).max(last - change), longest.min(last + change))
    }

    /// The step that is nearest to the tried one, of those that can stop before the end to which they go.
    fn cut(&self, at: Fx, tried: i64) -> i64
        requires { CanCut self.now at tried }
        ensures nearest { IsCut self.now at tried result }
        ensures small { nat_abs result ≤ 2 * LARGEST }
    {
        let size = tried.unsigned_abs();
        if tried < 0 {
            -(farthest_to(size, gap(at, self.lowest), self.change) as i64)
        } else {
            farthest_to(size, gap(self.highest, at), self.change) as i64
        }
    }
}

/// How many micro-units the one number is more than the other.
fn gap(more: Fx, less: Fx) -> u64
    requires { less ≤ℤ more }
    ensures value { pos result ≡ more -ℤ less }
    ensures small { result ≤ LONGEST_STEP }
{
    Fx::difference(more, less) as u64
}
