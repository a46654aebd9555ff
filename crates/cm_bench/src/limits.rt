//! An update of a limiter, beside one that looks for the new step as the rule says: at the wanted step, at those one
//! away from it, and so on.

ghost use Rattle.std.specs.Prelude.{◌≡◌, ◌≤◌, nat_abs};
ghost use Rattle.cm_model.specs.Limiters.{way_after, stops_in_time, is_feasible, new_step};
ghost use Rattle.cm_bench.specs.Shapes.{timed, IsOneOn, CanGoOn, one_so_far};

use crate::bodies::Contender;
use crate::cases::{HIGHEST, LOWEST, Stand};
use ctl_shape::{Limiter, Limits};
use fixed_num::{Fx, LARGEST, Value};
use std::marker::Model;

/// The longest step, in micro-units: a speed of a fifth of a unit a second comes to it in a millisecond.
pub(crate) const LONGEST: u64 = 200;

/// The largest change of a step, in micro-units: an acceleration of twenty units a second squared comes to it.
pub(crate) const CHANGE: u64 = 20;

const SPEED: i64 = 200_000;

const ACCELERATION: i64 = 20_000_000;

/// The time of an update in microseconds.
const TIME: u32 = 1000;

/// No step that is looked at is longer.
const FARTHEST: u64 = 100_000;

/// The limiter of `ctl_shape`.
#[derive(Drop)]
pub(crate) struct FastLimiter {
    limiter: Limiter,
}

impl Model for FastLimiter {
    ghost use Rattle.std.specs.Prelude.{◌≡◌};
    ghost use Rattle.cm_model.specs.Limiters.{Reach};
    ghost use Rattle.cm_bench.specs.Shapes.{timed};

    ghost Value = { Reach };

    ghost view = { λ s. s.limiter };

    ghost invariant = { λ s. s.limiter ≡ timed };
}

impl FastLimiter {
    pub fn make() -> FastLimiter {
        FastLimiter { limiter: limiter() }
    }
}

/// The limiter that is timed.
pub(crate) fn limiter() -> Limiter
    ensures { result ≡ timed }
{
    Limiter::of(&Limits {
        min: exact(LOWEST),
        max: exact(HIGHEST),
        vmax: exact(SPEED),
        amax: exact(ACCELERATION),
        dt_us: TIME,
    })
}

#[tactic(auto, unfolding(fixed_num::specs::Micro::clamped))]
fn exact(n: i64) -> Fx
    requires { nat_abs n ≤ LARGEST }
    ensures { result ≡ n }
{
    Fx::from_micro(n)
}

impl Contender<Stand> for FastLimiter {
    fn turn(&mut self, case: &Stand) -> i64
        ensures { IsOneOn case.now.at case.now.last case.now.wanted result }
    {
        self.limiter
            .advance(case.at, case.last, Value::Num(case.wanted))
            .micro()
    }
}

/// The limiter that looks for its step.
#[derive(Clone, Copy)]
pub(crate) struct PlainLimiter;

impl Contender<Stand> for PlainLimiter {
    fn turn(&mut self, case: &Stand) -> i64
        ensures { IsOneOn case.now.at case.now.last case.now.wanted result }
    {
        looked_for(case)
    }
}

/// The place that is one step further.
fn looked_for(case: &Stand) -> i64
    ensures { IsOneOn case.now.at case.now.last case.now.wanted result }
{
    let at = case.at.micro();
    let wanted = case.wanted.micro().min(HIGHEST).max(LOWEST) - at;
    at + searched(at, case.last, wanted)
}

/// The new step: of the feasible ones that which is nearest to the wanted one, and none if no step is feasible.
fn searched(at: i64, last: i64, wanted: i64) -> i64
    requires here { CanGoOn at last }
    requires near { nat_abs wanted ≤ 20_000 }
    ensures found { result ≡ new_step timed at last wanted }
    ensures small { nat_abs result ≤ FARTHEST }
{
    let most = wanted.unsigned_abs() + LONGEST;
    for far in 0..most + 1 {
        if let Some(step) = one_so_far(at, last, wanted, far) {
            return step;
        }
    }
    0
}

/// The feasible one of the two steps that are so far from the wanted one.
fn one_so_far(at: i64, last: i64, wanted: i64, far: u64) -> Option<i64>
    requires here { CanGoOn at last }
    requires near { nat_abs wanted ≤ 20_000 }
    requires no_farther { far ≤ 20_200 }
    ensures { result ≡ one_so_far at last wanted far }
{
    let less = wanted - far as i64;
    let more = wanted + far as i64;
    if is_feasible(at, last, less) {
        Some(less)
    } else if is_feasible(at, last, more) {
        Some(more)
    } else {
        None
    }
}

/// Whether a step is feasible.
fn is_feasible(at: i64, last: i64, step: i64) -> bool
    requires here { CanGoOn at last }
    requires small { nat_abs step ≤ FARTHEST }
    ensures { result ≡ is_feasible timed at last step }
{
    step.unsigned_abs() <= LONGEST
        && ((step - last).unsigned_abs() <= CHANGE
            && (stops(at + step, step) && (0 < CHANGE || step.unsigned_abs() == 0)))
}

/// Whether it can stop before the end to which it goes, after a step that led to this place.
fn stops(to: i64, step: i64) -> bool
    requires place { nat_abs to ≤ LARGEST }
    requires small { nat_abs step ≤ FARTHEST }
    ensures { result ≡ stops_in_time timed to step }
{
    let way = way(step.unsigned_abs()) as i64;
    if step < 0 {
        LOWEST <= to - way
    } else {
        to + way <= HIGHEST
    }
}

/// The way that is needed to stop after a step: each further one is shorter, as long as it can be.
fn way(step: u64) -> u64
    requires { step ≤ FARTHEST }
    ensures value { result ≡ way_after CHANGE step }
    ensures small { result ≤ LARGEST }
{
    let mut left = step;
    let mut sum = 0;
    for _turn in 0..step {
        left = left.saturating_sub(CHANGE);
        sum += left;
    }
    sum
}
