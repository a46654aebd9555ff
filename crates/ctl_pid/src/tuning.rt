//! The formulas of a pid, on whole micro-units. They are exact: a number is brought into the range or within a limit
//! only where a formula says so, or where the formula comes to the same.

ghost use Rattle.std.specs.Prelude.{◌≡◌, ◌≤◌, ◌≤ℤ◌, ◌+ℤ◌, pos, true, ◌&&◌};
ghost use Rattle.fixed_num.specs.Arithmetic.{change_at, within};
ghost use Rattle.cm_document.specs.Valid.{not_negative};
ghost use Rattle.cm_model.specs.Pids.{error_of, integrated, derivative_of, corrected};

use cm_model::LONGEST_PERIOD;
use fixed_num::Fx;
use std::marker::Model;

/// How many micro-units a unit has, and microseconds a second.
const MICRO: i64 = fixed_num::MICRO as i64;

/// What a pid is tuned by. Neither limit is negative. Contracts see the five numbers (`Tuning`).
#[derive(Clone, Copy, Debug)]
pub(crate) struct Tuning {
    kp: Fx,
    ki: Fx,
    kd: Fx,
    imax: Fx,
    omax: Fx,
}

impl Model for Tuning {
    ghost use Rattle.cm_model.specs.Pids.{Tuning};
    ghost use Rattle.ctl_pid.specs.Limits.{HasLimits};

    ghost Value = { Tuning };

    ghost view = { λ t. record { kp = t.kp; ki = t.ki; kd = t.kd; imax = t.imax; omax = t.omax } };

    ghost invariant = { λ t.
        HasLimits (record { kp = t.kp; ki = t.ki; kd = t.kd; imax = t.imax; omax = t.omax }) };

    ghost inverse = { λ t. record { kp = t.kp; ki = t.ki; kd = t.kd; imax = t.imax; omax = t.omax } };
}

impl Tuning {
    /// The gains of the error, of its integral and of its derivative, and the limits of the integral and of the output.
    pub(crate) fn make(kp: Fx, ki: Fx, kd: Fx, imax: Fx, omax: Fx) -> Tuning
        requires { (not_negative imax && not_negative omax) ≡ true }
        ensures { result ≡ record { kp = kp; ki = ki; kd = kd; imax = imax; omax = omax } }
    {
        Tuning {
            kp,
            ki,
            kd,
            imax,
            omax,
        }
    }

    /// The integral after the error has lasted for the time.
    pub(crate) fn integrated(self, integral: Fx, error: Fx, dt_us: u32) -> Fx
        requires { dt_us ≤ LONGEST_PERIOD }
        ensures { result ≡ integrated self integral error dt_us }
    {
        limited(sum_of_two(integral, change_at(error, dt_us)), self.imax)
    }

    /// The output, from the error, its integral and its derivative.
    pub(crate) fn corrected(self, error: Fx, integral: Fx, derivative: Fx) -> Fx
        ensures { result ≡ corrected self error integral derivative }
    {
        let by_error = self.kp.mul(error);
        let by_integral = self.ki.mul(integral);
        let by_derivative = self.kd.mul(derivative);
        sum_within(by_error, by_integral, by_derivative, self.omax)
    }
}

/// How far what is read lies below what is wanted.
pub(crate) fn error_of(wanted: Fx, state: Fx) -> Fx
    ensures { result ≡ error_of wanted state }
{
    wanted.sub(state)
}

/// The rate at which the error changed since the update before. A difference past the range has a rate past it, since
/// no time is longer than a second.
#[tactic(auto, using(crate::proofs::LoopLemmas::exact))]
pub(crate) fn derivative_of(last: Option<Fx>, error: Fx, dt_us: u32) -> Fx
    requires some_time { 1 ≤ dt_us }
    requires no_longer { dt_us ≤ LONGEST_PERIOD }
    ensures { result ≡ derivative_of last error dt_us }
{
    match last {
        Some(last) => error.sub(last).over(MICRO, i64::from(dt_us)),
        None => Fx::ZERO,
    }
}

/// What an error adds up to, which is no more than the error, since no time is longer than a second.
#[tactic(auto, using(crate::proofs::LoopLemmas::exact))]
fn change_at(error: Fx, dt_us: u32) -> Fx
    requires { dt_us ≤ LONGEST_PERIOD }
    ensures { result ≡ change_at error dt_us }
{
    error.over(i64::from(dt_us), MICRO)
}

fn sum_of_two(a: Fx, b: Fx) -> i64
    ensures { result ≡ a +ℤ b }
{
    a.micro() + b.micro()
}

fn sum_of_three(a: Fx, b: Fx, c: Fx) -> i64
    ensures { result ≡ (a +ℤ b) +ℤ c }
{
    a.micro() + b.micro() + c.micro()
}

/// The sum of three numbers, within a limit.
fn sum_within(a: Fx, b: Fx, c: Fx, limit: Fx) -> Fx
    requires { pos 0 ≤ℤ limit }
    ensures { result ≡ within limit ((a +ℤ b) +ℤ c) }
{
    limited(sum_of_three(a, b, c), limit)
}

/// The nearest number from `-limit` to `limit`.
#[tactic(auto, using(crate::proofs::LoopLemmas::exact))]
fn limited(sum: i64, limit: Fx) -> Fx
    requires { pos 0 ≤ℤ limit }
    ensures { result ≡ within limit sum }
{
    Fx::from_micro(sum).clamp(limit)
}
