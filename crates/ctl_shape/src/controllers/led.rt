//! A position that is led within limits.

ghost use Rattle.std.specs.Prelude.{◌≡◌, ◌≤◌, Some, None, option_map, IfSome};
ghost use Rattle.ctl_shape.specs.Limiters.{bounds_in};
ghost use Rattle.ctl_shape.specs.Controllers.{AreBounds, begun, with_set, IsLedOn};

use crate::controllers::paced::Paced;
use crate::controllers::wanted::wanted_of;
use crate::limits::Limits;
use cm_model::LONGEST_PERIOD;
use fixed_num::{Fx, Value};
use std::marker::Model;

/// What a configured limiter keeps: its limits, and while it runs, where it has led. Contracts see both (`Limited`).
#[derive(Debug, Drop)]
pub(crate) struct LedLimiter {
    paced: Paced,
    run: Option<Led>,
}

/// What it keeps while it runs.
#[derive(Clone, Copy, Debug)]
struct Led {
    chained: bool,
    set: Value,
    at: Fx,
    step: Fx,
}

impl Model for LedLimiter {
    ghost use Rattle.ctl_shape.specs.Controllers.{Limited, IsLimited};

    ghost Value = { Limited };

    ghost view = { λ k. record { limits = k.paced; run = k.run } };

    ghost invariant = { λ k. IsLimited (record { limits = k.paced; run = k.run }) };
}

impl LedLimiter {
    /// Limits that can be kept; it does not run.
    pub(crate) fn make(limits: Limits) -> LedLimiter
        requires { AreBounds (bounds_in limits) }
        ensures { result ≡ record { limits = limits; run = None } }
    {
        LedLimiter {
            paced: Paced::make(limits),
            run: None,
        }
    }

    /// It runs from this place, brought between the ends.
    pub(crate) fn start(&mut self, state: Fx, chained: bool)
        ensures { self.new ≡ record { limits = self.old.limits; run = Some (begun self.old.limits state chained) } }
    {
        self.run = Some(Led {
            chained,
            set: Value::Unset,
            at: self.paced.brought(state),
            step: Fx::ZERO,
        });
    }

    /// It does not run any more.
    pub(crate) fn stop(&mut self)
        ensures { self.new ≡ record { limits = self.old.limits; run = None } }
    {
        self.run = None;
    }

    /// This value is set.
    pub(crate) fn set(&mut self, value: Fx)
        ensures { self.new ≡ record {
          limits = self.old.limits;
          run = option_map (with_set value) self.old.run;
        } }
    {
        if let Some(led) = &mut self.run {
            led.set = Value::Num(value);
        }
    }

    /// One step further, to the reference where it is chained, else to the value that was set: where it has led then.
    pub(crate) fn update(&mut self, dt_us: u32, reference: Value) -> Value
        requires no_longer { dt_us ≤ LONGEST_PERIOD }
        ensures { IfSome self.old.run (IsLedOn self.old self.new dt_us reference result) }
    {
        let Some(led) = self.run else {
            return Value::Unset;
        };
        let wanted = wanted_of(led.chained, led.set, reference);
        let at = self.paced.advance(dt_us, led.at, led.step, wanted);
        self.run = Some(Led {
            at,
            step: at.sub(led.at),
            ..led
        });
        Value::Num(at)
    }
}
