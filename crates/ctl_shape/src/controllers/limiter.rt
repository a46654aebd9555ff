//! The controller that leads a position to where it is wanted, within limits.

ghost use Rattle.std.specs.Prelude.{◌≡◌, ◌&&◌, true, pos, int_le, None};
ghost use Rattle.cm_model.specs.State.{fresh};
ghost use Rattle.cm_document.specs.declared.description.CtlKind.TheVariants as kind;

use crate::controllers::led::LedLimiter;
use crate::limits::Limits;
use cm_document::{CtlKind, Mail, Params};
use cm_model::Tick;
use cm_storage::Done;
use ctl_trait::{CfgFault, Controller, only};
use fixed_num::{Fx, Value};
use std::alloc::Global;

/// A limiter: it leads its claim, step by step, to its reference where it is chained, else to the value that it was
/// sent last. Where that is unset, it slows down and stands. It begins where its state is.
#[derive(Debug, Drop)]
pub struct LimiterCtl {
    kept: Option<LedLimiter>,
}

impl LimiterCtl {
    /// A limiter that is not configured.
    pub fn blank() -> LimiterCtl
        ensures { ⟦<LimiterCtl as Controller>⟧.meaning result ≡ fresh kind.Limiter }
    {
        LimiterCtl { kept: None }
    }
}

impl Controller for LimiterCtl {
    ghost use Rattle.ctl_shape.specs.Controllers.{limiter_data};

    ghost meaning = { λ c. limiter_data c.kept };

    fn kind(&self) -> CtlKind {
        CtlKind::Limiter
    }

    fn configure(&mut self, _alloc: Global, params: &Params) -> Result<(), CfgFault> {
        let Params::Limiter {
            min,
            max,
            vmax,
            amax,
        } = params
        else {
            unreachable!()
        };
        self.kept = Some(kept_by(*min, *max, *vmax, *amax));
        Ok(())
    }

    fn ready(&self, _cycle: u64) -> bool {
        true
    }

    fn activate(&mut self, states: &[Fx], chained: bool) {
        if let Some(kept) = &mut self.kept {
            kept.start(only(states), chained);
        }
    }

    fn take(&mut self, mail: Mail) {
        if let (Some(kept), Mail::Values(values)) = (&mut self.kept, &mail) {
            kept.set(only(values.as_slice()));
        }
    }

    fn update(&mut self, tick: Tick, _states: &[Fx], refs: &[Value], outs: &mut [Value]) -> Done {
        if let Some(kept) = &mut self.kept {
            // It has one claim.
            outs.fill(kept.update(tick.dt_us, only(refs)));
        }
        Done::Ok
    }

    fn deactivate(&mut self) {
        if let Some(kept) = &mut self.kept {
            kept.stop();
        }
    }

    fn cleanup(&mut self) {
        self.kept = None;
    }
}

/// A limiter of parameters that are in their ranges. Before its first update no time has passed.
fn kept_by(min: Fx, max: Fx, vmax: Fx, amax: Fx) -> LedLimiter
    requires { (int_le min max && (int_le (pos 0) vmax && int_le (pos 0) amax)) ≡ true }
    ensures { result ≡ record {
      limits = record { min = min; max = max; vmax = vmax; amax = amax; dt_us = 0 };
      run = None;
    } }
{
    LedLimiter::make(Limits {
        min,
        max,
        vmax,
        amax,
        dt_us: 0,
    })
}
