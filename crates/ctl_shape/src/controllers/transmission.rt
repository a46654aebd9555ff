//! The controller that tells an actuator, through a gear, what its joint is to do.

ghost use Rattle.std.specs.Prelude.{◌≡◌, true, pos, int_le};
ghost use Rattle.cm_model.specs.Controllers.{through};
ghost use Rattle.cm_model.specs.State.{fresh};
ghost use Rattle.cm_document.specs.declared.description.CtlKind.TheVariants as kind;

use crate::controllers::wanted::wanted_of;
use crate::simple::Simple;
use cm_document::{CtlKind, Mail, Params};
use cm_model::Tick;
use cm_storage::Done;
use ctl_trait::{CfgFault, Controller, only};
use fixed_num::{Fx, Value};
use iface_names::Kind;
use std::alloc::Global;

/// A transmission: it gives what its actuator is to do for its reference where it is chained, else for the value that
/// it was sent last. Where that is unset, so is its output.
#[derive(Debug, Drop)]
pub struct TransmissionCtl {
    kept: Option<Geared>,
}

/// What a configured transmission keeps.
#[derive(Debug, Drop)]
struct Geared {
    gear: Simple,
    run: Option<SetOne>,
}

/// What it keeps while it runs.
#[derive(Clone, Copy, Debug)]
struct SetOne {
    chained: bool,
    set: Value,
}

impl TransmissionCtl {
    /// A transmission that is not configured.
    pub fn blank() -> TransmissionCtl
        ensures { ⟦<TransmissionCtl as Controller>⟧.meaning result ≡ fresh kind.Transmission }
    {
        TransmissionCtl { kept: None }
    }
}

impl Controller for TransmissionCtl {
    ghost use Rattle.ctl_shape.specs.Controllers.{transmission_data};

    ghost meaning = { λ c. transmission_data c.kept };

    fn kind(&self) -> CtlKind {
        CtlKind::Transmission
    }

    fn configure(&mut self, _alloc: Global, params: &Params) -> Result<(), CfgFault> {
        let Params::Transmission {
            kind,
            reduction,
            offset,
        } = params
        else {
            unreachable!()
        };
        self.kept = Some(Geared {
            gear: gear_by(*kind, *reduction, *offset),
            run: None,
        });
        Ok(())
    }

    fn ready(&self, _cycle: u64) -> bool {
        true
    }

    fn activate(&mut self, _states: &[Fx], chained: bool) {
        if let Some(kept) = &mut self.kept {
            kept.run = Some(SetOne {
                chained,
                set: Value::Unset,
            });
        }
    }

    fn take(&mut self, mail: Mail) {
        if let (Some(Geared { run: Some(run), .. }), Mail::Values(values)) = (
            &mut self.kept,
            &mail,
        ) {
            run.set = Value::Num(only(values.as_slice()));
        }
    }

    fn update(&mut self, _tick: Tick, _states: &[Fx], refs: &[Value], outs: &mut [Value]) -> Done {
        if let Some(
            Geared {
                gear,
                run: Some(run),
            },
        ) = &self.kept
        {
            // It has one claim.
            let wanted = wanted_of(run.chained, run.set, only(refs));
            outs.fill(through(gear, wanted));
        }
        Done::Ok
    }

    fn deactivate(&mut self) {
        if let Some(kept) = &mut self.kept {
            kept.run = None;
        }
    }

    fn cleanup(&mut self) {
        self.kept = None;
    }
}

/// The gear of a reduction that is in its range.
fn gear_by(kind: Kind, reduction: Fx, offset: Fx) -> Simple
    requires { int_le (pos 1) reduction ≡ true }
    ensures { result ≡ record { kind = kind; reduction = reduction; offset = offset } }
{
    Simple::make(kind, reduction, offset)
}

/// What the actuator is told.
fn through(gear: &Simple, wanted: Value) -> Value
    ensures { result ≡ through gear.now wanted }
{
    match wanted {
        Value::Num(r) => Value::Num(gear.to_actuator(r)),
        Value::Unset => Value::Unset,
    }
}
