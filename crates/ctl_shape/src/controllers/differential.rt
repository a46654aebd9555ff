//! The controller that tells two actuators what the two joints are to do that they move together.

ghost use Rattle.std.specs.Prelude.{◌≡◌, ◌&&◌, true, pos, int_le, [], ◌∷◌};
ghost use Rattle.cm_document.specs.Params.{is_motion};
ghost use Rattle.cm_model.specs.Controllers.{through_both, wanted};
ghost use Rattle.cm_model.specs.State.{fresh};
ghost use Rattle.cm_document.specs.declared.description.CtlKind.TheVariants as kind;

use crate::differential::Differential;
use cm_document::{CtlKind, Mail, Params};
use cm_model::Tick;
use cm_storage::Done;
use ctl_trait::{CfgFault, Controller, both};
use fixed_num::{Fx, Value};
use iface_names::Kind;
use std::alloc::Global;

/// A differential: it gives what its two actuators are to do for its references where it is chained, else for the
/// values that it was sent last. Where one of the two is unset, so are both outputs.
#[derive(Debug, Drop)]
pub struct DifferentialCtl {
    kept: Option<Coupled>,
}

/// What a configured differential keeps.
#[derive(Debug, Drop)]
struct Coupled {
    pair: Differential,
    run: Option<SetTwo>,
}

/// What it keeps while it runs.
#[derive(Clone, Copy, Debug)]
struct SetTwo {
    chained: bool,
    first: Value,
    second: Value,
}

impl DifferentialCtl {
    /// A differential that is not configured.
    pub fn blank() -> DifferentialCtl
        ensures { ⟦<DifferentialCtl as Controller>⟧.meaning result ≡ fresh kind.Differential }
    {
        DifferentialCtl { kept: None }
    }
}

impl Controller for DifferentialCtl {
    ghost use Rattle.ctl_shape.specs.Controllers.{differential_data};

    ghost meaning = { λ c. differential_data c.kept };

    fn kind(&self) -> CtlKind {
        CtlKind::Differential
    }

    fn configure(&mut self, _alloc: Global, params: &Params) -> Result<(), CfgFault> {
        let Params::Differential {
            kind,
            reduction1,
            reduction2,
            offset1,
            offset2,
        } = params
        else {
            unreachable!()
        };
        self.kept = Some(Coupled {
            pair: pair_by(*kind, (*reduction1, *reduction2), (*offset1, *offset2)),
            run: None,
        });
        Ok(())
    }

    fn ready(&self, _cycle: u64) -> bool {
        true
    }

    fn activate(&mut self, _states: &[Fx], chained: bool) {
        if let Some(kept) = &mut self.kept {
            kept.run = Some(SetTwo {
                chained,
                first: Value::Unset,
                second: Value::Unset,
            });
        }
    }

    fn take(&mut self, mail: Mail) {
        if let (Some(Coupled { run: Some(run), .. }), Mail::Values(values)) = (
            &mut self.kept,
            &mail,
        ) {
            run.take(both(values.as_slice()));
        }
    }

    fn update(&mut self, _tick: Tick, _states: &[Fx], refs: &[Value], outs: &mut [Value]) -> Done {
        if let Some(
            Coupled {
                pair,
                run: Some(run),
            },
        ) = &self.kept
        {
            let wanted = run.wanted(both(refs));
            let told = through_both(pair, wanted.0, wanted.1);
            // It has two claims.
            outs.copy_from_slice(&[told.0, told.1]);
        }
        Done::Ok
    }

    fn deactivate(&mut self) {
        if let Some(kept) = &mut self.kept {
            kept.run = None;
        }
    }

    fn cleanup(&mut self) {
        self.kept = None;
    }
}

impl SetTwo {
    /// These two values are set.
    fn take(&mut self, values: (Fx, Fx))
        ensures { self.new ≡ record self.old { first = Value.Num values.0; second = Value.Num values.1 } }
    {
        self.first = Value::Num(values.0);
        self.second = Value::Num(values.1);
    }

    /// What is wanted: the references where it is chained, else what was set.
    fn wanted(&self, references: (Value, Value)) -> (Value, Value)
        ensures { result.0 ∷ result.1 ∷ [] ≡
            wanted self.now.chained (references.0 ∷ references.1 ∷ []) (self.now.first ∷ self.now.second ∷ []) }
    {
        if self.chained {
            references
        } else {
            (self.first, self.second)
        }
    }
}

/// The differential of parameters that are in their ranges.
fn pair_by(kind: Kind, reductions: (Fx, Fx), offsets: (Fx, Fx)) -> Differential
    requires { (is_motion kind && (int_le (pos 1) reductions.0 && int_le (pos 1) reductions.1)) ≡ true }
    ensures { result ≡ record { kind = kind; reductions = reductions; offsets = offsets } }
{
    Differential::make(kind, reductions, offsets)
}

/// What the two actuators are told.
fn through_both(pair: &Differential, first: Value, second: Value) -> (Value, Value)
    ensures { result.0 ∷ result.1 ∷ [] ≡ through_both pair.now (first ∷ second ∷ []) }
{
    match first {
        Value::Num(first) => through_with(pair, first, second),
        Value::Unset => (Value::Unset, Value::Unset),
    }
}

/// The same for a first joint that is to have this value.
fn through_with(pair: &Differential, first: Fx, second: Value) -> (Value, Value)
    ensures { result.0 ∷ result.1 ∷ [] ≡ through_both pair.now (Value.Num first ∷ second ∷ []) }
{
    match second {
        Value::Num(second) => {
            let told = pair.to_actuators(first, second);
            (Value::Num(told.0), Value::Num(told.1))
        }
        Value::Unset => (Value::Unset, Value::Unset),
    }
}
