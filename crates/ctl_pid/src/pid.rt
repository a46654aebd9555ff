//! The pid.

ghost use Rattle.std.specs.Prelude.{◌≡◌, ◌≤◌, [], ◌∷◌};
ghost use Rattle.cm_model.specs.State.{fresh};
ghost use Rattle.cm_document.specs.declared.description.CtlKind.TheVariants as kind;
ghost use Rattle.ctl_pid.specs.Loops.{running_of, loop_step, corrected_run, correction};

use crate::tuning::{Tuning, derivative_of, error_of};
use cm_document::{CtlKind, Mail, Params};
use cm_model::{LONGEST_PERIOD, Tick};
use cm_storage::Done;
use ctl_trait::{CfgFault, Controller, only};
use fixed_num::{Fx, Value};
use std::alloc::Global;

/// A pid: it gives the output that brings its state to its reference where it is chained, else to the value that it was
/// sent last. Where that is unset, so is its output.
#[derive(Debug, Drop)]
pub struct PidCtl {
    kept: Option<Kept>,
}

/// What a configured pid keeps.
#[derive(Debug, Drop)]
struct Kept {
    tuning: Tuning,
    run: Option<Run>,
}

/// What a pid keeps while it runs.
#[derive(Clone, Copy, Debug)]
struct Run {
    chained: bool,
    set: Value,
    integral: Fx,
    last: Option<Fx>,
}

impl PidCtl {
    /// A pid that is not configured.
    pub fn blank() -> PidCtl
        ensures { ⟦<PidCtl as Controller>⟧.meaning result ≡ fresh kind.Pid }
    {
        PidCtl { kept: None }
    }
}

impl Controller for PidCtl {
    ghost use Rattle.ctl_pid.specs.Loops.{pid_data};

    ghost meaning = { λ c. pid_data c.kept };

    fn kind(&self) -> CtlKind {
        CtlKind::Pid
    }

    fn configure(&mut self, _alloc: Global, params: &Params) -> Result<(), CfgFault> {
        let Params::Pid {
            kp,
            ki,
            kd,
            imax,
            omax,
        } = params
        else {
            unreachable!()
        };
        self.kept = Some(Kept {
            tuning: Tuning::make(*kp, *ki, *kd, *imax, *omax),
            run: None,
        });
        Ok(())
    }

    fn ready(&self, _cycle: u64) -> bool {
        true
    }

    fn activate(&mut self, _states: &[Fx], chained: bool) {
        if let Some(kept) = &mut self.kept {
            kept.run = Some(Run {
                chained,
                set: Value::Unset,
                integral: Fx::ZERO,
                last: None,
            });
        }
    }

    fn take(&mut self, mail: Mail) {
        if let (Some(Kept { run: Some(run), .. }), Mail::Values(values)) = (&mut self.kept, &mail) {
            run.set = Value::Num(only(values.as_slice()));
        }
    }

    fn update(&mut self, tick: Tick, states: &[Fx], refs: &[Value], outs: &mut [Value]) -> Done {
        if let Some(kept) = &mut self.kept {
            let tuning = kept.tuning;
            if let Some(run) = &mut kept.run {
                // It has one claim.
                outs.fill(run.update(tuning, tick.dt_us, only(states), only(refs)));
            }
        }
        Done::Ok
    }

    fn deactivate(&mut self) {
        if let Some(kept) = &mut self.kept {
            kept.run = None;
        }
    }

    fn cleanup(&mut self) {
        self.kept = None;
    }
}

impl Run {
    /// One step towards what is wanted: the output.
    fn update(&mut self, tuning: Tuning, dt_us: u32, state: Fx, reference: Value) -> Value
        requires some_time { 1 ≤ dt_us }
        requires no_longer { dt_us ≤ LONGEST_PERIOD }
        ensures after { running_of self.new ≡ (loop_step tuning self.old dt_us state reference).run }
        ensures output { result ∷ [] ≡ (loop_step tuning self.old dt_us state reference).outs }
    {
        let wanted = if self.chained { reference } else { self.set };
        match wanted {
            Value::Num(wanted) => Value::Num(self.correct(tuning, dt_us, state, wanted)),
            Value::Unset => Value::Unset,
        }
    }

    /// One step towards a number.
    fn correct(&mut self, tuning: Tuning, dt_us: u32, state: Fx, wanted: Fx) -> Fx
        requires some_time { 1 ≤ dt_us }
        requires no_longer { dt_us ≤ LONGEST_PERIOD }
        ensures after { self.new ≡ corrected_run tuning self.old dt_us state wanted }
        ensures output { result ≡ correction tuning self.old dt_us state wanted }
    {
        let error = error_of(wanted, state);
        let derivative = derivative_of(self.last, error, dt_us);
        self.integral = tuning.integrated(self.integral, error, dt_us);
        self.last = Some(error);
        tuning.corrected(error, self.integral, derivative)
    }
}
