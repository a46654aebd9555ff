//! The mock.

ghost use Rattle.std.specs.Prelude.{◌≡◌};
ghost use Rattle.cm_model.specs.State.{fresh};
ghost use Rattle.cm_document.specs.declared.description.CtlKind.TheVariants as kind;

use cm_document::{CtlKind, Cycles, Mail, Params};
use cm_model::Tick;
use cm_storage::Done;
use ctl_trait::{CfgFault, Controller, SetPart};
use fixed_num::{Fx, Value};
use std::alloc::Global;

/// A mock: it gives the values that it was sent last, and fails in the cycles that its parameters list.
#[derive(Debug, Drop)]
pub struct Mock {
    kept: Option<Kept>,
}

/// What a configured mock keeps.
#[derive(Debug, Drop)]
struct Kept {
    part: SetPart,
    not_ready: Cycles,
    fail_update: Cycles,
}

impl Mock {
    /// A mock that is not configured.
    pub fn blank() -> Mock
        ensures { ⟦<Mock as Controller>⟧.meaning result ≡ fresh kind.Mock }
    {
        Mock { kept: None }
    }
}

impl Controller for Mock {
    ghost use Rattle.ctl_mock.specs.Mocked.{mock_data};

    ghost meaning = { λ c. mock_data c.kept };

    fn kind(&self) -> CtlKind {
        CtlKind::Mock
    }

    fn configure(&mut self, alloc: Global, params: &Params) -> Result<(), CfgFault> {
        let Params::Mock {
            outs,
            refuse_config,
            not_ready,
            fail_update,
        } = params
        else {
            unreachable!()
        };
        if *refuse_config {
            return Err(CfgFault::Refused);
        }
        self.kept = Some(Kept {
            part: SetPart::make(alloc, *outs)?,
            not_ready: not_ready.clone()?,
            fail_update: fail_update.clone()?,
        });
        Ok(())
    }

    fn ready(&self, cycle: u64) -> bool {
        match &self.kept {
            Some(kept) => !kept.not_ready.has(cycle),
            None => true,
        }
    }

    fn activate(&mut self, _states: &[Fx], _chained: bool) {
        if let Some(kept) = &mut self.kept {
            kept.part.start(false);
        }
    }

    fn take(&mut self, mail: Mail) {
        if let (Some(kept), Mail::Values(values)) = (&mut self.kept, &mail) {
            kept.part.take(values.as_slice());
        }
    }

    fn update(&mut self, tick: Tick, _states: &[Fx], _refs: &[Value], outs: &mut [Value]) -> Done {
        match &self.kept {
            Some(kept) => kept.update(tick.cycle, outs),
            None => Done::Ok,
        }
    }

    fn deactivate(&mut self) {
        if let Some(kept) = &mut self.kept {
            kept.part.stop();
        }
    }

    fn cleanup(&mut self) {
        self.kept = None;
    }
}

impl Kept {
    ghost use Rattle.std.specs.Prelude.{if◌then◌else◌, length};
    ghost use Rattle.cm_document.specs.Cycles.{is_listed};
    ghost use Rattle.cm_storage.specs.declared.ran.Done.TheVariants as done;

    /// Gives the values that are set, unless it fails in this cycle.
    fn update(&self, cycle: u64, outs: &mut [Value]) -> Done
        requires { length outs.old ≡ length self.now.part.set }
        ensures answer { result ≡ (if is_listed self.now.fail_update cycle then done.Error else done.Ok) }
        ensures outputs { outs.new ≡ (if is_listed self.now.fail_update cycle then outs.old else self.now.part.set) }
    {
        if self.fail_update.has(cycle) {
            return Done::Error;
        }
        outs.copy_from_slice(self.part.set());
        Done::Ok
    }
}
