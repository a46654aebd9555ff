//! The broadcaster.

ghost use Rattle.std.specs.Prelude.{◌≡◌};
ghost use Rattle.cm_model.specs.State.{fresh};
ghost use Rattle.cm_document.specs.declared.description.CtlKind.TheVariants as kind;

use cm_document::{CtlKind, Mail, Params};
use cm_model::Tick;
use cm_storage::Done;
use ctl_trait::{CfgFault, Controller};
use fixed_num::{Fx, Value};
use std::alloc::Global;

/// A broadcaster: it publishes the states that it reads, and commands nothing.
#[derive(Debug, Drop)]
pub struct Broadcaster {
    kept: Option<Kept>,
}

/// What a configured broadcaster keeps: the numbers that were published last, in room that `configure` took.
#[derive(Debug, Drop)]
struct Kept {
    last: Vec<Fx>,
    runs: bool,
}

impl Broadcaster {
    /// A broadcaster that is not configured.
    pub fn blank() -> Broadcaster
        ensures { ⟦<Broadcaster as Controller>⟧.meaning result ≡ fresh kind.Broadcaster }
    {
        Broadcaster { kept: None }
    }
}

impl Controller for Broadcaster {
    ghost use Rattle.ctl_bcast.specs.Published.{broadcaster_data};

    ghost meaning = { λ c. broadcaster_data c.kept };

    fn kind(&self) -> CtlKind {
        CtlKind::Broadcaster
    }

    fn configure(&mut self, alloc: Global, params: &Params) -> Result<(), CfgFault> {
        let Params::Broadcaster { ins } = params else {
            unreachable!()
        };
        self.kept = Some(Kept {
            last: vec![in alloc; Fx::ZERO; *ins as usize]?,
            runs: false,
        });
        Ok(())
    }

    fn ready(&self, _cycle: u64) -> bool {
        true
    }

    fn activate(&mut self, states: &[Fx], _chained: bool) {
        if let Some(kept) = &mut self.kept {
            kept.last.copy_from_slice(states);
            kept.runs = true;
        }
    }

    // It has nothing to go for.
    fn take(&mut self, _mail: Mail) {}

    fn update(&mut self, _tick: Tick, states: &[Fx], _refs: &[Value], _outs: &mut [Value]) -> Done {
        if let Some(kept) = &mut self.kept {
            kept.last.copy_from_slice(states);
        }
        Done::Ok
    }

    fn deactivate(&mut self) {
        if let Some(kept) = &mut self.kept {
            kept.runs = false;
        }
    }

    fn cleanup(&mut self) {
        self.kept = None;
    }
}
