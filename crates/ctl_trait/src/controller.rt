//! The trait of controllers.

ghost use Rattle.std.specs.Prelude.{◌≡◌, ◌↔◌, true, length, Err, OnOk, OnErr};
ghost use Rattle.cm_model.specs.Kinds.{is_refused};
ghost use Rattle.cm_model.specs.Controllers.{configured, cleaned_up, activated, deactivated, mailed};
ghost use Rattle.cm_model.specs.Controllers.{is_ready, update_step, put_out, IsIdle, IsRunning};
ghost use Rattle.cm_model.specs.Controllers.{CanBeConfigured, CanBeActivated, CanBeUpdated};
ghost use Rattle.ctl_trait.specs.Taking.{CanTake};
ghost use Rattle.cm_model.specs.declared.data.CtlData.{CtlData};

use crate::fault::CfgFault;
use cm_document::{CtlKind, Mail, Params};
use cm_model::Tick;
use cm_storage::Done;
use fixed_num::{Fx, Value};
use std::alloc::Global;

/// A controller: what the manager loads, configures, activates and updates. Contracts see its data (`CtlData`), and
/// each call does to them what the table of controllers says (docs/RULES.md). Memory is taken by `configure` alone,
/// which makes room for all that runs later; the controller keeps that room until `cleanup`.
pub trait Controller: Drop {
    /// Its data: its kind, its parameters where it is configured, its running part where it is active.
    ghost meaning: { Self → CtlData };

    /// What it computes, which no call changes.
    fn kind(&self) -> CtlKind
        ensures { result ≡ (meaning self.now).kind };

    /// Gives it parameters of its kind, in place of those that it has. It refuses exactly where they say so; with any
    /// fault it stays as it was.
    fn configure(&mut self, alloc: Global, params: &Params) -> Result<(), CfgFault>
        requires { CanBeConfigured (meaning self.old) params.now }
        ensures configured { OnOk result (meaning self.new ≡ configured (meaning self.old) params.now) }
        ensures refused { (result ≡ Err CfgFault.Refused) ↔ (is_refused params.now ≡ true) }
        ensures unchanged { OnErr result (meaning self.new ≡ meaning self.old) };

    /// Whether it may be activated before this cycle.
    fn ready(&self, cycle: u64) -> bool
        ensures { result ≡ is_ready (meaning self.now) cycle };

    /// Begins to run, with the states of this moment, one for each that it reads, and told whether it takes its
    /// references from the interfaces.
    fn activate(&mut self, states: &[Fx], chained: bool)
        requires { CanBeActivated (meaning self.old) (length states.now) }
        ensures { meaning self.new ≡ activated (meaning self.old) states.now chained };

    /// Takes new values to go for, which fit it. A chained controller takes none, and to a broadcaster any are as good
    /// as none.
    fn take(&mut self, mail: Mail)
        requires { CanTake (meaning self.old) mail }
        ensures { meaning self.new ≡ mailed (meaning self.old) mail };

    /// Computes, from the states that it reads and from its references, a value for each of its claims. After an error
    /// the claims hold what they held, and its data are as they were.
    fn update(&mut self, tick: Tick, states: &[Fx], refs: &[Value], outs: &mut [Value]) -> Done
        requires { CanBeUpdated (meaning self.old) tick (length states.now) (length refs.now) (length outs.old) }
        ensures after { meaning self.new ≡ (update_step (meaning self.old) tick states.now refs.now).after }
        ensures outputs { outs.new ≡ put_out (update_step (meaning self.old) tick states.now refs.now) outs.old }
        ensures answer { result ≡ (update_step (meaning self.old) tick states.now refs.now).done };

    /// Stops running; it stays configured.
    fn deactivate(&mut self)
        requires { IsRunning (meaning self.old) }
        ensures { meaning self.new ≡ deactivated (meaning self.old) };

    /// Gives up its parameters, and the room that it kept.
    fn cleanup(&mut self)
        requires { IsIdle (meaning self.old) }
        ensures { meaning self.new ≡ cleaned_up (meaning self.old) };
}
