//! A box with any controller is a controller.

use crate::controller::Controller;
use crate::fault::CfgFault;
use cm_document::{CtlKind, Mail, Params};
use cm_model::Tick;
use cm_storage::Done;
use fixed_num::{Fx, Value};
use std::alloc::Global;

/// It is the controller in the box, which may go to another thread.
impl Controller for Box<dyn Controller + Send> {
    ghost meaning = { λ b. (Controller-box b).meaning b.value };

    fn kind(&self) -> CtlKind {
        (**self).kind()
    }

    fn configure(&mut self, alloc: Global, params: &Params) -> Result<(), CfgFault> {
        (**self).configure(alloc, params)
    }

    fn ready(&self, cycle: u64) -> bool {
        (**self).ready(cycle)
    }

    fn activate(&mut self, states: &[Fx], chained: bool) {
        (**self).activate(states, chained);
    }

    fn take(&mut self, mail: Mail) {
        (**self).take(mail);
    }

    fn update(&mut self, tick: Tick, states: &[Fx], refs: &[Value], outs: &mut [Value]) -> Done {
        (**self).update(tick, states, refs, outs)
    }

    fn deactivate(&mut self) {
        (**self).deactivate();
    }

    fn cleanup(&mut self) {
        (**self).cleanup();
    }
}
