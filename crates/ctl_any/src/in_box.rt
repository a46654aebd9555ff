//! A controller of any kind, in a box.

ghost use Rattle.cm_stock.specs.Stocks.{AreBlanks};
ghost use Rattle.std.specs.Prelude.{◌≡◌, IfOk, map};
ghost use Rattle.cm_model.specs.Blanks.{blanks_of_each};

use crate::any_kind::AnyKind;
use crate::stock::blanks;
use cm_document::{CtlKind, Mail, Params};
use cm_model::Tick;
use cm_storage::Done;
use ctl_trait::{CfgFault, Controller};
use fixed_num::{Fx, Memory, Value};
use std::alloc::Global;

/// A controller of any kind in a box, so it is as cheap to move as a pointer.
#[derive(Drop)]
pub struct BoxedKind {
    inner: Box<AnyKind>,
}

/// It is the controller in the box.
impl Controller for BoxedKind {
    ghost meaning = { λ b. ⟦<AnyKind as Controller>⟧.meaning b.inner.value };

    fn kind(&self) -> CtlKind {
        (*self.inner).kind()
    }

    fn configure(&mut self, alloc: Global, params: &Params) -> Result<(), CfgFault> {
        (*self.inner).configure(alloc, params)
    }

    fn ready(&self, cycle: u64) -> bool {
        (*self.inner).ready(cycle)
    }

    fn activate(&mut self, states: &[Fx], chained: bool) {
        (*self.inner).activate(states, chained);
    }

    fn take(&mut self, mail: Mail) {
        (*self.inner).take(mail);
    }

    fn update(&mut self, tick: Tick, states: &[Fx], refs: &[Value], outs: &mut [Value]) -> Done {
        (*self.inner).update(tick, states, refs, outs)
    }

    fn deactivate(&mut self) {
        (*self.inner).deactivate();
    }

    fn cleanup(&mut self) {
        (*self.inner).cleanup();
    }
}

/// So many blanks of each kind, each in a box.
pub fn boxed_blanks(alloc: Global, each: u32) -> Result<Vec<BoxedKind>, Memory>
    ensures { IfOk result
        (λ blanks. AreBlanks ⟦<BoxedKind as Controller>⟧.meaning blanks.items (blanks_of_each each)) }
{
    let controllers = blanks(alloc, each)?;
    let boxed = in_boxes(alloc, controllers)?;
    Ok(boxed)
}

/// Each in a box.
fn in_boxes(alloc: Global, controllers: Vec<AnyKind>) -> Result<Vec<BoxedKind>, Memory>
    ensures { IfOk result (λ boxed. map ⟦<BoxedKind as Controller>⟧.meaning boxed.items
        ≡ map ⟦<AnyKind as Controller>⟧.meaning controllers.items) }
{
    let mut boxed = Vec::new(alloc);
    for controller in controllers {
        let inner = Box::new(alloc, controller)?;
        boxed.push(BoxedKind { inner })?;
    }
    Ok(boxed)
}
