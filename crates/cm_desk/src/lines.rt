//! The list of controllers, and which of them are chained.

ghost use Rattle.std.specs.Prelude.{◌≡◌, ◌++◌, ◌&&◌, ◌<◌, length, slice_get, Some, false, option_to_list, IfOk, OnOk};
ghost use Rattle.std.specs.Option.{option_map_or};
ghost use Rattle.cm_model.specs.Scene.{is_chained_in};
ghost use Rattle.cm_model.specs.State.{active, is_active, is_chained, precedes_described};
ghost use Rattle.cm_model.specs.State.{controller_line, controller_lines};
ghost use Rattle.cm_desk.specs.Works.{has_precedent};
ghost use Rattle.chain_order.specs.Links.{leaders_of};

use crate::works::Works;
use chain_order::{Links, precedes};
use cm_document::{Checked, CtlDesc};
use cm_model::CtlLine;
use cm_slots::Slot;
use ctl_trait::Controller;
use fixed_num::Memory;
use sequence::Seq;
use std::alloc::Global;

impl<C: Controller> Works<C> {
    /// The list of controllers: a line for each loaded one, by serial.
    pub fn controllers(&self, alloc: Global) -> Result<Seq<CtlLine>, Memory>
        ensures { IfOk result (λ lines. lines ≡ controller_lines self.now) }
    {
        let mut lines = Seq::from_vec(Vec::with_capacity(alloc, self.slots.len())?);
        for slot in self.slots.as_slice() {
            push_if_some(&mut lines, self.line(slot)?)?;
        }
        Ok(lines)
    }

    /// The line of a loaded controller.
    fn line(&self, slot: &Slot<C>) -> Result<Option<CtlLine>, Memory>
        ensures { IfOk result (λ line. line ≡ controller_line self.now slot.now) }
    {
        let Some(controller) = self
            .checked
            .description()
            .controllers
            .as_slice()
            .get(slot.place())
        else {
            return Ok(None);
        };
        Ok(Some(CtlLine {
            name: self.names[slot.place()].share()?,
            serial: slot.serial(),
            divisor: slot.divisor(),
            kind: slot.kind(),
            life: slot.life(),
            chained: self.is_chained(slot, controller),
        }))
    }

    /// Whether an active controller claims one of the references of this one, whose description this is. If the
    /// relations are at home they say it by place; while a cycle is aloft with them, names are compared.
    pub(crate) fn is_chained(&self, slot: &Slot<C>, controller: &CtlDesc) -> bool
        requires { slice_get self.now.description.controllers slot.now.place ≡ Some controller.now }
        ensures { result ≡ is_chained self.now controller.now }
    {
        match &self.resources.idle_context {
            Some(idle_context) => self.is_led_by(
                idle_context.robot.relations.leaders(),
                slot.place(),
            ),
            None => has_precedent(&self.checked, self.slots.as_slice(), controller),
        }
    }

    /// Whether one of those that precede the controller at this place is active.
    fn is_led_by(&self, leaders: &Links, place: usize) -> bool
        requires leaders { leaders.now ≡ leaders_of self.now.description.controllers }
        requires within { place < length self.now.description.controllers }
        ensures { result ≡ is_chained_in self.now.description.controllers (active self.now) place }
    {
        self.active_set.has_any(leaders.row(place as u32))
    }
}

/// Whether one of these that is active claims a reference of the controller, by names.
fn has_precedent<C: Controller>(checked: &Checked, slots: &[Slot<C>], controller: &CtlDesc) -> bool
    ensures { result ≡ has_precedent checked.now controller.now slots.now }
{
    slots.iter().any(|slot| slot.is_active() && is_precedent(checked, slot, controller))
}

/// Whether the loaded controller precedes this described one: it claims one of its references.
fn is_precedent<C: Controller>(checked: &Checked, slot: &Slot<C>, controller: &CtlDesc) -> bool
    ensures { result ≡ precedes_described checked.now.controllers controller.now slot.now }
{
    match checked
        .description()
        .controllers
        .as_slice()
        .get(slot.place())
    {
        Some(other) => precedes(other, controller),
        None => false,
    }
}

fn push_if_some(lines: &mut Seq<CtlLine>, line: Option<CtlLine>) -> Result<(), Memory>
    ensures { OnOk result (lines.new ≡ lines.old ++ option_to_list line) }
{
    if let Some(line) = line {
        lines.push(line)?;
    }
    Ok(())
}
