//! The console's calls on one loaded controller. If memory ran out nothing has changed.

ghost use Rattle.std.specs.Prelude.{◌≡◌, ◌<◌, true, false, length, option_map, slice_get};
ghost use Rattle.std.specs.Prelude.{Some, IsSomeAnd, IfOk, OnErr, MatchOption};
ghost use Rattle.cm_document.specs.Params.{kind_of};
ghost use Rattle.cm_model.specs.Console.{configure_reply, configure_effect, cleanup_reply, cleanup_effect};
ghost use Rattle.cm_model.specs.Console.{unload_reply, unload_effect, rate_reply, rate_effect, send_reply};
ghost use Rattle.cm_model.specs.Console.{send_refusals, send_effect, reply_on, moves_out};
ghost use Rattle.cm_model.specs.Kinds.{are_ranged};
ghost use Rattle.cm_model.specs.State.{is_active};
ghost use Rattle.cm_model.specs.Steady.{IsSteady};
ghost use Rattle.cm_desk.specs.Works.{IsAnswered, IsConfigured, active_reply};
ghost use Rattle.cm_resources.specs.Described.{IsAsDescribed};

use crate::works::Works;
use chain_order::divisor;
use cm_document::{Checked, CtlDesc, Mail, Params};
use cm_model::{Reply, Why};
use cm_resources::described_at;
use cm_slots::Slot;
use ctl_trait::{CfgFault, Controller, takes, takes_none};
use fixed_num::Memory;
use iface_names::Name;
use std::alloc::Global;

impl<C: Controller> Works<C> {
    /// The controller gets its described parameters, and its rate fixes in how many cycles it is updated once.
    pub fn configure(&mut self, alloc: Global, name: &Name) -> Result<Reply, Memory>
        ensures made { IfOk result
            (IsAnswered (configure_reply self.old name.now) (configure_effect self.old name.now) self.new) }
        ensures kept { OnErr result (self.new ≡ self.old) }
    {
        let Some(index) = self.slot_of(name) else {
            return Ok(Reply::Not(Why::NotLoaded));
        };
        if self.slots.as_slice()[index].is_active() {
            return Ok(Reply::Not(Why::Active));
        }
        match self.configure_at(alloc, index) {
            Ok(()) => Ok(Reply::Done),
            Err(CfgFault::Refused) => Ok(Reply::Not(Why::Refused)),
            Err(CfgFault::Memory) => Err(Memory),
        }
    }

    /// The loaded controller that stands there, which is not active, gets its described parameters. With any fault it
    /// stays as it was.
    #[tactic(auto, using(crate::proofs::WorksLemmas::can_be_configured, cm_document::proofs::ValidParts::described_rate_is_some))]
    fn configure_at(&mut self, alloc: Global, index: usize) -> Result<(), CfgFault>
        requires { IsSomeAnd (slice_get self.old.loaded index) (λ l. is_active l ≡ false) }
        ensures { IsConfigured self.old index self.new result }
    {
        let slot = &self.slots.as_slice()[index];
        let controller = described(&self.checked, slot);
        let divisor = divisor(self.checked.description().update_rate, slot.rate());
        self.slots
            .configure(index, alloc, &controller.params, divisor)
    }

    /// The controller gives up its parameters. It takes no memory.
    #[tactic(auto, using(cm_slots::proofs::LifeLemmas::idle_where_inactive))]
    pub fn cleanup(&mut self, name: &Name) -> Reply
        ensures { IsAnswered (cleanup_reply self.old name.now) (cleanup_effect self.old name.now) self.new result }
    {
        let Some(index) = self.slot_of(name) else {
            return Reply::Not(Why::NotLoaded);
        };
        if !self.slots.as_slice()[index].is_inactive() {
            return Reply::Not(Why::NotInactive);
        }
        self.slots.cleanup(index);
        Reply::Done
    }

    /// The controller is not loaded any more, and its box moves out. It takes no memory.
    pub fn unload(&mut self, name: &Name) -> (Reply, Option<C>)
        ensures made { IsAnswered (unload_reply self.old name.now) (unload_effect self.old name.now) self.new result.0 }
        ensures given { option_map C.meaning result.1 ≡ moves_out self.old name.now result.0 }
    {
        let Some(index) = self.slot_of(name) else {
            return (Reply::Not(Why::NotLoaded), None);
        };
        if self.slots.as_slice()[index].is_active() {
            return (Reply::Not(Why::Active), None);
        }
        let ctl = self.slots.unload(index);
        self.active_set.reindex(self.slots.as_slice());
        (Reply::Done, Some(ctl))
    }

    /// The controller gets this rate in hertz, which counts at its next configure. It takes no memory.
    pub fn rate(&mut self, name: &Name, hz: u32) -> Reply
        ensures { IsAnswered (rate_reply self.old name.now) (rate_effect self.old name.now hz) self.new result }
    {
        let Some(index) = self.slot_of(name) else {
            return Reply::Not(Why::NotLoaded);
        };
        if self.slots.as_slice()[index].is_active() {
            return Reply::Not(Why::Active);
        }
        self.slots.set_rate(index, hz);
        Reply::Done
    }

    /// The mail waits for the controller, in place of any other. It takes no memory.
    pub fn send(&mut self, name: &Name, mail: Mail) -> Reply
        requires { IsSteady self.old }
        ensures { IsAnswered (send_reply self.old name.now mail) (send_effect self.old name.now mail) self.new result }
    {
        let Some(index) = self.slot_of(name) else {
            return Reply::Not(Why::NotLoaded);
        };
        if let Some(why) = self.mail_refusal(index, &mail) {
            return Reply::Not(why);
        }
        self.slots.post(index, mail);
        Reply::Done
    }

    /// Why the loaded controller that stands there is not sent the mail.
    fn mail_refusal(&self, index: usize, mail: &Mail) -> Option<Why>
        requires within { index < length self.now.loaded }
        requires steady { IsSteady self.now }
        ensures { MatchOption result
            (reply_on (send_refusals self.now mail.now) (slice_get self.now.loaded index) ≡ Reply.Done)
            (λ why. reply_on (send_refusals self.now mail.now) (slice_get self.now.loaded index) ≡ Reply.Not why) }
    {
        let slot = &self.slots.as_slice()[index];
        if !slot.is_active() {
            return Some(Why::NotActive);
        }
        let controller = described(&self.checked, slot);
        refusal_of_active(self.is_chained(slot, controller), &controller.params, mail)
    }
}

/// Why a controller that is active is not sent the mail: it is chained or not, and has these parameters.
fn refusal_of_active(chained: bool, params: &Params, mail: &Mail) -> Option<Why>
    ensures { MatchOption result
        (active_reply chained params.now mail.now ≡ Reply.Done)
        (λ why. active_reply chained params.now mail.now ≡ Reply.Not why) }
{
    if chained {
        return Some(Why::Chained);
    }
    if takes_none(params) {
        return Some(Why::TakesNone);
    }
    if !takes(params, mail) {
        return Some(Why::WrongCount);
    }
    None
}

/// The description of a loaded controller, whose parameters its box can be configured with.
#[tactic(auto, using(cm_resources::proofs::DescribedLemmas::described_there, cm_model::proofs::RangedLemmas::described_params_are_ranged))]
fn described<'a, C: Controller>(checked: &'a Checked, slot: &Slot<C>) -> &'a CtlDesc
    requires { IsAsDescribed checked.now slot.now }
    ensures same { slice_get checked.now.controllers slot.now.place ≡ Some result.now }
    ensures own_kind { kind_of result.now.params ≡ slot.now.ctl.kind }
    ensures ranged { are_ranged result.now.params ≡ true }
{
    described_at(checked, slot.place())
}
