//! Where the loop stands, its close, and the lists of hardware.

ghost use Rattle.std.specs.Prelude.{◌≡◌, true, length, option_map, slice_get, IfOk};
ghost use Rattle.cm_model.specs.Boundary.{close_effect, close_reply};
ghost use Rattle.cm_model.specs.Machine.{is_reached, can_close};
ghost use Rattle.cm_model.specs.State.{interface_lines, component_lines};
ghost use Rattle.cm_model.specs.declared.reply.Reply.TheVariants as reply;

use crate::works::Works;
use cm_model::{CompLine, Decision, IfaceLine, Outcome};
use ctl_trait::Controller;
use fixed_num::Memory;
use sequence::{Rare, Seq};
use std::alloc::Global;

impl<C: Controller> Works<C> {
    /// How many cycles have ended, which is also the number of the next one.
    pub fn ended(&self) -> u64
        ensures { result ≡ self.now.ended }
    {
        self.ended
    }

    /// Whether a cycle has begun that has not ended.
    pub fn is_aloft(&self) -> bool
        ensures { result ≡ self.now.aloft }
    {
        self.resources.idle_context.is_none()
    }

    /// Whether the loop is closed.
    pub fn is_closed(&self) -> bool
        ensures { result ≡ self.now.closed }
    {
        self.closed
    }

    /// Whether so many cycles have ended, or the loop is closed.
    pub fn is_reached(&self, cycles: u64) -> bool
        ensures { result ≡ is_reached self.now cycles }
    {
        self.ended >= cycles || self.closed
    }

    /// How many requests are decided: those of the tickets below.
    pub fn decided(&self) -> u32
        ensures { result ≡ length self.now.outcomes }
    {
        self.requests.decided()
    }

    /// What became of the request of a ticket, where it is decided.
    pub fn told(&self, ticket: u32) -> Option<&Outcome>
        ensures { option_map (λ outcome. outcome.now) result ≡ slice_get self.now.outcomes ticket }
    {
        self.requests.told(ticket)
    }

    /// The loop closes, and each request that waits is ended with it, and told so. It takes no memory.
    pub fn close(&mut self) -> Rare<Decision>
        requires { can_close self.old ≡ true }
        ensures closed { self.new ≡ close_effect self.old }
        ensures told { reply.Decisions result ≡ close_reply self.old }
    {
        self.closed = true;
        self.requests.close_all()
    }

    /// The list of interfaces, by place.
    pub fn interfaces(&self, alloc: Global) -> Result<Seq<IfaceLine>, Memory>
        ensures { IfOk result (λ lines. lines ≡ interface_lines self.now) }
    {
        Ok(self.resources.interface_lines(alloc)?)
    }

    /// The list of components, by place.
    pub fn components(&self, alloc: Global) -> Result<Seq<CompLine>, Memory>
        ensures { IfOk result (λ lines. lines ≡ component_lines self.now) }
    {
        Ok(self.resources.component_lines(alloc)?)
    }
}
