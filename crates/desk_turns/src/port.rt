//! The console of one session over a desk.

ghost use Rattle.std.specs.Prelude.{◌≡◌, ◌<◌};
ghost use Rattle.desk_turns.specs.Ports.{desk_console, ground_of, DeskGround};

use cm_desk::Desk;
use cm_document::Call;
use cm_model::{Outcome, Port, Reply};
use ctl_trait::Controller;
use fixed_num::Memory;
use std::alloc::Global;

/// The console of one session over a desk, which is lent to it meanwhile. A box that an unload hands out is dropped.
#[derive(Drop)]
pub struct DeskPort<'d, C: Controller> {
    alloc: Global,
    desk: &'d mut Desk<C>,
    who: u32,
    /// How often it answered that something is not so yet.
    waited: u64,
    ghost session: { who < desk.now.opening.sessions },
}

impl<'d, C: Controller> DeskPort<'d, C> {
    /// The console of the session of this number.
    pub fn over(alloc: Global, desk: &'d mut Desk<C>, who: u32) -> DeskPort<'d, C>
        requires { who < desk.old.opening.sessions }
        ensures lent { result.desk.ghost_name ≡ desk.entry.ghost_name }
        ensures desk { result.desk.now ≡ desk.old }
        ensures who { (result.who ≡ who) × (result.waited ≡ 0) }
    {
        DeskPort {
            alloc,
            desk,
            who,
            waited: 0,
        }
    }
}

impl<'d, C: Controller> Port for DeskPort<'d, C> {
    ghost Ground = { DeskGround };

    ghost footing = { λ p. ground_of p.desk.ghost_name p.who p.desk.now };

    ghost tells = { λ p. desk_console p.who p.desk.now p.waited };

    fn call(&mut self, call: Call) -> Result<Reply, Memory> {
        let (reply, _) = self.desk.call(self.alloc, self.who, call)?;
        Ok(reply)
    }

    fn told(&mut self, ticket: u32) -> Result<Option<Outcome>, Memory> {
        let told = self.desk.told(self.alloc, self.who, ticket)?;
        if told.is_none() {
            self.waited = self.waited.saturating_add(1);
        }
        Ok(told)
    }

    fn reached(&mut self, cycles: u64) -> Result<bool, Memory> {
        let reached = self.desk.reached(self.alloc, self.who, cycles)?;
        if !reached {
            self.waited = self.waited.saturating_add(1);
        }
        Ok(reached)
    }
}
