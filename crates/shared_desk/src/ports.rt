//! The consoles over passes: that of a session, and that of the loop. Each takes a turn of its pass for a call.

ghost use Rattle.std.specs.Prelude.{◌≡◌};
ghost use Rattle.shared_desk.specs.Passes.{IsSessionPass, IsLoopPass};

use crate::kept::{KeptDesk, Opening};
use crate::passes::{LoopPass, Pass};
use crate::shared::SharedDesk;
use cm_document::Call;
use cm_model::{Entry, LoopPort, Outcome, Port, Reply};
use ctl_trait::Controller;
use fixed_num::Memory;
use rt_flight::Flight;
use std::sync::Wait;
use turn_lock::{Kept, Shown};

/// The console of one session. A box that an unload hands out is dropped.
#[derive(Drop)]
pub struct SessionPort<'a, R, C: Controller>
where
    KeptDesk<C>: Kept<Entry = Entry, Ground = Opening>,
{
    rt: &'a R,
    desk: &'a SharedDesk<C>,
    pass: Pass<C>,
    pub ghost session: { IsSessionPass desk.now.lock desk.now.at_first.value pass },
}

impl<'a, R: Wait, C: Controller> SessionPort<'a, R, C> {
    /// The console of the session of this pass. It takes no memory.
    pub fn make(desk: &'a SharedDesk<C>, rt: &'a R, pass: Pass<C>) -> SessionPort<'a, R, C>
        requires { IsSessionPass desk.now.lock desk.now.at_first.value pass }
        ensures desk { result.desk.now ≡ desk.now }
        ensures pass { result.pass ≡ pass }
    {
        SessionPort { rt, desk, pass }
    }

    /// Its pass. It takes no memory.
    pub fn into_pass(self) -> Pass<C>
        ensures pass { result ≡ self.entry.pass }
    {
        let SessionPort {
            rt: _,
            desk: _,
            pass,
        } = self;
        pass
    }
}

impl<'a, R: Wait, C: Controller> Port for SessionPort<'a, R, C> {
    ghost use Rattle.shared_desk.specs.Ports.{PortGround, ground_of, console_of};

    ghost Ground = { PortGround };

    ghost footing = { λ p. ground_of p.desk.now.at_first.value p.pass };

    ghost tells = { λ p. console_of p.desk.now.at_first.value p.pass };

    fn call(&mut self, call: Call) -> Result<Reply, Memory> {
        let (reply, _) = self.desk.call(self.rt, &mut self.pass, call)?;
        Ok(reply)
    }

    /// Looks for a while whether as many requests are decided, and takes a turn then.
    fn told(&mut self, ticket: u32) -> Result<Option<Outcome>, Memory> {
        let decided = ticket as u64 + 1;
        self.desk
            .watch(self.rt, &mut self.pass, Shown::Tickets, decided);
        self.desk.told(self.rt, &mut self.pass, ticket)
    }

    /// Looks for a while whether as many cycles have ended, and takes a turn then.
    fn reached(&mut self, cycles: u64) -> Result<bool, Memory> {
        self.desk
            .watch(self.rt, &mut self.pass, Shown::Cycles, cycles);
        self.desk.reached(self.rt, &mut self.pass, cycles)
    }
}

/// The console of the loop.
#[derive(Drop)]
pub struct LoopEnd<'a, R, C: Controller>
where
    KeptDesk<C>: Kept<Entry = Entry, Ground = Opening>,
{
    rt: &'a R,
    desk: &'a SharedDesk<C>,
    pass: LoopPass<C>,
    pub ghost looping: { IsLoopPass desk.now.lock desk.now.at_first.value pass.pass },
}

impl<'a, R: Wait, C: Controller> LoopEnd<'a, R, C> {
    /// The console of the loop of this pass. It takes no memory.
    pub fn make(desk: &'a SharedDesk<C>, rt: &'a R, pass: LoopPass<C>) -> LoopEnd<'a, R, C>
        requires { IsLoopPass desk.now.lock desk.now.at_first.value pass.pass }
        ensures desk { result.desk.now ≡ desk.now }
        ensures pass { result.pass ≡ pass }
    {
        LoopEnd { rt, desk, pass }
    }

    /// Its pass. It takes no memory.
    pub fn into_pass(self) -> LoopPass<C>
        ensures pass { result ≡ self.entry.pass }
    {
        let LoopEnd {
            rt: _,
            desk: _,
            pass,
        } = self;
        pass
    }
}

impl<'a, R: Wait, C: Controller> LoopPort for LoopEnd<'a, R, C> {
    ghost use Rattle.std.specs.Prelude.{is_some, true, None};
    ghost use Rattle.shared_desk.specs.Passes.{history_of};
    ghost use Rattle.cm_desk.specs.Desk.{IsAtHand};
    ghost use Rattle.shared_desk.specs.Ports.{PortGround, ground_of, loop_console_of};

    type Flight = Flight<C>;

    ghost Ground = { PortGround };

    ghost footing = { λ p. ground_of p.desk.now.at_first.value p.pass.pass };

    ghost tells = { λ p. loop_console_of p.desk.now.at_first.value p.pass.pass };

    ghost is_out = { λ p f. IsAtHand (history_of p.desk.now.at_first.value.opening p.pass.pass) f };

    ghost may_be_computed = { λ f. f.outcome ≡ None };

    ghost is_computed = { λ f. is_some f.outcome ≡ true };

    fn begin(&mut self) -> Result<Flight<C>, Memory> {
        self.desk.begin(self.rt, &mut self.pass)
    }

    fn compute(&mut self, flight: &mut Flight<C>) {
        flight.compute();
    }

    fn land(&mut self, flight: Flight<C>) {
        self.desk.land(self.rt, &mut self.pass, flight);
    }

    fn close(&mut self) {
        self.desk.close(self.rt, &mut self.pass);
    }
}
