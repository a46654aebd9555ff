//! The console of the loop over a desk that nobody shares.

ghost use Rattle.std.specs.Prelude.{◌≡◌, option_map, IfOk, OnErr};
ghost use Rattle.cm_desk.specs.Calls.Answers.{MayCall};
ghost use Rattle.cm_desk.specs.Desk.{Grows, hands_out, now_of};

use cm_desk::Desk;
use cm_document::Call;
use cm_model::{LoopPort, Reply};
use ctl_trait::Controller;
use fixed_num::Memory;
use rt_flight::Flight;
use std::alloc::Global;

/// The console of the loop over a desk of its own. Whoever begins a cycle has its flight until that lands.
#[derive(Drop)]
pub struct DeskLoop<C: Controller> {
    alloc: Global,
    desk: Desk<C>,
}

impl<C: Controller> DeskLoop<C> {
    /// The console of the loop over this desk.
    pub fn over(alloc: Global, desk: Desk<C>) -> DeskLoop<C>
        ensures { result.desk ≡ desk }
    {
        DeskLoop { alloc, desk }
    }

    /// Its desk.
    pub fn desk(&self) -> &Desk<C>
        ensures { result.now ≡ self.now.desk }
    {
        &self.desk
    }

    /// Answers a call of a session of its desk, between two cycles or while one is aloft, with the box that an unload
    /// hands out. Want of memory changes nothing.
    pub fn call(&mut self, who: u32, call: Call) -> Result<(Reply, Option<C>), Memory>
        requires { MayCall self.old.desk who call }
        ensures made { IfOk result (λ answer. Grows self.old.desk self.new.desk who call answer.0) }
        ensures given { IfOk result
            (λ answer. option_map C.meaning answer.1 ≡ hands_out (now_of self.old.desk) call answer.0) }
        ensures kept { OnErr result (self.new.desk ≡ self.old.desk) }
    {
        let answer = self.desk.call(self.alloc, who, call)?;
        Ok(answer)
    }

    /// The desk, back from the loop.
    pub fn into_desk(self) -> Desk<C>
        ensures { result ≡ self.desk }
    {
        let DeskLoop { alloc: _, desk } = self;
        desk
    }
}

impl<C: Controller> LoopPort for DeskLoop<C> {
    ghost use Rattle.std.specs.Prelude.{is_some, true, None};
    ghost use Rattle.cm_model.specs.State.{State};
    ghost use Rattle.desk_turns.specs.Ports.{loop_console};
    ghost use Rattle.cm_desk.specs.Desk.{IsAtHand};

    type Flight = Flight<C>;

    ghost Ground = { State };

    ghost footing = { λ p. p.desk.opening };

    ghost tells = { λ p. loop_console p.desk };

    ghost is_out = { λ p f. IsAtHand p.desk f };

    ghost may_be_computed = { λ f. f.outcome ≡ None };

    ghost is_computed = { λ f. is_some f.outcome ≡ true };

    fn begin(&mut self) -> Result<Flight<C>, Memory> {
        self.desk.is_right();
        let flight = self.desk.begin(self.alloc)?;
        Ok(flight)
    }

    fn compute(&mut self, flight: &mut Flight<C>) {
        flight.compute();
    }

    fn land(&mut self, flight: Flight<C>) {
        self.desk.is_right();
        self.desk.land(flight);
    }

    fn close(&mut self) {
        self.desk.close();
    }
}
