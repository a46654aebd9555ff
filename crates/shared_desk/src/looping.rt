//! What the loop calls, each at a turn of its pass.

ghost use Rattle.std.specs.Prelude.{◌≡◌, IfOk, OnOk, OnErr};
ghost use Rattle.cm_desk.specs.Desk.{IsOut};
ghost use Rattle.shared_desk.specs.Calls.Looping.{CanBeginHere, CanLandHere, CanCloseHere};
ghost use Rattle.shared_desk.specs.Calls.Looping.{BeginsThere, LandsThere, ClosesThere};
ghost use Rattle.shared_desk.specs.Passes.{history_of};
ghost use Rattle.shared_desk.specs.Turns.{Stays};

use crate::passes::LoopPass;
use crate::shared::SharedDesk;
use ctl_trait::Controller;
use fixed_num::Memory;
use rt_flight::Flight;
use std::sync::Wait;

impl<C: Controller> SharedDesk<C> {
    /// The loop begins the next cycle, and its flight is handed out, which carries no turn. It may wait for the turn.
    /// If memory runs out there is no entry; if the history would have too many entries, memory runs out too.
    pub fn begin<R: Wait>(&self, rt: &R, pass: &mut LoopPass<C>) -> Result<Flight<C>, Memory>
        requires { CanBeginHere self.now.lock self.now.at_first.value pass.old.pass }
        ensures made { OnOk result
            (BeginsThere self.now.lock self.now.at_first.value pass.old.pass pass.new.pass) }
        ensures flight { IfOk result (IsOut (history_of self.now.at_first.value.opening pass.new.pass)) }
        ensures kept { OnErr result (Stays self.now.lock self.now.at_first.value pass.old.pass pass.new.pass) }
    {
        let pass = &mut pass.pass;
        let mut kept = self.take_turn(rt, pass);
        match kept.begin(self.alloc) {
            Ok(flight) => {
                self.put_grown(pass, kept);
                Ok(flight)
            }
            Err(Memory) => {
                self.lock.put(pass, kept);
                Err(Memory)
            }
        }
    }

    /// The computed flight of the cycle that is aloft lands, and the loop ends the cycle, whatever sessions have called
    /// since its begin. It may wait for the turn, and takes no memory.
    pub fn land<R: Wait>(&self, rt: &R, pass: &mut LoopPass<C>, flight: Flight<C>)
        requires { CanLandHere self.now.lock self.now.at_first.value pass.old.pass flight }
        ensures landed { LandsThere self.now.lock self.now.at_first.value pass.old.pass pass.new.pass }
    {
        let pass = &mut pass.pass;
        let mut kept = self.take_turn(rt, pass);
        kept.land(flight);
        self.put_grown(pass, kept);
    }

    /// The loop closes. It may wait for the turn, and takes no memory.
    pub fn close<R: Wait>(&self, rt: &R, pass: &mut LoopPass<C>)
        requires { CanCloseHere self.now.lock self.now.at_first.value pass.old.pass }
        ensures closed { ClosesThere self.now.lock self.now.at_first.value pass.old.pass pass.new.pass }
    {
        let pass = &mut pass.pass;
        let mut kept = self.take_turn(rt, pass);
        kept.close();
        self.put_grown(pass, kept);
    }
}
