//! What a session calls, each at a turn of its pass.

ghost use Rattle.std.specs.Prelude.{◌≡◌, option_map, None, IfOk, OnErr, MatchOption};
ghost use Rattle.cm_document.specs.declared.call.Call.TheVariants as call;
ghost use Rattle.cm_model.specs.Ports.{CanBeCalled};
ghost use Rattle.shared_desk.specs.Calls.Sessions.{Calls, CallsWhere, LooksInVain};
ghost use Rattle.shared_desk.specs.Passes.{IsSessionPass};
ghost use Rattle.shared_desk.specs.Turns.{Stays};

use crate::passes::Pass;
use crate::shared::SharedDesk;
use cm_document::Call;
use cm_model::{Outcome, Reply};
use ctl_trait::Controller;
use fixed_num::Memory;
use std::sync::Wait;

impl<C: Controller> SharedDesk<C> {
    /// Answers a call of the session, with the box that an unload hands out. It may wait for the turn. If memory runs
    /// out there is no entry; if the history would have too many entries, memory runs out too.
    pub fn call<R: Wait>(
        &self,
        rt: &R,
        pass: &mut Pass<C>,
        call: Call,
    ) -> Result<(Reply, Option<C>), Memory>
        requires console { IsSessionPass self.now.lock self.now.at_first.value pass.old }
        requires called { CanBeCalled call }
        ensures made { IfOk result
            (λ answer. Calls self.now.lock self.now.at_first.value pass.old pass.new call answer.0
            (option_map C.meaning answer.1)) }
        ensures kept { OnErr result (Stays self.now.lock self.now.at_first.value pass.old pass.new) }
    {
        let mut kept = self.take_turn(rt, pass);
        match kept.call(self.alloc, pass.number(), call) {
            Ok(answer) => {
                self.put_grown(pass, kept);
                Ok(answer)
            }
            Err(Memory) => {
                self.lock.put(pass, kept);
                Err(Memory)
            }
        }
    }

    /// What became of the request of a ticket. If it is not decided at this turn, the answer is None, and there is no
    /// entry. It may wait for the turn.
    pub fn told<R: Wait>(
        &self,
        rt: &R,
        pass: &mut Pass<C>,
        ticket: u32,
    ) -> Result<Option<Outcome>, Memory>
        requires console { IsSessionPass self.now.lock self.now.at_first.value pass.old }
        ensures made { IfOk result
            (λ outcome. MatchOption outcome
            (LooksInVain self.now.lock self.now.at_first.value pass.old pass.new (call.Told ticket))
            (λ o. Calls self.now.lock self.now.at_first.value pass.old pass.new (call.Told ticket)
            (Reply.Outcome o) None)) }
        ensures kept { OnErr result (Stays self.now.lock self.now.at_first.value pass.old pass.new) }
    {
        let mut kept = self.take_turn(rt, pass);
        match kept.told(self.alloc, pass.number(), ticket) {
            Ok(Some(outcome)) => {
                self.put_grown(pass, kept);
                Ok(Some(outcome))
            }
            Ok(None) => {
                self.lock.put(pass, kept);
                Ok(None)
            }
            Err(Memory) => {
                self.lock.put(pass, kept);
                Err(Memory)
            }
        }
    }

    /// Whether so many cycles have ended or the loop is closed. If neither is so at this turn, there is no entry. It
    /// may wait for the turn.
    pub fn reached<R: Wait>(&self, rt: &R, pass: &mut Pass<C>, cycles: u64) -> Result<bool, Memory>
        requires console { IsSessionPass self.now.lock self.now.at_first.value pass.old }
        ensures made { IfOk result
            (λ reached. CallsWhere reached self.now.lock self.now.at_first.value pass.old pass.new
            (call.Await cycles) Reply.Done) }
        ensures kept { OnErr result (Stays self.now.lock self.now.at_first.value pass.old pass.new) }
    {
        let mut kept = self.take_turn(rt, pass);
        match kept.reached(self.alloc, pass.number(), cycles) {
            Ok(true) => {
                self.put_grown(pass, kept);
                Ok(true)
            }
            Ok(false) => {
                self.lock.put(pass, kept);
                Ok(false)
            }
            Err(Memory) => {
                self.lock.put(pass, kept);
                Err(Memory)
            }
        }
    }
}
