//! What the lock keeps: a desk.

ghost use Rattle.std.specs.Prelude.{◌≡◌, ◌<◌, true, option_map, IfOk, OnErr, MatchOption};
ghost use Rattle.cm_document.specs.declared.call.Call.TheVariants as call;
ghost use Rattle.cm_model.specs.Boundary.{begin_reply, close_reply};
ghost use Rattle.cm_model.specs.Cycle.{cycle};
ghost use Rattle.cm_model.specs.Histories.{ends_in, decided_in};
ghost use Rattle.cm_model.specs.Machine.{can_begin, can_close};
ghost use Rattle.cm_desk.specs.Calls.Answers.{MayCall};
ghost use Rattle.cm_desk.specs.Desk.{Grows, Waits, GrowsWhere, IsRight, hands_out, now_of, IsOut, MayLand};

use cm_desk::Desk;
use cm_document::{Call, Checked};
use cm_model::{Blanks, Entry, Outcome, Reply};
use ctl_trait::Controller;
use fixed_num::Memory;
use rt_flight::Flight;
use std::alloc::Global;
use std::marker::Model;
use turn_lock::Kept;

/// The boot of a desk. No value of it is made: contracts alone speak of it, as of the state in which a history begins.
pub struct Opening {
    checked: Checked,
    blanks: Blanks,
    sessions: u32,
}

impl Model for Opening {
    ghost use Rattle.cm_model.specs.State.{State, boot};

    ghost Value = { State };

    ghost view = { λ o. boot o.checked o.blanks o.sessions };
}

/// A desk, as the lock keeps it: behind one pointer, because a turn moves it some six times. Contracts see its history.
#[derive(Drop)]
pub struct KeptDesk<C: Controller> {
    desk: Box<Desk<C>>,
}

impl<C: Controller> Model for KeptDesk<C> {
    ghost use Rattle.cm_desk.specs.Desk.{History};

    ghost Value = { History };

    ghost view = { λ k. k.desk.value };
}

impl<C: Controller> Kept for KeptDesk<C> {
    ghost use Rattle.shared_desk.specs.Shown.{shown_of, none_shown, more_shown};

    type Entry = Entry;

    type Ground = Opening;

    ghost entries = { λ k. k.made };

    ghost footing = { λ k. k.opening };

    ghost caller = { λ e. e.who };

    ghost shown = { shown_of };

    ghost shown_empty = { none_shown };

    ghost shown_grows = { more_shown };
}

impl<C: Controller> KeptDesk<C> {
    /// This desk.
    pub(crate) fn keep(alloc: Global, desk: Desk<C>) -> Result<KeptDesk<C>, Memory>
        ensures { IfOk result (λ kept. kept ≡ desk) }
    {
        Ok(KeptDesk {
            desk: Box::new(alloc, desk)?,
        })
    }

    /// The desk that is kept.
    pub(crate) fn into_desk(self) -> Desk<C>
        ensures { result ≡ self }
    {
        let KeptDesk { desk } = self;
        Box::into_inner(desk)
    }

    /// A call of a session.
    pub(crate) fn call(
        &mut self,
        alloc: Global,
        who: u32,
        call: Call,
    ) -> Result<(Reply, Option<C>), Memory>
        requires { MayCall self.old who call }
        ensures made { IfOk result
            (λ answer. Grows self.old self.new who call answer.0
            × (option_map C.meaning answer.1 ≡ hands_out (now_of self.old) call answer.0)) }
        ensures kept { OnErr result (self.new ≡ self.old) }
        ensures right { IsRight self.new }
    {
        self.desk.is_right();
        let answer = self.desk.call(alloc, who, call)?;
        self.desk.is_right();
        Ok(answer)
    }

    /// What became of a ticket, asked by a session.
    pub(crate) fn told(
        &mut self,
        alloc: Global,
        who: u32,
        ticket: u32,
    ) -> Result<Option<Outcome>, Memory>
        requires session { who < self.old.opening.sessions }
        ensures made { IfOk result
            (λ outcome. MatchOption outcome
            (Waits self.old self.new who (call.Told ticket))
            (λ o. Grows self.old self.new who (call.Told ticket) (Reply.Outcome o))) }
        ensures kept { OnErr result (self.new ≡ self.old) }
        ensures right { IsRight self.new }
    {
        let answer = self.desk.told(alloc, who, ticket);
        self.desk.is_right();
        answer
    }

    /// Whether so many cycles have ended or the loop is closed, asked by a session.
    pub(crate) fn reached(&mut self, alloc: Global, who: u32, cycles: u64) -> Result<bool, Memory>
        requires session { who < self.old.opening.sessions }
        ensures made { IfOk result
            (λ reached. GrowsWhere reached self.old self.new who (call.Await cycles) Reply.Done) }
        ensures kept { OnErr result (self.new ≡ self.old) }
        ensures right { IsRight self.new }
    {
        let answer = self.desk.reached(alloc, who, cycles);
        self.desk.is_right();
        answer
    }

    /// The loop begins the next cycle.
    pub(crate) fn begin(&mut self, alloc: Global) -> Result<Flight<C>, Memory>
        requires can { can_begin (now_of self.old) (now_of self.old).ended ≡ true }
        ensures made { IfOk result
            (λ flight. Grows self.old self.new self.old.opening.sessions (call.Begin (now_of self.old).ended)
            (begin_reply (now_of self.old)) × IsOut self.new flight) }
        ensures kept { OnErr result (self.new ≡ self.old) }
        ensures right { IsRight self.new }
    {
        self.desk.is_right();
        let flight = self.desk.begin(alloc)?;
        self.desk.is_right();
        Ok(flight)
    }

    /// The flight lands, and the loop ends the cycle.
    pub(crate) fn land(&mut self, flight: Flight<C>)
        requires flight { MayLand self.old flight }
        ensures made { Grows self.old self.new self.old.opening.sessions (call.End (now_of self.old).ended)
            (Reply.Cycle (cycle (now_of self.old)).happened) }
        ensures right { IsRight self.new }
    {
        self.desk.land(flight);
        self.desk.is_right();
    }

    /// The loop closes.
    pub(crate) fn close(&mut self)
        requires can { can_close (now_of self.old) ≡ true }
        ensures made { Grows self.old self.new self.old.opening.sessions call.Close (close_reply (now_of self.old)) }
        ensures right { IsRight self.new }
    {
        self.desk.close();
        self.desk.is_right();
    }

    /// How many cycles have ended.
    pub(crate) fn ended(&self) -> u64
        ensures { result ≡ ends_in self.now.made }
    {
        self.desk.is_right();
        self.desk.ended()
    }

    /// How many requests are decided.
    pub(crate) fn decided(&self) -> u64
        ensures { result ≡ decided_in self.now.made }
    {
        self.desk.is_right();
        self.desk.decided() as u64
    }

    /// What every kept desk keeps, for a caller's proof: it does nothing.
    pub(crate) fn is_right(&self)
        ensures { IsRight self.now }
    {
        self.desk.is_right();
    }
}
