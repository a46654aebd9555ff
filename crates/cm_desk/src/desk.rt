//! The desk: the manager at work, with the history of all that it did.

ghost use Rattle.std.specs.Prelude.{◌≡◌, ◌<◌, ◌≤◌, ◌+◌, true, [], map, length, vec_capacity};
ghost use Rattle.std.specs.Prelude.{option_map, IfOk, OnOk, MatchOption, MatchResult};
ghost use Rattle.cm_document.specs.declared.call.Call.TheVariants as call;
ghost use Rattle.cm_model.specs.Boundary.{begin_reply, close_reply};
ghost use Rattle.cm_model.specs.Cycle.{cycle};
ghost use Rattle.cm_model.specs.Machine.{can_begin, can_close};
ghost use Rattle.cm_model.specs.State.{boot};
ghost use Rattle.cm_desk.specs.Calls.Answers.{MayCall, IsHandedOver};
ghost use Rattle.cm_desk.specs.Desk.{now_of, Grows, Waits, GrowsWhere, hands_out, IsOut, MayLand};
ghost use Rattle.cm_desk.specs.Desk.{AreFew, HasRoomFor, LeavesFew, IsRight};

use crate::TOO_MANY_FOR_A_BOOK;
use crate::book::Book;
use crate::works::Works;
use cm_document::{Call, Checked};
use cm_model::{Blanks, Entry, Outcome, Reply};
use cm_stock::Stock;
use cm_storage::KeptCall;
use ctl_trait::Controller;
use fixed_num::Memory;
use rt_flight::Flight;
use sequence::Boxed;
use std::alloc::Global;
use std::marker::Model;

/// How many entries a call makes room for: its own, the end of a cycle that is aloft, and the close.
const ENTRIES_AHEAD: usize = 3;

/// The one object that changes. Contracts see its history with the state in which that began.
#[derive(Drop)]
pub struct Desk<C: Controller> {
    works: Works<C>,
    /// The blanks at boot.
    at_boot: Blanks,
    history: Vec<Entry>,
    /// No box yet, and room for all that are loaded.
    boxes: Vec<C>,
}

impl<C: Controller> Model for Desk<C> {
    ghost use Rattle.std.specs.Prelude.{◌≡◌, [], vec_capacity};
    ghost use Rattle.cm_model.specs.State.{boot};
    ghost use Rattle.cm_desk.specs.Desk.{History, Keeps, seen};

    ghost Value = { History };

    ghost view = { λ d. seen d.at_boot d.works d.history.items };

    ghost invariant = { λ d.
        Keeps (boot d.works.description d.at_boot d.works.sessions) d.history.items d.works (vec_capacity d.history)
        (vec_capacity d.boxes) × (d.boxes.items ≡ []) };
}

impl<C: Controller> Desk<C> {
    /// The desk at boot: nothing is loaded, aloft or ended, and the hardware is as described.
    pub fn boot(
        alloc: Global,
        checked: Checked,
        stock: Stock<C>,
        sessions: u32,
    ) -> Result<Desk<C>, Memory>
        ensures { IfOk result (λ desk. desk ≡ record { opening = boot checked stock sessions; made = [] }) }
    {
        let at_boot = stock.blanks();
        let history = Vec::with_capacity(alloc, ENTRIES_AHEAD)?;
        let works = Works::boot(alloc, checked, stock, sessions)?;
        Ok(Desk {
            works,
            at_boot,
            history,
            boxes: Vec::new(alloc),
        })
    }

    /// Answers a call of a session, with the box that an unload hands out. Want of memory changes nothing; a history
    /// that would have too many entries (`TOO_MANY_FOR_A_BOOK`) wants memory too.
    pub fn call(
        &mut self,
        alloc: Global,
        who: u32,
        call: Call,
    ) -> Result<(Reply, Option<C>), Memory>
        requires { MayCall self.old who call }
        ensures made { IfOk result (λ answer. Grows self.old self.new who call answer.0) }
        ensures given { IfOk result
            (λ answer. option_map C.meaning answer.1 ≡ hands_out (now_of self.old) call answer.0) }
        ensures kept { MatchResult result (λ _. AreFew self.new.made (now_of self.new)) (λ _. self.new ≡ self.old) }
    {
        let places = self.works.slots().len() + 1;
        let Ok(_) = make_ready(&mut self.history, &mut self.boxes, places) else {
            drop(call);
            return Err(Memory);
        };
        let asked = Boxed::new(alloc, call)?;
        let answer = self.works.answer(alloc, asked.get())?;
        self.history.push_reserved(Entry {
            who,
            call: KeptCall::of_boxed(asked),
            reply: answer.noted,
        });
        Ok((answer.reply, answer.given))
    }

    /// What became of the request of a ticket, asked by a session. If it is not decided, None, and nothing changes.
    /// Want of memory changes nothing either; a history that would have too many entries wants memory too.
    pub fn told(&mut self, alloc: Global, who: u32, ticket: u32) -> Result<Option<Outcome>, Memory>
        requires session { who < self.old.opening.sessions }
        ensures made { IfOk result
            (λ outcome. MatchOption outcome
            (Waits self.old self.new who (call.Told ticket))
            (λ o. Grows self.old self.new who (call.Told ticket) (Reply.Outcome o))) }
        ensures kept { MatchResult result (λ _. AreFew self.new.made (now_of self.new)) (λ _. self.new ≡ self.old) }
    {
        let Some(outcome) = self.works.told(ticket) else {
            return Ok(None);
        };
        make_room(&mut self.history)?;
        let told = copy_of(outcome)?;
        let entry = told_entry(alloc, who, ticket, outcome)?;
        self.history.push_reserved(entry);
        Ok(Some(told))
    }

    /// Whether so many cycles have ended or the loop is closed, asked by a session, which goes on if it is so. If
    /// not, nothing changes. Want of memory changes nothing either; a history that would have too many entries wants
    /// memory too.
    pub fn reached(&mut self, alloc: Global, who: u32, cycles: u64) -> Result<bool, Memory>
        requires session { who < self.old.opening.sessions }
        ensures made { IfOk result
            (λ reached. GrowsWhere reached self.old self.new who (call.Await cycles) Reply.Done) }
        ensures kept { MatchResult result (λ _. AreFew self.new.made (now_of self.new)) (λ _. self.new ≡ self.old) }
    {
        if !self.works.is_reached(cycles) {
            return Ok(false);
        }
        let kept = KeptCall::of(alloc, Call::Await(cycles))?;
        make_room(&mut self.history)?;
        self.history.push_reserved(Entry {
            who,
            call: kept,
            reply: Reply::Done,
        });
        Ok(true)
    }

    /// The loop begins the next cycle: the requests that wait are decided, all memory is taken that the cycle needs,
    /// and its flight is handed out, which is computed wherever it is moved to. Want of memory changes nothing; a
    /// history that would have too many entries, its end and the close included, wants memory too. A flight that is
    /// dropped leaves the desk aloft for good: console calls go on, and no cycle begins and the loop does not close any
    /// more.
    pub fn begin(&mut self, alloc: Global) -> Result<Flight<C>, Memory>
        requires can { can_begin (now_of self.old) (now_of self.old).ended ≡ true }
        ensures made { OnOk result
            (Grows self.old self.new self.old.opening.sessions (call.Begin (now_of self.old).ended)
            (begin_reply (now_of self.old))) }
        ensures flight { IfOk result (IsOut self.new) }
        ensures kept { MatchResult result (λ _. AreFew self.new.made (now_of self.new)) (λ _. self.new ≡ self.old) }
    {
        make_room(&mut self.history)?;
        let who = self.works.sessions();
        let cycle = self.works.ended();
        let (flight, decisions) = self.works.begin(alloc)?;
        self.history.push_reserved(Entry {
            who,
            call: KeptCall::begin(cycle),
            reply: Reply::Decisions(decisions),
        });
        Ok(flight)
    }

    /// The flight of the cycle that is aloft lands, which is computed, and the loop ends the cycle with the record of
    /// the flight. The boxes are back then, with what works in a cycle. It takes no memory.
    pub fn land(&mut self, flight: Flight<C>)
        requires flight { MayLand self.old flight }
        ensures made { Grows self.old self.new self.old.opening.sessions (call.End (now_of self.old).ended)
            (Reply.Cycle (cycle (now_of self.old)).happened) }
    {
        let who = self.works.sessions();
        let cycle = self.works.ended();
        let record = self.works.land(flight);
        self.history.push_reserved(Entry {
            who,
            call: KeptCall::end(cycle),
            reply: Reply::Cycle(record),
        });
    }

    /// The loop closes, and each request that waits is ended with it. It takes no memory.
    pub fn close(&mut self)
        requires can { can_close (now_of self.old) ≡ true }
        ensures made { Grows self.old self.new self.old.opening.sessions call.Close (close_reply (now_of self.old)) }
    {
        let who = self.works.sessions();
        let decisions = self.works.close();
        self.history.push_reserved(Entry {
            who,
            call: KeptCall::close(),
            reply: Reply::Decisions(decisions),
        });
    }

    /// The number of sessions, which is also that of the loop as a caller.
    pub fn sessions(&self) -> u32
        ensures { result ≡ self.now.opening.sessions }
    {
        self.works.sessions()
    }

    /// How many cycles have ended.
    pub fn ended(&self) -> u64
        ensures { result ≡ (now_of self.now).ended }
    {
        self.works.ended()
    }

    /// Whether a cycle has begun that has not ended.
    pub fn aloft(&self) -> bool
        ensures { result ≡ (now_of self.now).aloft }
    {
        self.works.is_aloft()
    }

    /// Whether the loop is closed.
    pub fn closed(&self) -> bool
        ensures { result ≡ (now_of self.now).closed }
    {
        self.works.is_closed()
    }

    /// How many requests are decided: those of the tickets below.
    pub fn decided(&self) -> u32
        ensures { result ≡ length (now_of self.now).outcomes }
    {
        self.works.decided()
    }

    /// The description that the desk runs on.
    pub fn checked(&self) -> &Checked
        ensures { result.now ≡ self.now.opening.description }
    {
        self.works.checked()
    }

    /// The entries so far, in order.
    pub fn history(&self) -> &[Entry]
        ensures { result.now ≡ self.now.made }
    {
        self.history.as_slice()
    }

    /// What every desk keeps of its history, for a caller's proof: it does nothing.
    pub fn is_right(&self)
        ensures { IsRight self.now }
    {
        let _ = &self.works;
    }

    /// The book: the history, which is legal and sound, and the boxes of the loaded controllers, by serial, each with
    /// the data that the history gives it. It takes no memory.
    pub fn finish(self) -> Book<C>
        requires closed { (now_of self).closed ≡ true }
        ensures { IsHandedOver self result.history.items (map C.meaning result.boxes.items) }
    {
        let Desk {
            works,
            history,
            boxes,
            ..
        } = self;
        Book {
            history,
            boxes: works.into_boxes(boxes),
        }
    }
}

/// Room for the entries of one call: its own, the end of a cycle that is aloft, and the close. If they would be too
/// many there is none.
#[tactic(auto, using(crate::proofs::RecordLemmas::owed_few))]
fn make_room(history: &mut Vec<Entry>) -> Result<(), Memory>
    ensures room { OnOk result (HasRoomFor history.old.items (vec_capacity history.new)) }
    ensures few { OnOk result (LeavesFew history.old.items) }
    ensures history { (history.new.items ≡ history.old.items)
        × (vec_capacity history.old ≤ vec_capacity history.new) }
{
    if history.len() >= TOO_MANY_FOR_A_BOOK - ENTRIES_AHEAD {
        return Err(Memory);
    }
    history.reserve(ENTRIES_AHEAD)?;
    Ok(())
}

/// Room for the entries of a call, and for so many more boxes.
fn make_ready<C: Controller>(
    history: &mut Vec<Entry>,
    boxes: &mut Vec<C>,
    places: usize,
) -> Result<(), Memory>
    ensures room { OnOk result (HasRoomFor history.old.items (vec_capacity history.new)
        × LeavesFew history.old.items × (length boxes.old.items + places ≤ vec_capacity boxes.new)) }
    ensures history { (history.new.items ≡ history.old.items)
        × (vec_capacity history.old ≤ vec_capacity history.new) }
    ensures boxes { (boxes.new.items ≡ boxes.old.items) × (vec_capacity boxes.old ≤ vec_capacity boxes.new) }
{
    make_room(history)?;
    boxes.reserve(places)?;
    Ok(())
}

/// The entry of a session that is told what became of the request of this ticket.
fn told_entry(alloc: Global, who: u32, ticket: u32, outcome: &Outcome) -> Result<Entry, Memory>
    ensures { IfOk result
        (λ entry. entry ≡ record { who = who; call = call.Told ticket; reply = Reply.Outcome outcome.now }) }
{
    Ok(Entry {
        who,
        call: KeptCall::of(alloc, Call::Told(ticket))?,
        reply: Reply::Outcome(Boxed::new(alloc, copy_of(outcome)?)?),
    })
}

/// An outcome once more.
fn copy_of(outcome: &Outcome) -> Result<Outcome, Memory>
    ensures { IfOk result (λ copy. copy ≡ outcome.now) }
{
    Ok(outcome.clone()?)
}
