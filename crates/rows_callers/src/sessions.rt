//! A session over a small console, advance by advance.

ghost use Rattle.std.specs.Prelude.{◌≡◌, ◌++◌, ◌∷◌, [], IfOk, OnOk, OnErr};
ghost use Rattle.cm_document.specs.declared.call.Call.TheVariants as call;
ghost use Rattle.console_session.specs.Sessions.{AreLines};

use crate::lines::{MOST_LINES, lines_of};
use cm_document::{Call, SessionText};
use cm_model::{Entry, Outcome, Port, Reply, Why};
use cm_storage::KeptCall;
use console_session::{Progress, Session};
use fixed_num::Memory;
use pages_calls::calls::name_of;
use pages_calls::replies::push_reply;
use pages_cases::pages::{expanded, halves, hold_told};
use sequence::{Boxed, SharedList};
use std::alloc::Global;
use std::test::Fail;

#[test]
fn a_session_makes_its_lines_and_is_told(rt: HostRuntime) -> Result<(), Fail> {
    let alloc = rt.alloc();
    for case in SESSIONS.split("\n\n") {
        hold_case(alloc, case)?;
    }
    Ok(())
}

// ---- A console

/// A console of session 0. A load is given a serial, a switch and a move of a component a ticket; a send is refused,
/// and every other call is done. It tells nothing of the history behind it.
#[derive(Drop)]
struct Console {
    alloc: Global,
    made: Vec<Entry>,
    /// How often it answered that something is not so yet.
    waited: u64,
    loads: u32,
    tickets: u32,
    /// How many tickets are decided.
    decided: u32,
    /// How many cycles have ended.
    ended: u64,
    /// Whether it has no memory.
    is_out: bool,
}

impl Console {
    /// One entry more, where there is memory.
    fn note(&mut self, call: Call, reply: Reply) -> Result<(), Memory>
        ensures ok { OnOk result
            (self.new.made.items ≡ self.old.made.items ++ record { who = 0; call = call; reply = reply } ∷ []) }
        ensures err { OnErr result (self.new.made.items ≡ self.old.made.items) }
        ensures waited { self.new.waited ≡ self.old.waited }
    {
        if self.is_out {
            return Err(Memory);
        }
        let entry = Entry {
            who: 0,
            call: KeptCall::of(self.alloc, call)?,
            reply,
        };
        self.made.push(entry)?;
        Ok(())
    }
}

/// What a call is given.
#[derive(Clone, Copy)]
enum Answer {
    Serial,
    Ticket,
    Refusal,
    Nothing,
}

/// What this call is given.
fn answer_to(call: &Call) -> Answer {
    match call {
        Call::Load(_) => Answer::Serial,
        Call::Switch(_) | Call::Hardware { .. } => Answer::Ticket,
        Call::Send { .. } => Answer::Refusal,
        _ => Answer::Nothing,
    }
}

impl Port for Console {
    ghost use Rattle.std.specs.Prelude.{ℕ, [], None};
    ghost use Rattle.cm_document.specs.Described.{a_description};
    ghost use Rattle.cm_model.specs.Blanks.{no_blanks};
    ghost use Rattle.cm_model.specs.State.{boot};

    ghost Ground = { ℕ };

    ghost footing = { λ _. 0 };

    ghost tells = { λ c. record {
      who = 0;
      opening = boot (a_description 1 100 0 [] []) no_blanks 1;
      made = c.made.items;
      waited = c.waited;
      whole = None;
      seen = None;
    } };

    fn call(&mut self, call: Call) -> Result<Reply, Memory> {
        match answer_to(&call) {
            Answer::Serial => {
                let serial = self.loads;
                self.note(call, Reply::Serial(serial))?;
                self.loads = serial.saturating_add(1);
                Ok(Reply::Serial(serial))
            }
            Answer::Ticket => {
                let ticket = self.tickets;
                self.note(call, Reply::Queued(ticket))?;
                self.tickets = ticket.saturating_add(1);
                Ok(Reply::Queued(ticket))
            }
            Answer::Refusal => {
                self.note(call, Reply::Not(Why::NotActive))?;
                Ok(Reply::Not(Why::NotActive))
            }
            Answer::Nothing => {
                self.note(call, Reply::Done)?;
                Ok(Reply::Done)
            }
        }
    }

    fn told(&mut self, ticket: u32) -> Result<Option<Outcome>, Memory> {
        if ticket >= self.decided {
            self.waited = self.waited.saturating_add(1);
            return Ok(None);
        }
        let told = Outcome::Done {
            dropped: SharedList::none(),
        };
        let kept = Boxed::new(self.alloc, told)?;
        self.note(Call::Told(ticket), Reply::Outcome(kept))?;
        Ok(Some(Outcome::Done {
            dropped: SharedList::none(),
        }))
    }

    fn reached(&mut self, cycles: u64) -> Result<bool, Memory> {
        if cycles > self.ended {
            self.waited = self.waited.saturating_add(1);
            return Ok(false);
        }
        self.note(Call::Await(cycles), Reply::Done)?;
        Ok(true)
    }
}

// ---- A session

/// A session over its console.
#[derive(Drop)]
struct Operator<'a> {
    session: Session<'a>,
    console: Console,
}

/// Fails at the first act of a case of which something else is told than it says. The session borrows its lines, which
/// stand before the acts.
fn hold_case(alloc: Global, case: &str) -> Result<(), Fail> {
    let case = expanded(alloc, case)?;
    let text = text_of(alloc, case.as_str())?;
    let mut operator = Operator {
        session: Session::make(0, &text),
        console: new_console(alloc),
    };
    for line in case.as_str().lines() {
        hold_act(alloc, &mut operator, line)?;
    }
    Ok(())
}

/// The lines of a case that are no acts.
fn text_of(alloc: Global, case: &str) -> Result<SessionText, Fail>
    ensures { IfOk result (λ text. AreLines text.lines) }
{
    let (before, _) = halves(case, " => ")?;
    let Some((lines, _)) = before.rsplit_once("\n") else {
        return Err(Fail::new("a case without lines"));
    };
    Ok(SessionText {
        name: name_of(alloc, "a")?,
        lines: lines_of(alloc, lines)?,
    })
}

/// Fails where something else is told of an act than its line says.
fn hold_act(alloc: Global, operator: &mut Operator<'_>, line: &str) -> Result<(), Fail> {
    let Some((act, want)) = line.split_once(" => ") else {
        return Ok(());
    };
    let told = told_of(alloc, operator, act)?;
    hold_told(alloc, act, told.as_str(), want)
}

/// Does an act, and tells what came of it.
fn told_of(alloc: Global, operator: &mut Operator<'_>, act: &str) -> Result<String, Fail> {
    let console = &mut operator.console;
    let mut told = String::new(alloc);
    match act {
        "decide" => console.decided = console.decided.saturating_add(1),
        "cycle" => console.ended = console.ended.saturating_add(1),
        "no memory" => console.is_out = true,
        "memory" => console.is_out = false,
        "to the end" => push_rest(&mut told, operator)?,
        _ => push_advance(&mut told, operator)?,
    }
    push_standing(&mut told, &operator.session)?;
    Ok(told)
}

fn new_console(alloc: Global) -> Console {
    Console {
        alloc,
        made: Vec::new(alloc),
        waited: 0,
        loads: 0,
        tickets: 0,
        decided: 0,
        ended: 0,
        is_out: false,
    }
}

/// Advances, and appends what that came to.
fn push_advance(told: &mut String, operator: &mut Operator<'_>) -> Result<(), Fail> {
    match operator.session.advance(&mut operator.console) {
        Ok(Progress::Ran) => push_last(told, operator.console.made.as_slice())?,
        Ok(Progress::Waits) => told.push_str("waits")?,
        Ok(Progress::Ended) => told.push_str("ended")?,
        Err(Memory) => told.push_str("no memory")?,
    }
    told.push_str("; ")?;
    Ok(())
}

/// Appends the last entry.
fn push_last(told: &mut String, made: &[Entry]) -> Result<(), Fail> {
    let entry = made.last().ok_or("no entry")?;
    write!(told, "{}: ", entry.call)?;
    push_reply(told, &entry.reply)
}

/// Advances as often as a session can make entries, one time more, and appends how many it made.
fn push_rest(told: &mut String, operator: &mut Operator<'_>) -> Result<(), Fail> {
    let mut made: u32 = 0;
    for _ in 0..2 * MOST_LINES + 1 {
        if let Ok(Progress::Ran) = operator.session.advance(&mut operator.console) {
            made = made.saturating_add(1);
        }
    }
    write!(told, "{made} entries; ")?;
    Ok(())
}

/// Appends where a session stands.
fn push_standing(told: &mut String, session: &Session<'_>) -> Result<(), Fail> {
    write!(told, "at {}", session.line())?;
    if let Some(ticket) = session.ticket() {
        write!(told, ", of {ticket}")?;
    }
    told.push_str(if session.ended() { ", ended" } else { "" })?;
    Ok(())
}

/// Behind an advance stands the entry that it made, or why none, and behind each act where the session stands: the
/// number of its next line, the ticket that it has to be told of, and whether it has ended. A refused line is made like
/// any other; a request holds the session until its ticket is decided, and one await until its cycle has ended; and
/// want of memory leaves it where it is.
const SESSIONS: &str = "\
load mk
send mk 1
switch strict +mk
await 1
list controllers
hw arm inactive
advance => load mk: ok 0; at 1
advance => send mk 1.000000: not_active; at 2
advance => switch strict +mk: queued 0; at 3, of 0
advance => waits; at 3, of 0
cycle => at 3, of 0
advance => waits; at 3, of 0
decide => at 3, of 0
advance => told 0: done; at 3
advance => await 1: ok; at 4
advance => list controllers: ok; at 5
advance => hw arm inactive: queued 1; at 6, of 1
advance => waits; at 6, of 1
decide => at 6, of 1
advance => told 1: done; at 6, ended
advance => ended; at 6, ended

await 2
load mk
load mk
advance => waits; at 0
cycle => at 0
advance => waits; at 0
cycle => at 0
no memory => at 0
advance => no memory; at 0
memory => at 0
advance => await 2: ok; at 1
no memory => at 1
advance => no memory; at 1
memory => at 1
advance => load mk: ok 0; at 2
advance => load mk: ok 1; at 3, ended

switch strict
switch best
decide => at 0
no memory => at 0
advance => no memory; at 0
memory => at 0
advance => switch strict: queued 0; at 1, of 0
no memory => at 1, of 0
advance => no memory; at 1, of 0
memory => at 1, of 0
advance => told 0: done; at 1
advance => switch best: queued 1; at 2, of 1
advance => waits; at 2, of 1
decide => at 2, of 1
advance => told 1: done; at 2, ended

await 0
to the end => 1 entries; at 1, ended

<0..10000 * await 0
>\
to the end => 10000 entries; at 10000, ended

<0..5000 * load mk
switch strict +mk
>\
advance => load mk: ok 0; at 1
to the end => 1 entries; at 2, of 0
decide => at 2, of 0
advance => told 0: done; at 2
advance => load mk: ok 1; at 3
to the end => 1 entries; at 4, of 1";
