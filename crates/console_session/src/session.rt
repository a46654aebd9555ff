//! A session and its advance.

ghost use Rattle.std.specs.Prelude.{◌≡◌, ◌<◌, length, None, true, IfOk, IfSome, OnErr, MatchOption};
ghost use Rattle.cm_model.specs.Scheduled.{ticket_in};
ghost use Rattle.cm_model.specs.Ports.{Makes, MakesNone, IsNotYet};
ghost use Rattle.console_session.specs.Sessions.{IsLine, AreLines, SessionState, awaited, at_first};
ghost use Rattle.console_session.specs.Sessions.{next_of, Advances, HasStopped, AdvancesAsWritten};

use cm_document::{Call, SessionText};
use cm_model::{Port, Reply};
use fixed_num::Memory;
use std::marker::Model;

/// What an advance came to.
#[derive(Clone, Copy, Debug, PartialEq, Eq)]
pub enum Progress {
    /// One entry was made: the Told of the ticket, else the next line.
    Ran,
    /// That is not enabled yet.
    Waits,
    /// No line is left, and no ticket.
    Ended,
}

/// An operator's session: its lines, which the script lends, how many of them it has made, and the ticket of its last
/// request until it is told of it.
#[derive(Debug, Drop)]
pub struct Session<'a> {
    who: u32,
    text: &'a SessionText,
    line: u32,
    ticket: Option<u32>,
}

impl<'a> Model for Session<'a> {
    ghost use Rattle.std.specs.Prelude.{◌≤◌, length};
    ghost use Rattle.console_session.specs.Sessions.{SessionState, AreLines};

    ghost Value = { SessionState };

    ghost view = { λ s. record { who = s.who; lines = s.text.now.lines; line = s.line; ticket = s.ticket } };

    ghost invariant = { λ s. AreLines s.text.now.lines × (s.line ≤ length s.text.now.lines) };
}

impl<'a> Session<'a> {
    ghost use Rattle.std.specs.Prelude.{◌≤◌, Some, is_none};

    /// A session of this number before its first line.
    pub fn make(who: u32, text: &'a SessionText) -> Session<'a>
        requires { AreLines text.now.lines }
        ensures { result ≡ at_first who text.now.lines }
    {
        Session {
            who,
            text,
            line: 0,
            ticket: None,
        }
    }

    /// Makes its next call over its console, where that is enabled: it is told of its ticket, else it makes its next
    /// line. Want of memory makes none, and the session stays as it was.
    pub fn advance<P: Port>(&mut self, port: &mut P) -> Result<Progress, Memory>
        ensures advanced { IfOk result
            (λ progress. Advances progress (P.tells port.old) (P.tells port.new) self.old self.new) }
        ensures as_written { IfOk result
            (λ progress. AdvancesAsWritten progress (P.tells port.old) (P.tells port.new) self.old self.new) }
        ensures kept { OnErr result (HasStopped (P.tells port.old) (P.tells port.new) self.old self.new) }
        ensures still { P.footing port.new ≡ P.footing port.old }
    {
        match self.ticket {
            Some(ticket) => self.be_told(port, ticket),
            None => self.make_line(port),
        }
    }

    /// It is told of its ticket, where that is decided.
    fn be_told<P: Port>(&mut self, port: &mut P, ticket: u32) -> Result<Progress, Memory>
        requires { self.old.ticket ≡ Some ticket }
        ensures advanced { IfOk result
            (λ progress. Advances progress (P.tells port.old) (P.tells port.new) self.old self.new) }
        ensures kept { OnErr result (HasStopped (P.tells port.old) (P.tells port.new) self.old self.new) }
        ensures still { P.footing port.new ≡ P.footing port.old }
    {
        if port.told(ticket)?.is_none() {
            return Ok(Progress::Waits);
        }
        self.ticket = None;
        Ok(Progress::Ran)
    }

    /// It makes its next line, where there is one that is enabled.
    fn make_line<P: Port>(&mut self, port: &mut P) -> Result<Progress, Memory>
        requires { self.old.ticket ≡ None }
        ensures advanced { IfOk result
            (λ progress. Advances progress (P.tells port.old) (P.tells port.new) self.old self.new) }
        ensures kept { OnErr result (HasStopped (P.tells port.old) (P.tells port.new) self.old self.new) }
        ensures still { P.footing port.new ≡ P.footing port.old }
    {
        let Some(call) = self.text.lines.as_slice().get(self.line as usize) else {
            return Ok(Progress::Ended);
        };
        let Some(reply) = ask(port, call)? else {
            return Ok(Progress::Waits);
        };
        self.line += 1;
        self.ticket = ticket_in(&reply);
        Ok(Progress::Ran)
    }

    /// Its number among the sessions.
    pub fn who(&self) -> u32
        ensures { result ≡ self.now.who }
    {
        self.who
    }

    /// The number of its next line, from 0 on.
    pub fn line(&self) -> u32
        ensures { result ≡ self.now.line }
    {
        self.line
    }

    /// The ticket that it has still to be told of.
    pub fn ticket(&self) -> Option<u32>
        ensures { result ≡ self.now.ticket }
    {
        self.ticket
    }

    /// What every session keeps of its lines, for a caller's proof: it does nothing.
    pub fn is_right(&self)
        ensures { AreLines self.now.lines }
    {
        let _ = &self.text;
    }

    /// Whether it has no line left, and no ticket.
    pub fn ended(&self) -> bool
        ensures { result ≡ is_none (next_of self.now) }
    {
        match self.ticket {
            Some(_) => false,
            None => self.line as usize == self.text.lines.as_slice().len(),
        }
    }
}

/// Makes a line, where it is enabled: its reply, or None where it waits.
fn ask<P: Port>(port: &mut P, call: &Call) -> Result<Option<Reply>, Memory>
    requires { IsLine call.now }
    ensures made { IfOk result
        (λ reply. MatchOption reply
        (IsNotYet (P.tells port.old) (P.tells port.new) call.now)
        (Makes (P.tells port.old) (P.tells port.new) call.now)) }
    ensures kept { OnErr result (MakesNone (P.tells port.old) (P.tells port.new)) }
    ensures still { P.footing port.new ≡ P.footing port.old }
{
    if let Some(cycles) = awaited(call) {
        return await_cycles(port, cycles);
    }
    Ok(Some(port.call(copy_of(call)?)?))
}

/// How many cycles a line waits for, where it is an await.
fn awaited(call: &Call) -> Option<u64>
    ensures { result ≡ awaited call.now }
{
    match call {
        Call::Await(cycles) => Some(*cycles),
        _ => None,
    }
}

/// Goes on where so many cycles have ended or the loop is closed, and else waits.
fn await_cycles<P: Port>(port: &mut P, cycles: u64) -> Result<Option<Reply>, Memory>
    ensures made { IfOk result
        (λ reply. MatchOption reply
        (IsNotYet (P.tells port.old) (P.tells port.new) (Call.Await cycles))
        (Makes (P.tells port.old) (P.tells port.new) (Call.Await cycles))) }
    ensures kept { OnErr result (MakesNone (P.tells port.old) (P.tells port.new)) }
    ensures still { P.footing port.new ≡ P.footing port.old }
{
    if port.reached(cycles)? {
        return Ok(Some(Reply::Done));
    }
    Ok(None)
}

/// A copy of a line, which its console keeps.
fn copy_of(call: &Call) -> Result<Call, Memory>
    ensures { IfOk result (λ copy. copy ≡ call.now) }
{
    Ok(call.clone()?)
}

/// The ticket that a request was given.
fn ticket_in(reply: &Reply) -> Option<u32>
    ensures { result ≡ ticket_in reply.now }
{
    match reply {
        Reply::Queued(ticket) => Some(*ticket),
        _ => None,
    }
}
