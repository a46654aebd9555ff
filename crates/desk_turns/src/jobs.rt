//! The jobs: sessions over a desk, and the order in which they and the loop go on.

ghost use Rattle.std.specs.Prelude.{◌≡◌, ◌<◌, ◌^◌, [], true, length, map, IfOk, OnOk, OnErr, MatchResult};
ghost use Rattle.std.specs.List.{All};
ghost use Rattle.cm_document.specs.declared.call.Call.TheVariants as call;
ghost use Rattle.cm_document.specs.declared.document.Document.{Document};
ghost use Rattle.cm_model.specs.Scheduled.{settle, settle_from, start, turned};
ghost use Rattle.cm_model.specs.State.{boot};
ghost use Rattle.cm_desk.specs.Desk.{IsRight, now_of};
ghost use Rattle.console_session.specs.Sessions.{AreLines, left_of};
ghost use Rattle.desk_turns.specs.Jobs.{AreSessionsOf, IsComputedOnce, IsSameDesk, are_through, at, progress_of};

use crate::port::DeskPort;
use crate::sessions::waiting;
use cm_desk::Desk;
use cm_document::{Checked, Script, Turn};
use cm_stock::Stock;
use console_session::{Progress, Session};
use ctl_trait::Controller;
use fixed_num::Memory;
use rt_flight::Flight;
use std::alloc::Global;
use std::marker::Model;
use std::thread::Threads;

/// How far a run has come: its desk, with the history, where each session stands, and the flight of the cycle that is
/// aloft, if one is.
#[derive(Drop)]
pub struct RunningJob<'a, C: Controller> {
    desk: Desk<C>,
    sessions: Vec<Session<'a>>,
    /// It is computed before it lands.
    flight: Option<Flight<C>>,
}

impl<'a, C: Controller> Model for RunningJob<'a, C> {
    ghost use Rattle.desk_turns.specs.Jobs.{AreSessionsOf, HasFlight, JobFacts};

    ghost Value = { JobFacts };

    ghost view = { λ j. record { desk = j.desk; sessions = j.sessions.items } };

    ghost invariant = { λ j. AreSessionsOf j.desk j.sessions.items × HasFlight j.desk j.flight };
}

impl<'a, C: Controller> RunningJob<'a, C> {
    ghost use Rattle.cm_model.specs.Machine.{can_begin, can_end, can_close};
    ghost use Rattle.cm_model.specs.Scheduled.{settle_all, looped, with_cycle};
    ghost use Rattle.std.specs.Prelude.{◌&&◌};
    ghost use Rattle.desk_turns.specs.Jobs.{GoesOn, looped_on};

    /// A job over a desk at boot, with the script's sessions before their first lines.
    #[tactic(auto, unfolding(cm_model::specs::Scheduled::start))]
    pub fn start(
        alloc: Global,
        checked: Checked,
        script: &'a Script,
        stock: Stock<C>,
    ) -> Result<RunningJob<'a, C>, Memory>
        requires few { length script.now.sessions < 2 ^ 32 }
        requires lines { All (λ s. AreLines s.lines) script.now.sessions }
        ensures opening { IfOk result
            (λ job. job.desk.opening ≡ boot checked stock (length script.now.sessions)) }
        ensures started { IfOk result
            (λ job. progress_of job ≡ start (record { description = checked; script = script.now }) stock) }
    {
        let texts = script.sessions.as_slice();
        let sessions = waiting(alloc, texts)?;
        let desk = Desk::boot(alloc, checked, stock, texts.len() as u32)?;
        Ok(RunningJob {
            desk,
            sessions,
            flight: None,
        })
    }

    /// Its desk, with all that it did so far.
    pub fn desk(&self) -> &Desk<C>
        ensures { result.now ≡ self.now.desk }
    {
        &self.desk
    }

    /// Its desk, with all that it did.
    pub fn into_desk(self) -> Desk<C>
        ensures desk { result ≡ self.entry.desk }
        ensures right { IsRight result }
    {
        let RunningJob { desk, .. } = self;
        desk.is_right();
        desk
    }

    /// All sessions settle, in order.
    #[tactic(auto, unfolding(cm_model::specs::Scheduled::settle_all))]
    pub(crate) fn settle_all(&mut self, alloc: Global) -> Result<(), Memory>
        ensures { OnOk result (GoesOn settle_all self.old self.new) }
    {
        settle_each(alloc, &mut self.sessions, &mut self.desk)
    }

    /// The loop begins the cycle of this number, if it can.
    #[tactic(auto, unfolding(cm_model::specs::Scheduled::looped))]
    pub(crate) fn begin(&mut self, alloc: Global, number: u64) -> Result<(), Memory>
        ensures moved { OnOk result (GoesOn (looped (call.Begin number)) self.old self.new) }
        ensures kept { OnErr result (self.new ≡ self.old) }
    {
        if self.can_begin(number) {
            let flight = self.desk.begin(alloc)?;
            drop(self.flight.replace(flight));
        }
        Ok(())
    }

    fn can_begin(&self, number: u64) -> bool
        ensures { result ≡ can_begin (now_of self.now.desk) number }
    {
        !self.desk.aloft()
            && !self.desk.closed()
            && self.desk.ended() == number
            && number < self.all_cycles()
    }

    /// How many cycles the description has.
    #[tactic(auto, using(cm_model::proofs::HistoryLemmas::description_stays))]
    fn all_cycles(&self) -> u64
        ensures { result ≡ (now_of self.now.desk).description.cycles }
    {
        self.desk.checked().description().cycles
    }

    /// How many cycles have ended.
    pub(crate) fn ended(&self) -> u64
        ensures { result ≡ (now_of self.now.desk).ended }
    {
        self.desk.ended()
    }

    /// The loop ends the cycle of this number, if it can.
    #[tactic(auto, unfolding(cm_model::specs::Scheduled::looped))]
    pub(crate) fn end(&mut self, number: u64)
        ensures { GoesOn (looped (call.End number)) self.old self.new }
    {
        if self.can_end(number) {
            let Some(mut flight) = self.flight.take() else {
                unreachable!();
            };
            compute_once(&mut flight);
            self.desk.land(flight);
        }
    }

    fn can_end(&self, number: u64) -> bool
        ensures { result ≡ can_end (now_of self.now.desk) number }
    {
        self.desk.aloft() && self.desk.ended() == number
    }

    /// The loop closes, if it can.
    #[tactic(auto, unfolding(cm_model::specs::Scheduled::looped))]
    pub(crate) fn close(&mut self)
        ensures { GoesOn (looped call.Close) self.old self.new }
    {
        if self.can_close() {
            self.desk.close();
        }
    }

    fn can_close(&self) -> bool
        ensures { result ≡ can_close (now_of self.now.desk) }
    {
        !self.desk.aloft() && !self.desk.closed()
    }

    /// The loop makes its next call, if it has one left: the end of the cycle that is aloft, else the begin of the next
    /// one, and behind the last the close. Want of memory changes nothing.
    pub fn go_on(&mut self, alloc: Global) -> Result<(), Memory>
        ensures moved { OnOk result (GoesOn looped_on self.old self.new) }
        ensures kept { OnErr result (self.new ≡ self.old) }
    {
        let cycle = self.ended();
        if self.desk.aloft() {
            self.end(cycle);
            return Ok(());
        }
        if cycle < self.all_cycles() {
            return self.begin(alloc, cycle);
        }
        Ok(self.close())
    }

    /// Whether nobody has a call left: each session has made its lines and was told of its tickets, and the loop is
    /// closed.
    pub fn is_through(&self) -> bool
        ensures { result ≡ are_through self.now.sessions && (now_of self.now.desk).closed }
    {
        are_ended(self.sessions.as_slice()) && self.desk.closed()
    }

    /// A turn, if it can be made. Want of memory changes nothing.
    pub fn turn(&mut self, alloc: Global, turn: &Turn) -> Result<(), Memory>
        ensures moved { OnOk result (GoesOn (turned turn.now) self.old self.new) }
        ensures kept { OnErr result (self.new ≡ self.old) }
    {
        let cycle = self.ended();
        match *turn {
            Turn::Step(who) => step(alloc, who, &mut self.sessions, &mut self.desk)?,
            Turn::Begin => self.begin(alloc, cycle)?,
            Turn::End => self.end(cycle),
        }
        Ok(())
    }
}

/// A flight that is out is computed by so many workers, if it was not started yet.
pub(crate) fn compute_by<R: Threads + Sync, C: Controller + Send>(
    rt: &R,
    job: &mut RunningJob<'_, C>,
    workers: u32,
)
    ensures { job.new ≡ job.old }
{
    if let Some(flight) = &mut job.flight {
        compute_once_by(rt, flight, workers);
    }
}

/// A flight is computed, if it was not started yet.
fn compute_once<C: Controller>(flight: &mut Flight<C>)
    ensures { IsComputedOnce flight.old flight.new }
{
    if !flight.started() {
        flight.compute();
    }
}

/// The same, by so many workers.
fn compute_once_by<R: Threads + Sync, C: Controller + Send>(
    rt: &R,
    flight: &mut Flight<C>,
    workers: u32,
)
    ensures { IsComputedOnce flight.old flight.new }
{
    if !flight.started() {
        par_update::compute_by(rt, flight, workers);
    }
}

/// Whether none of these sessions has a call left.
fn are_ended(sessions: &[Session<'_>]) -> bool
    ensures { result ≡ are_through sessions.now }
{
    sessions.iter().all(|session| session.ended())
}

/// The sessions of a desk settle in order.
fn settle_each<C: Controller>(
    alloc: Global,
    sessions: &mut [Session<'_>],
    desk: &mut Desk<C>,
) -> Result<(), Memory>
    requires { AreSessionsOf desk.old sessions.old }
    ensures settled { OnOk result
        (settle_from 0 (map left_of sessions.old) (now_of desk.old) desk.old.made []
        ≡ progress_of (record { desk = desk.new; sessions = sessions.new })) }
    ensures desk { IsSameDesk desk.old desk.new }
    ensures numbered { AreSessionsOf desk.new sessions.new }
{
    for who in 0..desk.sessions() {
        settle(alloc, &mut sessions[who as usize], desk)?;
    }
    Ok(())
}

/// A session settles: it advances over the console of its number until it cannot.
fn settle<C: Controller>(
    alloc: Global,
    session: &mut Session<'_>,
    desk: &mut Desk<C>,
) -> Result<(), Memory>
    requires { session.old.who < desk.old.opening.sessions }
    ensures settled { OnOk result
        (settle session.old.who (at desk.old (left_of session.old)) ≡ at desk.new (left_of session.new)) }
    ensures desk { IsSameDesk desk.old desk.new }
    ensures number { session.new.who ≡ session.old.who }
{
    let mut port = DeskPort::over(alloc, desk, session.who());
    while let Progress::Ran = session.advance(&mut port)? {}
    Ok(())
}

/// The session of this number advances once, where there is one that can.
fn step<C: Controller>(
    alloc: Global,
    who: u32,
    sessions: &mut [Session<'_>],
    desk: &mut Desk<C>,
) -> Result<(), Memory>
    requires { AreSessionsOf desk.old sessions.old }
    ensures stepped { MatchResult result
        (λ _. progress_of (record { desk = desk.new; sessions = sessions.new })
        ≡ turned (Turn.Step who) (progress_of (record { desk = desk.old; sessions = sessions.old })))
        (λ _. (desk.new ≡ desk.old) × (sessions.new ≡ sessions.old)) }
    ensures desk { IsSameDesk desk.old desk.new }
    ensures numbered { AreSessionsOf desk.new sessions.new }
{
    if who >= desk.sessions() {
        return Ok(());
    }
    let mut port = DeskPort::over(alloc, desk, who);
    sessions[who as usize].advance(&mut port)?;
    Ok(())
}
