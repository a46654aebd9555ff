//! A desk, with the flight of the cycle that is aloft as long as that is at hand.

ghost use Rattle.std.specs.Prelude.{◌≡◌, ◌<◌, true, None, is_some};
ghost use Rattle.cm_model.specs.State.{State};
ghost use Rattle.cm_desk.specs.Desk.{now_of, CanBeCalled};
ghost use Rattle.rt_flight.specs.Flights.{IsAloft, IsComputed};

use cm_desk::Desk;
use cm_document::{Call, Checked};
use cm_model::{Entry, Outcome, Reply};
use cm_stock::Stock;
use cm_storage::CycleRecord;
use ctl_trait::Controller;
use fixed_num::Memory;
use rt_flight::Flight;
use std::alloc::Global;
use std::marker::Model;
use std::thread;
use std::thread::Threads;

/// A desk, and the flight that it handed out. Each call of the loop says whether it could be made.
#[derive(Drop)]
pub(crate) struct Table<C: Controller> {
    desk: Desk<C>,
    flight: Option<Flight<C>>,
}

impl<C: Controller> Model for Table<C> {
    ghost use Rattle.std.specs.Prelude.{IfSome};
    ghost use Rattle.cm_desk.specs.Desk.{History};
    ghost use Rattle.cm_desk.specs.Desk.{IsAtHand};

    ghost Value = { History };

    ghost view = { λ t. t.desk };

    ghost invariant = { λ t. IfSome t.flight (IsAtHand t.desk) };
}

impl<C: Controller> Table<C> {
    /// A desk at boot.
    pub fn at_boot(
        alloc: Global,
        checked: Checked,
        stock: Stock<C>,
        sessions: u32,
    ) -> Result<Table<C>, Memory> {
        Ok(Table {
            desk: Desk::boot(alloc, checked, stock, sessions)?,
            flight: None,
        })
    }

    /// The number of sessions.
    pub fn sessions(&self) -> u32
        ensures { result ≡ self.now.opening.sessions }
    {
        self.desk.sessions()
    }

    /// The entries so far, in order.
    pub fn history(&self) -> &[Entry] {
        self.desk.history()
    }

    /// A session calls.
    pub fn call(
        &mut self,
        alloc: Global,
        who: u32,
        call: Call,
    ) -> Result<(Reply, Option<C>), Memory>
        requires session { who < self.old.opening.sessions }
        requires called { CanBeCalled call }
    {
        let answer = self.desk.call(alloc, who, call)?;
        Ok(answer)
    }

    /// A session asks what became of a ticket.
    pub fn told(&mut self, alloc: Global, who: u32, ticket: u32) -> Result<Option<Outcome>, Memory>
        requires session { who < self.old.opening.sessions }
    {
        let told = self.desk.told(alloc, who, ticket)?;
        Ok(told)
    }

    /// A session waits until so many cycles have ended.
    pub fn reached(&mut self, alloc: Global, who: u32, cycles: u64) -> Result<bool, Memory>
        requires session { who < self.old.opening.sessions }
    {
        let reached = self.desk.reached(alloc, who, cycles)?;
        Ok(reached)
    }

    /// The loop begins the next cycle.
    pub fn begin(&mut self, alloc: Global) -> Result<bool, Memory> {
        let desk = &self.desk;
        if desk.aloft() || desk.closed() || desk.ended() >= cycles_of(desk) {
            return Ok(false);
        }
        let flight = self.desk.begin(alloc)?;
        drop(self.flight.replace(flight));
        Ok(true)
    }

    /// The flight at hand is computed.
    pub fn compute(&mut self) -> bool {
        let Some(flight) = self.flight.take() else {
            return false;
        };
        if flight.computed() {
            drop(self.flight.replace(flight));
            return false;
        }
        drop(self.flight.replace(flown(flight)));
        true
    }

    /// What happened in the cycle of the flight at hand, if that is computed.
    pub fn outcome(&self) -> Option<&CycleRecord> {
        match &self.flight {
            Some(flight) if flight.computed() => Some(flight.outcome()),
            _ => None,
        }
    }

    /// The flight at hand lands.
    pub fn land(&mut self) -> bool {
        let Some(flight) = self.flight.take() else {
            return false;
        };
        if !flight.computed() {
            drop(self.flight.replace(flight));
            return false;
        }
        self.desk.land(flight);
        true
    }

    /// The flight at hand is dropped.
    pub fn lose(&mut self) -> bool {
        let lost = self.flight.take();
        let was = lost.is_some();
        drop(lost);
        was
    }

    /// The loop closes.
    pub fn close(&mut self) -> bool {
        if self.flight.is_some() || self.desk.aloft() || self.desk.closed() {
            return false;
        }
        self.desk.close();
        true
    }
}

impl<C: Controller + Send + 'static> Table<C> {
    /// The flight at hand is computed in another thread.
    pub fn compute_aside<R: Threads>(&mut self, rt: &R) -> bool {
        let Some(flight) = self.flight.take() else {
            return false;
        };
        if flight.computed() {
            drop(self.flight.replace(flight));
            return false;
        }
        drop(self.flight.replace(flown_aside(rt, flight)));
        true
    }
}

/// How many cycles the description has.
#[tactic(auto, using(cm_model::proofs::HistoryLemmas::description_stays))]
fn cycles_of<C: Controller>(desk: &Desk<C>) -> u64
    ensures { result ≡ (now_of desk.now).description.cycles }
{
    desk.checked().description().cycles
}

/// A flight, computed.
fn flown<C: Controller>(mut flight: Flight<C>) -> Flight<C>
    requires { flight.progress ≡ None }
    ensures cycle { (s : State) → IsAloft s flight → IsComputed s result }
    ensures computed { is_some result.outcome ≡ true }
{
    flight.compute();
    flight
}

/// A flight that was moved to another thread, computed there.
fn flown_aside<R: Threads, C: Controller + Send + 'static>(rt: &R, flight: Flight<C>) -> Flight<C>
    requires { flight.progress ≡ None }
    ensures cycle { (s : State) → IsAloft s flight → IsComputed s result }
    ensures computed { is_some result.outcome ≡ true }
{
    let (flight, ()) = thread::join(
        rt,
        move || -> Flight<C>
            requires { flight.progress ≡ None }
            ensures cycle { (s : State) → IsAloft s flight → IsComputed s result }
            ensures computed { is_some result.outcome ≡ true }
        { flown(flight) },
        || (),
    );
    flight
}
