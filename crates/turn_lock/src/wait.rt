//! Waiting for a turn: a ticket is drawn, and the served one is looked at until it is the same.

ghost use Rattle.std.specs.Prelude.{◌≡◌, true, false, [], ◌∷◌, MatchOption};
ghost use Rattle.turn_lock.specs.Stands.{stands};
ghost use Rattle.turn_lock.specs.Calls.Take.{Waits, Found};

use crate::kept::Kept;
use crate::lock::TurnLock;
use crate::steps::{Draws, Looks};
use crate::table::{LockSeat, SERVING, SLOT, Spot, TICKET};
use std::sync::Wait;
use std::{hint, thread};

/// How often a pass looks before it lets other threads run: a turn that ends soon comes sooner than another thread.
const LOOKS: u32 = 16;

/// How often a pass lets other threads run before it sleeps. A sleep and its end cost more than a turn. So if more
/// passes want turns than there are processors, and all sleep at once, few turns are taken.
const YIELDS: u32 = 16;

impl<K: Kept> TurnLock<K> {
    /// Draws a ticket, and gives its word.
    pub(crate) fn draw(&self, seat: &mut LockSeat<K>) -> u64
        requires table { seat.old.table_id ≡ self.now.table.shared.table_id }
        requires idle { (seat.old.me.0.alive ≡ true) × (seat.old.me.0.holds ≡ false) × (stands seat.old.me ≡ true) }
        ensures table { seat.new.table_id ≡ seat.old.table_id }
        ensures waits { Waits seat.old.me seat.new.me result }
    {
        self.table.shared.fetch_add::<Draws>(seat, TICKET, 1)
    }

    /// Waits until the ticket is served, and takes the value.
    pub(crate) fn wait<R: Wait>(&self, rt: &R, seat: &mut LockSeat<K>, mine: u64) -> K
        requires table { seat.old.table_id ≡ self.now.table.shared.table_id }
        requires waits { Waits seat.old.me seat.old.me mine }
        ensures table { seat.new.table_id ≡ seat.old.table_id }
        ensures found { Found ⟦<K as Kept>⟧ seat.old.me seat.new.me result }
    {
        for _ in rt.forever() {
            if let Some(kept) = self.look_long(seat, mine) {
                return kept;
            }
            self.sleep(rt, mine);
        }
        unreachable!()
    }

    /// Looks, and lets other threads run between its looks.
    fn look_long(&self, seat: &mut LockSeat<K>, mine: u64) -> Option<K>
        requires table { seat.old.table_id ≡ self.now.table.shared.table_id }
        requires waits { Waits seat.old.me seat.old.me mine }
        ensures table { seat.new.table_id ≡ seat.old.table_id }
        ensures looked { MatchOption result (seat.new.me ≡ seat.old.me) (Found ⟦<K as Kept>⟧ seat.old.me seat.new.me) }
    {
        for _ in 0..YIELDS {
            if let Some(kept) = self.look_often(seat, mine) {
                return Some(kept);
            }
            thread::yield_now();
        }
        None
    }

    /// Looks some times.
    fn look_often(&self, seat: &mut LockSeat<K>, mine: u64) -> Option<K>
        requires table { seat.old.table_id ≡ self.now.table.shared.table_id }
        requires waits { Waits seat.old.me seat.old.me mine }
        ensures table { seat.new.table_id ≡ seat.old.table_id }
        ensures looked { MatchOption result (seat.new.me ≡ seat.old.me) (Found ⟦<K as Kept>⟧ seat.old.me seat.new.me) }
    {
        for _ in 0..LOOKS {
            if let Some(kept) = self.look(seat, mine) {
                return Some(kept);
            }
            hint::spin_loop();
        }
        None
    }

    /// Looks once: the value where the ticket is served, else nothing changes.
    fn look(&self, seat: &mut LockSeat<K>, mine: u64) -> Option<K>
        requires table { seat.old.table_id ≡ self.now.table.shared.table_id }
        requires waits { Waits seat.old.me seat.old.me mine }
        ensures table { seat.new.table_id ≡ seat.old.table_id }
        ensures looked { MatchOption result (seat.new.me ≡ seat.old.me) (Found ⟦<K as Kept>⟧ seat.old.me seat.new.me) }
    {
        if self.table.shared.load::<Looks>(seat, SERVING) != mine {
            return None;
        }
        match self.table.shared.exchange(seat, SLOT, Spot::Away) {
            Spot::Home(kept) => Some(kept),
            Spot::Away => unreachable!(),
            Spot::Counted(_named) => unreachable!(),
        }
    }

    /// Sleeps until a turn is passed on. Who passes it on wakes all that sleep.
    fn sleep<R: Wait>(&self, rt: &R, mine: u64) {
        let served = self.table.shared.peek(SERVING);
        if served != mine {
            self.table
                .shared
                .park(rt, SERVING, (served % (1 << 32)) as u32);
        }
    }

    /// Writes the slot, which the seat holds with no value in it.
    pub(crate) fn fill(&self, seat: &mut LockSeat<K>, spot: Spot<K>)
        requires table { seat.old.table_id ≡ self.now.table.shared.table_id }
        requires holds { (seat.old.me.0.holds ≡ true) × (stands seat.old.me ≡ true) }
        ensures table { seat.new.table_id ≡ seat.old.table_id }
        ensures filled { seat.new.me ≡ (seat.old.me.0, (0, spot) ∷ []) }
    {
        match self.table.shared.exchange(seat, SLOT, spot) {
            Spot::Home(_other) => unreachable!(),
            Spot::Away => {}
            Spot::Counted(_named) => {}
        }
    }
}
