//! The lock as a table of five words and one slot, under the lock's rule.

ghost use Rattle.std.specs.Prelude.{◌≡◌};
ghost use Rattle.turn_lock.specs.Steps.{atomic_word_of};

use crate::kept::{Kept, Shown};
use crate::view::SeatView;
use atomic_table::{Seat, TableRule};
use std::marker::PhantomData;
use std::snapshot::Snapshot;

/// What lies in the slot.
#[derive(Drop)]
pub enum Spot<K> {
    /// The kept value, at home.
    Home(K),
    /// Nothing: the holder of the turn has the value.
    Away,
    /// Nothing, and the holder has counted the entries of this value, which only the proof sees.
    Counted(Snapshot<K>),
}

/// What a lock is told once, when it is made.
#[derive(Drop)]
pub struct Terms<K> {
    pub kept: Snapshot<K>,
    pub seats: u32,
}

/// The word of tickets: the number of the next ticket, modulo 2^64.
pub const TICKET: usize = 0;

/// The word of the ticket that is served, modulo 2^64.
pub const SERVING: usize = 1;

/// The word that says how many entries are counted.
pub const HISTORY: usize = 2;

/// The words of the two published numbers.
pub const CYCLES: usize = 3;

pub const TICKETS: usize = 4;

/// The one slot.
pub const SLOT: usize = 0;

/// The word of a published number.
pub fn atomic_word_of(which: Shown) -> usize
    ensures { result ≡ atomic_word_of which }
{
    match which {
        Shown::Cycles => CYCLES,
        Shown::Tickets => TICKETS,
    }
}

/// The rule of the lock, between any two steps of any threads.
pub struct Turns<K> {
    marker: PhantomData<K>,
}

impl<K: Kept> TableRule<Spot<K>, SeatView<K::Entry, K::Ground>, Terms<K>> for Turns<K> {
    ghost use Rattle.turn_lock.specs.Views.{first_view};
    ghost use Rattle.turn_lock.specs.Rule.{Ruled};

    ghost holds = { λ terms. Ruled ⟦<K as Kept>⟧ (K.footing terms.kept.value) terms.seats };

    ghost first = { λ terms. first_view (K.footing terms.kept.value) };
}

/// A seat of the lock's table.
pub type LockSeat<K> = Seat<Spot<K>, SeatView<<K as Kept>::Entry, <K as Kept>::Ground>>;
