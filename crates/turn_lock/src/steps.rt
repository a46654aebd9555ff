//! The kinds of step that a seat makes on the lock's table, and what each tells it.

use crate::kept::Kept;
use crate::table::Spot;
use crate::view::SeatView;
use atomic_table::{Join, Play, Split};

/// Draws a ticket: one is added to the word of tickets.
pub struct Draws;

impl<K: Kept> Play<Spot<K>, SeatView<K::Entry, K::Ground>> for Draws {
    ghost use Rattle.turn_lock.specs.Steps.{drawn};

    ghost then = { drawn };
}

/// Looks whether its ticket is served: the served number is loaded. Where it is, the seat takes the value with the same
/// step.
pub struct Looks;

impl<K: Kept> Play<Spot<K>, SeatView<K::Entry, K::Ground>> for Looks {
    ghost use Rattle.turn_lock.specs.Steps.{looked};

    ghost then = { looked ⟦<K as Kept>⟧ };
}

/// Counts one entry more.
pub struct Counts;

impl<K: Kept> Play<Spot<K>, SeatView<K::Entry, K::Ground>> for Counts {
    ghost use Rattle.turn_lock.specs.Steps.{counts};

    ghost then = { counts ⟦<K as Kept>⟧ };
}

/// Stores a published number.
pub struct Publishes;

impl<K: Kept> Play<Spot<K>, SeatView<K::Entry, K::Ground>> for Publishes {
    ghost use Rattle.turn_lock.specs.Steps.{publishes};

    ghost then = { publishes };
}

/// Loads a published number.
pub struct Loads;

impl<K: Kept> Play<Spot<K>, SeatView<K::Entry, K::Ground>> for Loads {
    ghost use Rattle.turn_lock.specs.Steps.{loads};

    ghost then = { loads ⟦<K as Kept>⟧ };
}

/// Passes the turn on: one is added to the served number, and the value is home with the same step.
pub struct PassesOn;

impl<K: Kept> Play<Spot<K>, SeatView<K::Entry, K::Ground>> for PassesOn {
    ghost use Rattle.turn_lock.specs.Steps.{passes_on};

    ghost then = { passes_on };
}

/// Gives a new seat the next number.
pub struct Deals;

impl<E, G> Split<SeatView<E, G>> for Deals {
    ghost use Rattle.turn_lock.specs.Views.{dealer, dealt};

    ghost left = { dealer };

    ghost right = { dealt };
}

/// Joins a seat into another.
pub struct Gathers;

impl<E, G> Join<SeatView<E, G>> for Gathers {
    ghost use Rattle.turn_lock.specs.Views.{joined, spent};

    ghost both = { joined };

    ghost spent = { spent };
}
