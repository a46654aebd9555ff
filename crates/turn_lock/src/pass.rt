//! A pass: the right of one caller to take turns.

ghost use Rattle.std.specs.Prelude.{◌≡◌, true, [], ◌∷◌};
ghost use Rattle.turn_lock.specs.Stands.{stands};

use crate::kept::Kept;
use crate::table::Spot;
use crate::view::SeatView;
use atomic_table::Seat;

/// One of the passes of a lock. It has no more bytes than its number; what it knows stands in clauses alone.
#[derive(Drop)]
pub struct TurnPass<K: Kept> {
    pub(crate) number: u32,
    pub(crate) seat: Seat<Spot<K>, SeatView<K::Entry, K::Ground>>,
    // The seat is no spent one, and has the pass's number and no other.
    pub ghost alive: { seat.me.0.alive ≡ true },
    pub ghost mine: { seat.me.0.mine ≡ number ∷ [] },
    // The pass holds the turn, or it is idle.
    pub ghost stands: { stands seat.me ≡ true },
}

impl<K: Kept> TurnPass<K> {
    /// The pass's number, by which the lock's passes are told apart: 0 for the first, and so on.
    pub fn number(&self) -> u32
        ensures { result ≡ self.now.number }
    {
        self.number
    }
}
