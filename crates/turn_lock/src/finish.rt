//! Taking a lock apart.

ghost use Rattle.std.specs.Prelude.{◌≡◌, ℕ, ◌<◌, true, false, ◌∷◌, All, Contains};
ghost use Rattle.turn_lock.specs.Passes.{seats_of, IsReady};
ghost use Rattle.turn_lock.specs.Calls.Finish.{AreAll, Finishes, Gathered, Ends};

use crate::kept::Kept;
use crate::lock::TurnLock;
use crate::pass::TurnPass;
use crate::steps::Gathers;
use crate::table::{LockSeat, SLOT, Spot};

impl<K: Kept> TurnLock<K> {
    /// The kept value, once all passes are handed in, in whatever order.
    pub fn finish(self, first: TurnPass<K>, others: Vec<TurnPass<K>>) -> K
        requires passes { AreAll self (first ∷ others.items) }
        ensures finished { Finishes self first others.items result }
    {
        let seat = self.join_all(first, others);
        self.into_value(seat)
    }

    /// One seat, which knows what each pass knew.
    fn join_all(&self, first: TurnPass<K>, others: Vec<TurnPass<K>>) -> LockSeat<K>
        requires ready { All (IsReady self.now) (first ∷ others.items) }
        ensures table { result.table_id ≡ self.now.table.shared.table_id }
        ensures gathered { Gathered result.me.0 first others.items }
    {
        let TurnPass {
            number: _,
            mut seat,
        } = first;
        for pass in others {
            let TurnPass {
                number: _,
                seat: other,
            } = pass;
            self.table.shared.join_seat::<Gathers>(&mut seat, other);
        }
        seat
    }

    /// The value that is home, where the seat has every number that was given.
    fn into_value(self, seat: LockSeat<K>) -> K
        requires table { seat.table_id ≡ self.table.shared.table_id }
        requires idle { (seat.me.0.alive ≡ true) × (seat.me.0.holds ≡ false) }
        requires all { (n : ℕ) → n < seats_of self → Contains seat.me.0.mine n }
        ensures ends { Ends ⟦<K as Kept>⟧ (seats_of self) seat.me.0 result }
    {
        let TurnLock { table } = self;
        let mut closed = table.close_with(seat);
        let home = closed.take(SLOT);
        closed.free();
        match home {
            Spot::Home(kept) => kept,
            Spot::Away => unreachable!(),
            Spot::Counted(_named) => unreachable!(),
        }
    }
}
