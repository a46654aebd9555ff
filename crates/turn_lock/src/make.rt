//! Making a lock and its passes.

ghost use Rattle.std.specs.Prelude.{◌≡◌, ◌<◌, ◌≤◌, [], Some, IfOk};
ghost use Rattle.turn_lock.specs.Views.{first_view, dealer, dealt};
ghost use Rattle.turn_lock.specs.Passes.{view, seats_of, IsPassOf, IsReady, IsSamePass, Becomes};
ghost use Rattle.turn_lock.specs.Calls.Make.{IsFresh, AreOthers, Made};
ghost use Rattle.turn_lock.specs.declared.TheConstants.{MOST_SEATS};

use crate::kept::Kept;
use crate::lock::TurnLock;
use crate::pass::TurnPass;
use crate::steps::Deals;
use crate::table::{Spot, Terms};
use atomic_table::{Refused, Table};
use fixed_num::Memory;
use std::alloc::Global;
use std::snapshot::Snapshot;

impl<K: Kept + Drop> TurnLock<K> {
    /// A lock that keeps this value, which has no entries yet, and its passes in order of their numbers. Without memory
    /// the value is dropped.
    pub fn make(
        alloc: Global,
        kept: K,
        seats: u32,
    ) -> Result<(TurnLock<K>, Vec<TurnPass<K>>), Memory>
        requires seats { (1 ≤ seats) × (seats ≤ MOST_SEATS) }
        requires empty { K.entries kept ≡ [] }
        ensures made { IfOk result (λ r. Made (K.footing kept) seats r.0 r.1.items) }
    {
        let (lock, mut first) = TurnLock::open(alloc, kept, seats)?;
        let mut passes = lock.deal_others(alloc, &mut first, seats)?;
        passes.insert(0, first)?;
        Ok((lock, passes))
    }

    /// The lock with its first pass.
    fn open(alloc: Global, kept: K, seats: u32) -> Result<(TurnLock<K>, TurnPass<K>), Memory>
        requires seats { (1 ≤ seats) × (seats ≤ MOST_SEATS) }
        requires empty { K.entries kept ≡ [] }
        ensures lock { IfOk result (λ r. (seats_of r.0 ≡ seats) × IsPassOf r.0 r.1) }
        ensures first { IfOk result (λ r. (r.1.number ≡ 0) × (view r.1 ≡ first_view (K.footing kept))) }
    {
        let terms = Terms {
            kept: Snapshot::of(&kept),
            seats,
        };
        let mut slots = Vec::with_capacity(alloc, 1)?;
        slots.push_reserved(Spot::Home(kept));
        match Table::new(alloc, &[0, 0, 0, 0, 0], slots, &terms) {
            Ok((table, seat)) => Ok((TurnLock { table }, TurnPass { number: 0, seat })),
            Err(Refused { slots: _ }) => Err(Memory),
        }
    }
}

impl<K: Kept> TurnLock<K> {
    /// All passes but the first, in order of their numbers.
    fn deal_others(
        &self,
        alloc: Global,
        first: &mut TurnPass<K>,
        seats: u32,
    ) -> Result<Vec<TurnPass<K>>, Memory>
        requires first { IsPassOf self.now first.old × IsFresh (view first.old).footing (view first.old) }
        requires count { ((view first.old).given ≡ Some 1) × (1 ≤ seats) × (seats ≡ seats_of self.now) }
        ensures first { IsSamePass first.old first.new × IsFresh (view first.old).footing (view first.new) }
        ensures others { IfOk result (λ r. AreOthers self.now (view first.old).footing seats r.items) }
    {
        let mut passes = Vec::new(alloc);
        for number in 1..seats {
            passes.push(self.deal(first, number))?;
        }
        Ok(passes)
    }

    /// The pass of the next number.
    fn deal(&self, first: &mut TurnPass<K>, number: u32) -> TurnPass<K>
        requires ready { IsReady self.now first.old }
        requires next { ((view first.old).given ≡ Some number) × (number < seats_of self.now) }
        ensures first { Becomes first.old first.new (dealer (view first.old)) }
        ensures dealt { IsPassOf self.now result × (result.number ≡ number) × (view result ≡ dealt (view first.old)) }
    {
        let seat = self.table.shared.split_seat::<Deals>(&mut first.seat);
        TurnPass { number, seat }
    }
}
