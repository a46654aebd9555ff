//! What a pass does at a turn, and the loads that need none.

ghost use Rattle.std.specs.Prelude.{◌≡◌, ◌≤◌, false};
ghost use Rattle.turn_lock.specs.Views.{known, counted, published, loaded, passed_on};
ghost use Rattle.turn_lock.specs.Passes.{view, IsPassOf, IsReady, HasTurn, Becomes};
ghost use Rattle.turn_lock.specs.Calls.Take.{Takes};
ghost use Rattle.turn_lock.specs.Calls.Count.{AddsOne};
ghost use Rattle.turn_lock.specs.Calls.Put.{IsSettled};

use crate::kept::{Kept, Shown};
use crate::lock::TurnLock;
use crate::pass::TurnPass;
use crate::steps::{Counts, Loads, PassesOn, Publishes};
use crate::table::{HISTORY, SERVING, Spot, TICKET, atomic_word_of};
use std::snapshot::Snapshot;
use std::sync::Wait;
use std::time::Duration;

impl<K: Kept> TurnLock<K> {
    /// Waits for the turn, and hands out the kept value. No other pass holds the turn until this one puts the value
    /// back.
    pub fn take<R: Wait>(&self, rt: &R, pass: &mut TurnPass<K>) -> K
        requires ready { IsReady self.now pass.old }
        ensures taken { Takes pass.old pass.new result }
    {
        let mine = self.draw(&mut pass.seat);
        self.wait(rt, &mut pass.seat, mine)
    }

    /// Counts the one entry that `kept` has at its end beyond those that were counted. The value stays with the caller,
    /// and the numbers that are published of its list are owed until `put`.
    pub fn count(&self, pass: &mut TurnPass<K>, kept: &K)
        requires turn { HasTurn self.now pass.old }
        requires added { AddsOne pass.old kept.now }
        ensures counted { Becomes pass.old pass.new (counted (K.entries kept.now) (view pass.old)) }
    {
        self.fill(&mut pass.seat, Spot::Counted(Snapshot::of(kept)));
        self.table
            .shared
            .fetch_add::<Counts>(&mut pass.seat, HISTORY, 1);
    }

    /// Publishes a number of the counted list, so that others read it without a turn.
    pub fn publish(&self, pass: &mut TurnPass<K>, which: Shown, n: u64)
        requires turn { HasTurn self.now pass.old }
        requires number { n ≡ K.shown which (view pass.old).seen }
        ensures published { Becomes pass.old pass.new (published which (view pass.old)) }
    {
        self.table
            .shared
            .store::<Publishes>(&mut pass.seat, atomic_word_of(which), n);
    }

    /// Puts the value back and passes the turn on. All entries are counted; where this turn counted one, both numbers
    /// were published after it.
    pub fn put(&self, pass: &mut TurnPass<K>, kept: K)
        requires turn { HasTurn self.now pass.old }
        requires settled { IsSettled pass.old kept }
        ensures passed_on { Becomes pass.old pass.new (passed_on (view pass.old)) }
    {
        self.fill(&mut pass.seat, Spot::Home(kept));
        let served = self
            .table
            .shared
            .fetch_add::<PassesOn>(&mut pass.seat, SERVING, 1);
        if self.table.shared.peek(TICKET) != served.wrapping_add(1) {
            self.table.shared.wake_all(SERVING);
        }
    }

    /// What is published now. It waits for nobody, whoever holds the turn, and the number never falls.
    pub fn seen(&self, pass: &mut TurnPass<K>, which: Shown) -> u64
        requires pass { IsPassOf self.now pass.old }
        ensures loaded { Becomes pass.old pass.new (loaded which result (view pass.old)) }
        ensures grows { (known which (view pass.old)).number ≤ result }
        ensures current { (known which (view pass.old)).owes ≡ false → K.shown which (view pass.old).seen ≤ result }
    {
        self.table
            .shared
            .load::<Loads>(&mut pass.seat, atomic_word_of(which))
    }

    /// Sleeps for at most so many microseconds, if this number is still published. It takes no turn, and no publish
    /// wakes it. It may also return at once.
    pub fn rest<R: Wait>(&self, rt: &R, which: Shown, n: u64, micros: u64) {
        let word = atomic_word_of(which);
        let low_bits = (n % (1 << 32)) as u32;
        self.table
            .shared
            .park_timeout(rt, word, low_bits, Duration::from_micros(micros));
    }
}
