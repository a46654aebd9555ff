//! What paces the loop.

use std::thread;

/// Paces the loop between two cycles. It answers nothing, so it can't change what the loop does.
pub trait Pace {
    /// Waits, as long as it likes, before the cycle of this number.
    fn pause(&mut self, cycle: u64);
}

/// The pace that never waits.
#[derive(Clone, Copy, Debug)]
pub struct NoPace;

impl Pace for NoPace {
    fn pause(&mut self, _cycle: u64) {}
}

/// A yield comes once in so many cycles, because it takes as long as an empty cycle does.
const CYCLES_PER_YIELD: u64 = 32;

/// The pace that lets other threads run once in so many cycles (`CYCLES_PER_YIELD`), and waits for none of them.
#[derive(Clone, Copy, Debug)]
pub struct YieldPace;

impl Pace for YieldPace {
    fn pause(&mut self, cycle: u64) {
        if cycle % CYCLES_PER_YIELD == 0 {
            thread::yield_now();
        }
    }
}
