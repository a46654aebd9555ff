//! Two threads that meet: each comes, and waits until the other has come.

use std::sync::atomic::AtomicBool;
use std::sync::atomic::Ordering::SeqCst;
use std::thread;

/// So many turns each waits for the other at most, each of which yields the thread.
const MOST_TURNS: u32 = 1_000_000;

/// Whether each has come, and whether one waited in vain.
#[derive(Drop)]
pub(crate) struct Meeting {
    first: AtomicBool,
    second: AtomicBool,
    is_missed: AtomicBool,
}

impl Meeting {
    /// Nobody has come.
    pub fn new() -> Meeting {
        Meeting {
            first: AtomicBool::new(false),
            second: AtomicBool::new(false),
            is_missed: AtomicBool::new(false),
        }
    }

    /// One of the two comes, and waits for the other.
    pub fn come(&self, is_first: bool) {
        if is_first {
            self.wait(&self.first, &self.second);
        } else {
            self.wait(&self.second, &self.first);
        }
    }

    fn wait(&self, own: &AtomicBool, other: &AtomicBool) {
        own.store(true, SeqCst);
        for _ in 0..MOST_TURNS {
            if other.load(SeqCst) {
                return;
            }
            thread::yield_now();
        }
        self.is_missed.store(true, SeqCst);
    }

    /// Whether both have come, and neither waited in vain.
    pub fn has_been(&self) -> bool {
        self.first.load(SeqCst) && self.second.load(SeqCst) && !self.is_missed.load(SeqCst)
    }
}
