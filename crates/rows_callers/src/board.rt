//! What the threads of a case share.

use cm_model::MOST_WAITING;
use std::sync::atomic::Ordering::SeqCst;
use std::sync::atomic::{AtomicBool, AtomicU64};

/// How far the loop of a case is, and what its sessions have made, loaded and asked.
#[derive(Drop)]
pub(crate) struct Board {
    ended: AtomicU64,
    is_closed: AtomicBool,
    /// So many entries all sessions have made.
    made: AtomicU64,
    loads: AtomicU64,
    asked: AtomicU64,
    /// So many of the requests that were asked are decided.
    decided: AtomicU64,
}

impl Board {
    /// Before the first cycle.
    pub fn new() -> Board {
        Board {
            ended: AtomicU64::new(0),
            is_closed: AtomicBool::new(false),
            made: AtomicU64::new(0),
            loads: AtomicU64::new(0),
            asked: AtomicU64::new(0),
            decided: AtomicU64::new(0),
        }
    }

    /// A cycle begins: what was asked is decided.
    pub fn begin(&self) {
        self.decided.store(self.asked.load(SeqCst), SeqCst);
    }

    /// A cycle ends.
    pub fn end(&self) {
        self.ended.fetch_add(1, SeqCst);
    }

    /// The loop closes.
    pub fn close(&self) {
        self.is_closed.store(true, SeqCst);
    }

    /// Whether the loop is closed.
    pub fn is_closed(&self) -> bool {
        self.is_closed.load(SeqCst)
    }

    /// Whether so many cycles have ended, or the loop is closed.
    pub fn is_reached(&self, cycles: u64) -> bool {
        self.is_closed() || self.ended.load(SeqCst) >= cycles
    }

    /// Whether the request of this ticket is decided.
    pub fn is_decided(&self, ticket: u32) -> bool {
        self.is_closed() || self.decided.load(SeqCst) > ticket as u64
    }

    /// A session makes an entry.
    pub fn count(&self) {
        self.made.fetch_add(1, SeqCst);
    }

    /// So many entries all sessions have made.
    pub fn made(&self) -> u64 {
        self.made.load(SeqCst)
    }

    /// Whether this load is the first one.
    pub fn loads_first(&self) -> bool {
        self.loads.fetch_add(1, SeqCst) == 0
    }

    /// The ticket of one request more, where one more can wait.
    pub fn ask(&self) -> Option<u32> {
        let ticket = self.asked.fetch_add(1, SeqCst);
        if ticket.saturating_sub(self.decided.load(SeqCst)) >= MOST_WAITING as u64 {
            return None;
        }
        u32::try_from(ticket).ok()
    }
}
