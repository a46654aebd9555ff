//! How long each cycle of a live run took, or each run.

use outside_io::Pace;
use std::alloc::Global;
use std::rt::Clock;
use std::thread;
use std::time::Duration;

/// A pace that notes how long each cycle took, and lets one begin at each beat; or it notes how long each run took.
#[derive(Drop)]
pub(crate) struct Stopwatch<'a, R> {
    rt: &'a R,
    period: Duration,
    is_whole: bool,
    /// When the next cycle is to begin.
    beat: Duration,
    /// When that was let go which is timed; nobody knows of the first cycle of a run.
    since: Option<Duration>,
    nanos: Vec<u64>,
}

impl<'a, R: Clock> Stopwatch<'a, R> {
    pub fn make(rt: &'a R, alloc: Global, period_us: u64, is_whole: bool) -> Stopwatch<'a, R> {
        Stopwatch {
            rt,
            period: Duration::from_micros(period_us),
            is_whole,
            beat: Duration::ZERO,
            since: None,
            nanos: Vec::new(alloc),
        }
    }

    /// Another run begins.
    pub fn begin(&mut self) {
        self.since = match self.is_whole {
            true => self.rt.monotonic().ok(),
            false => None,
        };
    }

    /// A run has ended.
    pub fn end(&mut self) {
        if self.is_whole {
            self.pause(0);
        }
    }

    /// What it noted, the least first.
    pub fn into_lengths(self) -> Vec<u64> {
        let Stopwatch { mut nanos, .. } = self;
        nanos.sort_unstable();
        nanos
    }

    /// Notes how long that took which has ended now.
    fn note(&mut self, now: Duration) {
        if let Some(since) = self.since {
            let nanos = now.saturating_sub(since).as_nanos();
            let nanos = u64::try_from(nanos).unwrap_or(u64::MAX);
            // A length that finds no room is left out.
            let _ = self.nanos.push(nanos);
        }
    }

    /// Waits for the next beat, and gives the time then.
    fn wait(&mut self, now: Duration) -> Option<Duration> {
        if self.period.is_zero() {
            return Some(now);
        }
        self.beat = self.beat.saturating_add(self.period).max(now);
        thread::sleep(self.rt, self.beat.saturating_sub(now));
        self.rt.monotonic().ok()
    }
}

impl<R: Clock> Pace for Stopwatch<'_, R> {
    fn pause(&mut self, _cycle: u64) {
        match self.rt.monotonic() {
            Ok(now) => {
                self.note(now);
                self.since = self.wait(now);
            }
            Err(_) => self.since = None,
        }
    }
}

/// The length at an index; 0 if there is none.
pub(crate) fn length_at(lengths: &[u64], index: usize) -> u64 {
    match lengths.get(index) {
        Some(length) => *length,
        None => 0,
    }
}
