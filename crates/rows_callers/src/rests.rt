//! Rests at a published number: one takes its time, and none if another number is published.

use crate::turns::{Book, watch};
use fixed_num::Memory;
use std::alloc::Global;
use std::process::Abort;
use std::sync::Wait;
use std::sync::atomic::AtomicBool;
use std::sync::atomic::Ordering::SeqCst;
use std::test::Fail;
use std::thread;
use std::thread::Threads;
use std::time::{Clock, Duration, Instant};
use turn_lock::{Shown, TurnLock};

/// An hour, in microseconds.
const HOUR: u64 = 3_600_000_000;

/// Twenty milliseconds, in microseconds.
const SHORT: u64 = 20_000;

/// A rest is long from so many milliseconds on.
const LONG: u64 = 10;

/// So many rests are tried: the system may end one early, or let another thread run after one.
const MOST_TRIES: u32 = 20;

/// Whether a rest at this number is long, if the clock tells.
fn is_long<R: Wait + Clock>(
    rt: &R,
    lock: &TurnLock<Book>,
    which: Shown,
    n: u64,
    micros: u64,
) -> Option<bool> {
    let start = Instant::now(rt).ok()?;
    lock.rest(rt, which, n, micros);
    Some(start.elapsed(rt).ok()? >= Duration::from_millis(LONG))
}

/// At a number of which 0 is published: whether a short rest at 0 is long enough, and an hour's at another number is
/// not.
fn rests_right<R: Wait + Clock>(rt: &R, lock: &TurnLock<Book>, which: Shown) -> bool {
    (0..MOST_TRIES).any(|_| is_long(rt, lock, which, 0, SHORT) == Some(true))
        && (0..MOST_TRIES).any(|_| is_long(rt, lock, which, 1, HOUR) == Some(false))
}

/// The same at both numbers of a lock that has published none.
fn rests_at_both<R: Wait + Clock>(rt: &R, alloc: Global) -> Result<bool, Memory> {
    let (lock, _passes) = TurnLock::make(alloc, Book::empty(alloc), 1)?;
    Ok(rests_right(rt, &lock, Shown::Cycles) && rests_right(rt, &lock, Shown::Tickets))
}

/// The rests, which are watched.
fn rests_in_time<R: Threads + Wait + Clock + Abort + Sync>(
    rt: &R,
    alloc: Global,
) -> Result<bool, Memory> {
    let flag = AtomicBool::new(false);
    let is_done = &flag;
    let watched = || watch(rt, is_done);
    let rested = move || -> Result<bool, Memory> {
        let right = rests_at_both(rt, alloc);
        is_done.store(true, SeqCst);
        right
    };
    thread::join(rt, watched, rested).1
}

#[test]
fn a_rest_ends_in_its_time(rt: HostRuntime) -> Result<(), Fail> {
    assert!(rt; rests_in_time(&rt, rt.alloc())?);
    Ok(())
}
