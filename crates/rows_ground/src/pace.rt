//! The pace that yields, between two threads of which each waits for the other.

use outside_io::{Pace, YieldPace};
use std::sync::atomic::AtomicU64;
use std::sync::atomic::Ordering::SeqCst;
use std::test::Fail;
use std::thread;

/// The number at which both threads are done.
const LAST: u64 = 2_000;

/// So many looks and pauses a thread takes at most. With yields a few thousand do, also on one processor; without them
/// a thread there wastes some hundred thousand looks at each number.
const MOST_TURNS: u64 = 50_000_000;

/// Adds one each time the number has this remainder by 2, and pauses while it has the other. Whether the last number
/// came in time.
fn play(number: &AtomicU64, remainder: u64) -> bool {
    let mut pace = YieldPace;
    for turn in 0..MOST_TURNS {
        let found = number.load(SeqCst);
        if found >= LAST {
            return true;
        }
        if found % 2 == remainder {
            number.store(found + 1, SeqCst);
        } else {
            pace.pause(turn);
        }
    }
    false
}

#[test]
fn threads_that_wait_for_one_another_in_pauses_come_to_their_end(
    rt: HostRuntime,
) -> Result<(), Fail> {
    let number = AtomicU64::new(0);
    let (even, odd) = thread::join(&rt, || play(&number, 0), || play(&number, 1));
    assert!(rt; even && odd);
    Ok(())
}
