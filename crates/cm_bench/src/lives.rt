//! How long a cycle of a live run takes, from before its begin until it has landed, with nobody beside it and with busy
//! sessions.

use crate::documents::read;
use crate::runs::{Task, Way};
use crate::watch::length_at;
use cm_document::MOST_SESSIONS;
use fixed_num::Memory;
use std::alloc::Global;
use std::io;
use std::rt::Clock;
use std::sync::Wait;
use std::thread::Threads;

/// Prints how long a cycle of so many live runs takes: alone and beside busy sessions, without a pause and at each
/// millisecond.
pub(crate) fn tell_live<R>(rt: &R, runs: u64) -> anyhow::Result<()>
where
    R: Clock + Print + AllocGlobal + Threads + Wait + Sync,
{
    for number in 0..WORKLOADS {
        tell_cycles(rt, Workload::numbered(number), runs)?;
    }
    Ok(())
}

fn tell_cycles<R>(rt: &R, work: Workload, runs: u64) -> anyhow::Result<()>
where
    R: Clock + Print + AllocGlobal + Threads + Wait + Sync,
{
    let text = work.document(rt.alloc())?;
    let lengths = lengths_of(rt, text.as_str(), work.period_us, runs)?;
    Ok(tell_lengths(rt, work.name, lengths.as_slice())?)
}

/// How long each cycle of so many live runs of this text takes, the least first.
fn lengths_of<R>(rt: &R, text: &str, period_us: u64, runs: u64) -> anyhow::Result<Vec<u64>>
where
    R: Clock + AllocGlobal + Threads + Wait + Sync,
{
    let document = read(rt.alloc(), text)?;
    let task = Task {
        document: &document,
        way: Way::Live,
        turns: 0,
        period_us,
        is_whole: false,
    };
    task.lengths(rt, rt.alloc(), runs)
}

/// Prints the median, the hundredth greatest and the greatest of these lengths, which are in order.
fn tell_lengths<R: Print>(rt: &R, name: &str, lengths: &[u64]) -> io::Result<()> {
    let count = lengths.len();
    let median = length_at(lengths, count / 2);
    let hundredth = length_at(lengths, count.saturating_sub(100));
    let greatest = length_at(lengths, count.saturating_sub(1));
    println!(rt;
        "{name}: {count} cycles, median {median} ns, hundredth greatest {hundredth} ns, greatest {greatest} ns"
    )
}

// ---- The workloads

/// How many workloads there are.
const WORKLOADS: u32 = 4;

/// From one begin to the next, in microseconds.
const MILLISECOND: u64 = 1_000;

/// The calls of a busy session. It calls through all cycles, because it is answered about twice in each.
const BUSY_CALLS: u32 = 1_250;

/// The calls of a session that calls in each cycle.
const CYCLES: u32 = 500;

/// What goes on in a live run.
#[derive(Clone, Copy)]
struct Workload {
    name: &'static str,
    sessions: usize,
    /// From one begin to the next, in microseconds; 0 if there is no pause between two cycles.
    period_us: u64,
    /// Whether a session waits for the end of a cycle before each call, or calls all the time.
    waits: bool,
}

impl Workload {
    /// The workload of a number.
    fn numbered(number: u32) -> Workload {
        match number {
            0 => Workload {
                name: "none",
                sessions: 0,
                period_us: 0,
                waits: false,
            },
            1 => Workload {
                name: "eight busy ones",
                sessions: MOST_SESSIONS,
                period_us: 0,
                waits: false,
            },
            2 => Workload {
                name: "none, at 1 kHz",
                sessions: 0,
                period_us: MILLISECOND,
                waits: false,
            },
            _ => Workload {
                name: "eight that call in each cycle, at 1 kHz",
                sessions: MOST_SESSIONS,
                period_us: MILLISECOND,
                waits: true,
            },
        }
    }

    /// A document of one joint that stands, and of sessions that list the components.
    fn document(self, alloc: Global) -> Result<String, Memory> {
        let mut text = String::from_str(alloc, ARM)?;
        for session in 0..self.sessions {
            self.push_session(&mut text, session)?;
        }
        Ok(text)
    }

    fn push_session(self, text: &mut String, session: usize) -> Result<(), Memory> {
        let calls = match self.waits {
            true => CYCLES,
            false => BUSY_CALLS,
        };
        write!(text, "session s{session}\n")?;
        for cycle in 0..calls {
            if self.waits {
                write!(text, "await {cycle}\n")?;
            }
            text.push_str("list components\n")?;
        }
        Ok(())
    }
}

/// All before the first session. It has `CYCLES` cycles.
const ARM: &str = "version = 1
update_rate = 1000
cycles = 500
[[component]]
name = \"arm\"
kind = \"system\"
[[component.joint]]
name = \"j1\"
vmax = 1
command = [\"position\"]
state = [\"position\"]
--- script ---
";
