//! How long a cycle takes in which controllers of one depth compute for a while, by one worker and by several.

ghost use Rattle.cm_document.specs.ScriptLaws.{MeetsRules};

use crate::documents::read;
use crate::runs::{Task, Way};
use crate::watch::length_at;
use crate::working::{MOST_WORKING, mixed};
use cm_document::Document;
use std::rt::Clock;
use std::sync::Wait;
use std::thread::Threads;

/// So many controllers work in each cycle. None has to do with another, so all are of one depth.
const CONTROLLERS: u32 = MOST_WORKING;

/// The cycles of a run.
const CYCLES: u64 = 200;

/// Prints how long a cycle takes at the least of so many runs, by 1, 2, 4 and 8 workers, whose controllers do next to
/// nothing, and compute for 20, for 100 and for 500 microseconds.
pub(crate) fn tell_workers<R>(rt: &R, runs: u64) -> anyhow::Result<()>
where
    R: Clock + Print + AllocGlobal + Threads + Wait + Sync,
{
    let document = read(rt.alloc(), DOCUMENT)?;
    tell_all(rt, &document, runs)
}

/// Prints the lines of this document.
fn tell_all<R>(rt: &R, document: &Document, runs: u64) -> anyhow::Result<()>
where
    R: Clock + Print + AllocGlobal + Threads + Wait + Sync,
    requires { MeetsRules document.now.script }
{
    let turns = turns_of_a_microsecond(rt)?;
    for number in 0..16 {
        let micros = micros(number / 4);
        let workers = workers(number % 4);
        let task = Task {
            document,
            way: way(workers),
            turns: turns.saturating_mul(micros),
            period_us: 0,
            is_whole: true,
        };
        tell_least(rt, task, micros, workers, runs)?;
    }
    Ok(())
}

/// How often a number is mixed in a microsecond.
fn turns_of_a_microsecond<R: Clock>(rt: &R) -> anyhow::Result<u64> {
    let since = rt.monotonic()?;
    let number = mixed(1, TRIED);
    let took = rt.monotonic()?.saturating_sub(since).as_micros();
    // The number is asked for, so that it is mixed at all.
    let micros = u64::try_from(took).unwrap_or(u64::MAX).max(number % 2);
    Ok(TRIED.checked_div(micros).unwrap_or(TRIED))
}

/// So often it is tried.
const TRIED: u64 = 20_000_000;

/// For how long the controllers of these lines compute, in microseconds.
fn micros(number: u32) -> u64 {
    match number {
        0 => 0,
        1 => 20,
        2 => 100,
        _ => 500,
    }
}

/// How many workers there are.
fn workers(number: u32) -> u32 {
    match number {
        0 => 1,
        1 => 2,
        2 => 4,
        _ => 8,
    }
}

/// How so many workers run it.
fn way(workers: u32) -> Way {
    match workers {
        1 => Way::Alone,
        _ => Way::Shared(workers),
    }
}

/// Prints the line of a task, of controllers that compute for so many microseconds, by so many workers.
fn tell_least<R>(rt: &R, task: Task<'_>, micros: u64, workers: u32, runs: u64) -> anyhow::Result<()>
where
    R: Clock + Print + AllocGlobal + Threads + Wait + Sync,
    requires { MeetsRules task.document.now.script }
{
    let lengths = task.lengths(rt, rt.alloc(), runs)?;
    let nanos = length_at(lengths.as_slice(), 0) / CYCLES;
    println!(rt; "{CONTROLLERS} of {micros} us by {workers}: {nanos} ns a cycle")?;
    Ok(())
}

/// Mocks, as many as work in a run of `CYCLES` cycles, which one session switches on.
const DOCUMENT: &str = r#"version = 1
update_rate = 100
cycles = 200
[[controller]]
name = "m0"
type = "mock"
[[controller]]
name = "m1"
type = "mock"
[[controller]]
name = "m2"
type = "mock"
[[controller]]
name = "m3"
type = "mock"
[[controller]]
name = "m4"
type = "mock"
[[controller]]
name = "m5"
type = "mock"
[[controller]]
name = "m6"
type = "mock"
[[controller]]
name = "m7"
type = "mock"
--- script ---
session a
load m0
load m1
load m2
load m3
load m4
load m5
load m6
load m7
configure m0
configure m1
configure m2
configure m3
configure m4
configure m5
configure m6
configure m7
switch strict +m0 +m1 +m2 +m3 +m4 +m5 +m6 +m7
"#;
