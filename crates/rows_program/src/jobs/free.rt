//! Live runs that are left to their threads, and a full queue: what each caller is told, whoever comes first.

use crate::jobs::running::{ARM, Ran, run_in_order};
use pages_cases::pages::{halves, hold_told, push_parted};
use std::alloc::Global;
use std::sync::Wait;
use std::test::Fail;
use std::thread::Threads;

/// How often each document is run.
const TIMES: u32 = 200;

#[test]
fn each_session_makes_its_lines_and_is_told(rt: HostRuntime) -> Result<(), Fail> {
    for _ in 0..TIMES {
        let ran = run_held(&rt, rt.alloc(), ONE_CYCLE, FIVE, "")?;
        hold_sessions(rt.alloc(), &ran, MADE)?;
    }
    Ok(())
}

#[test]
fn a_fifth_request_finds_a_full_queue(rt: HostRuntime) -> Result<(), Fail> {
    for _ in 0..TIMES {
        let ran = run_held(&rt, rt.alloc(), TWO_CYCLES, FIVE, IN_A_PAUSE)?;
        hold_callers(rt.alloc(), &ran, TOLD)?;
    }
    Ok(())
}

#[test]
fn the_pace_is_called_behind_each_cycle(rt: HostRuntime) -> Result<(), Fail> {
    for _ in 0..TIMES {
        let ran = run_held(&rt, rt.alloc(), ARM, THREE_CYCLES, OF_THE_LOOP)?;
        hold_sessions(rt.alloc(), &ran, MADE_OF_THREE)?;
        if ran.pauses != 3 {
            return Err(Fail::new("another number of pauses than of cycles"));
        }
    }
    Ok(())
}

#[test]
fn the_loop_makes_its_cycles_alone(rt: HostRuntime) -> Result<(), Fail> {
    let alloc = rt.alloc();
    let ran = run_held(&rt, alloc, ARM, TWO_CYCLES_ALONE, OF_THE_LOOP_ALONE)?;
    hold_told(alloc, TWO_CYCLES_ALONE, ran.told.as_str(), TOLD_ALONE)?;
    match ran.pauses {
        2 => Ok(()),
        _ => Err(Fail::new("another number of pauses than of cycles")),
    }
}

/// What stands before a script of sessions that ask for nothing.
const ONE_CYCLE: &str = "version = 1
update_rate = 100
cycles = 1
--- script ---
";

const TWO_CYCLES: &str = "version = 1
update_rate = 100
cycles = 2
--- script ---
";

/// Five sessions ask at once, and four requests may wait; the last goes on.
const FIVE: &str = "session a
switch strict
session b
switch strict
session c
switch strict
session d
switch strict
session e
switch strict
await 9
switch strict
";

/// What each session makes of it, without the replies.
const MADE: &str = "a switch strict
b switch strict
c switch strict
d switch strict
e switch strict, await 9, switch strict";

/// The loop pauses behind its first cycle until each of them has asked.
const IN_A_PAUSE: &str = "\
landed 0, before 0 0, answered 0 0, before 1 0, answered 1 0, before 2 0, answered 2 0, before 3 0, answered 3 0, \
before 4 0, answered 4 0, paused 0";

/// What each caller is told then.
const TOLD: &str = "\
a switch strict: queued 0, told 0: done
b switch strict: queued 1, told 1: done
c switch strict: queued 2, told 2: done
d switch strict: queued 3, told 3: done
e switch strict: queue_full, await 9: ok, switch strict: loop_ended
loop begin 0: none, end 0: none, begin 1: 0 done; 1 done; 2 done; 3 done, end 1: none, close: none";

/// The end of a document of the arm.
const THREE_CYCLES: &str = "cycles = 3
--- script ---
session a
load fwd
configure fwd
switch strict +fwd
send fwd 0.5
";

/// Where the loop comes by in it: each pause has the number of the cycle that has landed before it.
const OF_THE_LOOP: &str = "\
computed 0, landed 0, paused 0, begun 1, computed 1, landed 1, paused 1, begun 2, computed 2, landed 2, paused 2";

const MADE_OF_THREE: &str = "a load fwd, configure fwd, switch strict +fwd, send fwd 0.500000";

/// The end of a document of the arm, without a session.
const TWO_CYCLES_ALONE: &str = "cycles = 2
--- script ---
";

const OF_THE_LOOP_ALONE: &str = "\
begun 0, computing 0, computed 0, landed 0, paused 0, begun 1, computing 1, computed 1, landed 1, paused 1";

const TOLD_ALONE: &str = "ok
loop begin 0: none
loop end 0: joint j1 0.000000 0.000000 0.000000
loop begin 1: none
loop end 1: joint j1 0.000000 0.000000 0.000000
loop close: none";

/// A run whose threads come by these marks in order, and which goes well.
fn run_held<R: Threads + Wait + Sync>(
    rt: &R,
    alloc: Global,
    head: &str,
    script: &str,
    marks: &str,
) -> Result<Ran, Fail> {
    let ran = run_in_order(rt, alloc, head, script, marks)?;
    match ran.told.starts_with("ok\n") {
        true => Ok(ran),
        false => Err(Fail::new(ran.told)),
    }
}

/// Fails unless the lines of each caller are what a page says, in order. A line of it is `CALLER LINE, LINE, ..`.
fn hold_callers(alloc: Global, ran: &Ran, page: &str) -> Result<(), Fail> {
    for line in page.lines() {
        let (caller, want) = halves(line, " ")?;
        let told = told_to(alloc, ran, caller)?;
        hold_told(alloc, caller, told.as_str(), want)?;
    }
    Ok(())
}

/// What a caller has called in a run and was replied, in order.
fn told_to(alloc: Global, ran: &Ran, caller: &str) -> Result<String, Fail> {
    let mut told = String::new(alloc);
    for line in ran.told.lines() {
        if let Some((who, rest)) = line.split_once(' ')
            && who == caller
        {
            push_parted(&mut told, ", ", rest)?;
        }
    }
    Ok(told)
}

/// Fails unless each session has made what a page says, and was told of each of its tickets.
fn hold_sessions(alloc: Global, ran: &Ran, page: &str) -> Result<(), Fail> {
    for line in page.lines() {
        let (session, want) = halves(line, " ")?;
        let made = made_by(alloc, ran, session)?;
        hold_told(alloc, session, made.as_str(), want)?;
        hold_tickets(alloc, ran, session)?;
    }
    Ok(())
}

/// What a session has made in a run, in order and without the replies. That it asked for its tickets is left out.
fn made_by(alloc: Global, ran: &Ran, session: &str) -> Result<String, Fail> {
    let mut made = String::new(alloc);
    for line in ran.told.lines() {
        if let Some((call, _)) = call_of(line, session)
            && !call.starts_with("told ")
        {
            push_parted(&mut made, ", ", call)?;
        }
    }
    Ok(made)
}

/// Fails if a request of the session has a ticket that is not asked for in its next line.
fn hold_tickets(alloc: Global, ran: &Ran, session: &str) -> Result<(), Fail> {
    let mut waiting = String::new(alloc);
    for line in ran.told.lines() {
        let Some((call, reply)) = call_of(line, session) else {
            continue;
        };
        if !waiting.is_empty() || call.starts_with("told ") {
            hold_told(alloc, line, call, waiting.as_str())?;
        }
        waiting.clear();
        if let Some(ticket) = reply.strip_prefix("queued ") {
            write!(waiting, "told {ticket}")?;
        }
    }
    hold_told(alloc, session, waiting.as_str(), "")
}

/// The call and the reply of a line of this session.
fn call_of<'a>(line: &'a str, session: &str) -> Option<(&'a str, &'a str)> {
    let (who, rest) = line.split_once(' ')?;
    if who != session {
        return None;
    }
    rest.split_once(": ")
}
