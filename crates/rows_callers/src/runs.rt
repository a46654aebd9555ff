//! Whole live runs: what each session and the loop have made, however their threads interleave.

ghost use Rattle.std.specs.Prelude.{All, IfOk, OnOk};
ghost use Rattle.rows_callers.specs.Consoles.{IsFresh, IsFirst};

use crate::board::Board;
use crate::consoles::{Console, LoopEnd};
use crate::gates::{Counted, Holds};
use crate::lines::lines_of;
use cm_document::SessionText;
use cm_model::Entry;
use console_session::Session;
use fixed_num::Memory;
use live_run::live;
use pages_calls::calls::name_of;
use pages_calls::replies::push_reply;
use pages_cases::pages::{halves, hold_told};
use pages_cases::words::word;
use std::alloc::Global;
use std::marker::Model;
use std::sync::Wait;
use std::test::Fail;
use std::thread::Threads;

#[test]
fn threads_go_on_beside_one_another(rt: HostRuntime) -> Result<(), Fail> {
    hold_runs(&rt, rt.alloc(), BESIDE)
}

#[test]
fn sessions_follow_their_lines(rt: HostRuntime) -> Result<(), Fail> {
    hold_runs(&rt, rt.alloc(), FOLLOWED)
}

#[test]
fn want_of_memory_stops_one_and_the_others_end(rt: HostRuntime) -> Result<(), Fail> {
    hold_runs(&rt, rt.alloc(), STOPPED)
}

/// So many runs of each case.
const TIMES: u32 = 100;

/// Fails at the first run of a page's cases that comes to something else than its case says.
fn hold_runs<R: Threads + Wait + Sync>(rt: &R, alloc: Global, page: &str) -> Result<(), Fail> {
    for case in page.split("\n\n") {
        hold_case(rt, alloc, case)?;
    }
    Ok(())
}

fn hold_case<R: Threads + Wait + Sync>(rt: &R, alloc: Global, case: &str) -> Result<(), Fail> {
    let (text, want) = halves(case, "=> ")?;
    for _ in 0..TIMES {
        let told = told_of_run(rt, alloc, text)?;
        hold_told(alloc, text, told.as_str(), want)?;
    }
    Ok(())
}

/// What one run of a case comes to.
fn told_of_run<R: Threads + Wait + Sync>(
    rt: &R,
    alloc: Global,
    text: &str,
) -> Result<String, Fail> {
    let (holds, rest) = halves(text, "cycles ")?;
    let (head, sessions) = halves(rest, "\n")?;
    let gate = Holds::read(alloc, holds)?;
    let cycles = number(head, 0)?;
    let board = Board::new();
    let looping = LoopEnd::new(&board, cycles, number(head, 2)?);
    let written = written_of(alloc, sessions)?;
    let sessions = sessions_of(alloc, &board, written.as_slice())?;
    told_of(rt, alloc, sessions, looping, cycles, &gate)
}

/// Runs these sessions live, and tells what they and the loop have made, and whether a hold ran out.
fn told_of<'b, R: Threads + Wait + Sync>(
    rt: &R,
    alloc: Global,
    sessions: Vec<(Session<'_>, Console<'b>)>,
    mut looping: LoopEnd<'b>,
    cycles: u64,
    gate: &Holds,
) -> Result<String, Fail>
    requires sessions { All (λ s. IsFresh s.0 s.1.who s.1.made.items s.1.waited) sessions.items }
    requires looping { IsFirst cycles looping.ended looping.left looping.is_out looping.is_closed }
{
    let mut pace = Counted {
        pauses: 0,
        in_order: true,
    };
    let ports = live(rt, alloc, sessions, &mut looping, cycles, &mut pace, gate);
    let mut told = String::new(alloc);
    push_loop(&mut told, &looping, &pace)?;
    match ports {
        Ok(ports) => push_sessions(&mut told, ports.as_slice())?,
        Err(Memory) => write!(told, "\nno memory, {} entries", looping.board.made())?,
    }
    told.push_str(if gate.has_run_out() {
        "\na hold ran out"
    } else {
        ""
    })?;
    Ok(told)
}

/// Appends how far the loop came.
fn push_loop(told: &mut String, looping: &LoopEnd, pace: &Counted) -> Result<(), Fail> {
    write!(told, "{} cycles", looping.ended)?;
    told.push_str(if looping.is_closed { ", closed" } else { "" })?;
    write!(told, ", {} pauses", pace.pauses)?;
    told.push_str(if pace.in_order { "" } else { " out of order" })?;
    Ok(())
}

/// Appends what each session made, a line a session.
fn push_sessions(told: &mut String, ports: &[Console]) -> Result<(), Fail> {
    for port in ports {
        told.push_str("\n")?;
        push_entries(told, port.made.as_slice())?;
    }
    Ok(())
}

/// Appends entries of a session.
fn push_entries(told: &mut String, made: &[Entry]) -> Result<(), Fail> {
    for (place, entry) in made.iter().enumerate() {
        push_entry(told, place, entry)?;
    }
    Ok(())
}

/// Appends an entry.
fn push_entry(told: &mut String, place: usize, entry: &Entry) -> Result<(), Fail> {
    told.push_str(if place == 0 { "" } else { "; " })?;
    write!(told, "{}: ", entry.call)?;
    push_reply(told, &entry.reply)
}

/// The word of this number in a line, as a number.
fn number(line: &str, place: usize) -> Result<u64, Fail> {
    Ok(word(line, place).parse()?)
}

/// A session as a case writes it.
#[derive(Drop)]
struct Written {
    text: SessionText,
    /// For so many entries its console has memory.
    room: usize,
}

impl Model for Written {
    ghost use Rattle.cm_document.specs.declared.script.SessionText.{SessionText};
    ghost use Rattle.console_session.specs.Sessions.{AreLines};

    ghost Value = { SessionText };

    ghost view = { λ w. w.text };

    ghost invariant = { λ w. AreLines w.text.lines };
}

/// The sessions that a case writes. Each begins with a line `session NAME ENTRIES`, and its lines follow.
fn written_of(alloc: Global, text: &str) -> Result<Vec<Written>, Fail> {
    let mut all = Vec::new(alloc);
    for part in text.split("session ") {
        if !part.is_empty() {
            all.push(written_as(alloc, part)?)?;
        }
    }
    Ok(all)
}

/// A session of these lines, of which the first has its name and for how many entries its console has memory.
fn written_as(alloc: Global, text: &str) -> Result<Written, Fail> {
    let (head, rest) = halves(text, "\n")?;
    Ok(Written {
        text: SessionText {
            name: name_of(alloc, word(head, 0))?,
            lines: lines_of(alloc, rest)?,
        },
        room: number(head, 1)? as usize,
    })
}

/// The sessions of a case, each with its console.
fn sessions_of<'a, 'b>(
    alloc: Global,
    board: &'b Board,
    written: &'a [Written],
) -> Result<Vec<(Session<'a>, Console<'b>)>, Fail>
    ensures { IfOk result
        (λ all. All (λ s. IsFresh s.0 s.1.who s.1.made.items s.1.waited) all.items) }
{
    let mut all = Vec::new(alloc);
    for session in written {
        add_session(alloc, board, session, &mut all)?;
    }
    Ok(all)
}

/// A session more, behind the others.
fn add_session<'a, 'b>(
    alloc: Global,
    board: &'b Board,
    written: &'a Written,
    all: &mut Vec<(Session<'a>, Console<'b>)>,
) -> Result<(), Fail>
    requires { All (λ s. IsFresh s.0 s.1.who s.1.made.items s.1.waited) all.old.items }
    ensures { OnOk result (All (λ s. IsFresh s.0 s.1.who s.1.made.items s.1.waited) all.new.items) }
{
    let Ok(who) = u32::try_from(all.len()) else {
        return Err(Fail::new("too many sessions"));
    };
    all.push(session_of(alloc, board, who, written))?;
    Ok(())
}

/// A session before its first line, with its console.
fn session_of<'a, 'b>(
    alloc: Global,
    board: &'b Board,
    who: u32,
    written: &'a Written,
) -> (Session<'a>, Console<'b>)
    ensures { IsFresh result.0 result.1.who result.1.made.items result.1.waited }
{
    (
        Session::make(who, &written.text),
        Console::new(alloc, board, who, written.room),
    )
}

/// Runs that one thread can't make, in any order, without a hold that runs out. In the first the session waits until
/// the cycle is being computed, and that waits until the session has its answer. Of two sessions each waits for the
/// other, in both orders. Five sessions ask during a cycle, in order, so four requests wait, and the next begin decides
/// them.
const BESIDE: &str = "\
before 0 0 until compute 0
compute 0 until answered 0 0
cycles 1 memory 1
session a 9
load fwd
=> 1 cycles, closed, 1 pauses
load fwd: ok 0

before 0 0 until before 1 0
before 1 0 until answered 0 0
cycles 1 memory 1
session a 9
load fwd
session b 9
load fwd
=> 1 cycles, closed, 1 pauses
load fwd: ok 0
load fwd: loaded

before 1 0 until before 0 0
before 0 0 until answered 1 0
cycles 1 memory 1
session a 9
load fwd
session b 9
load fwd
=> 1 cycles, closed, 1 pauses
load fwd: loaded
load fwd: ok 0

before 0 0 until compute 0
before 1 0 until answered 0 0
before 2 0 until answered 1 0
before 3 0 until answered 2 0
before 4 0 until answered 3 0
compute 0 until answered 4 0
cycles 2 memory 2
session a 9
switch strict
session b 9
switch strict
session c 9
switch strict
session d 9
switch strict
session e 9
switch strict
await 9
switch strict
=> 2 cycles, closed, 2 pauses
switch strict: queued 0; told 0: done
switch strict: queued 1; told 1: done
switch strict: queued 2; told 2: done
switch strict: queued 3; told 3: done
switch strict: queue_full; await 9: ok; switch strict: loop_ended";

/// A session makes each of its lines once and in order, and is told of its request before it goes on. Two sessions go
/// on freely. A loop runs alone, and one that makes no cycle ends what waits for one.
const FOLLOWED: &str = "\
compute 0 until answered 0 2
cycles 3 memory 3
session a 9
load fwd
configure fwd
switch strict +fwd
send fwd 0.5
=> 3 cycles, closed, 3 pauses
load fwd: ok 0; configure fwd: ok; switch strict +fwd: queued 0; told 0: done; send fwd 0.500000: ok

cycles 3 memory 3
session a 9
load fwd
configure fwd
await 1
cleanup fwd
session b 9
await 2
configure fwd
await 3
=> 3 cycles, closed, 3 pauses
load fwd: ok 0; configure fwd: ok; await 1: ok; cleanup fwd: ok
await 2: ok; configure fwd: ok; await 3: ok

cycles 2 memory 2
=> 2 cycles, closed, 2 pauses

cycles 0 memory 0
session a 9
await 1
=> 0 cycles, closed, 0 pauses
await 1: ok";

/// A session without memory for its third entry, and a loop without memory for its second begin. All others make each
/// of their lines, so the entries are as many as lines and memory allow. The second cycle waits until the session tries
/// its third line. The other session waits for the end of that cycle, so most of its lines stand behind the refusal.
const STOPPED: &str = "\
begun 1 until before 0 2
cycles 2 memory 2
session a 2
configure fwd
cleanup fwd
configure fwd
session b 9
await 2
configure fwd
cleanup fwd
=> 2 cycles, closed, 2 pauses
no memory, 5 entries

cycles 3 memory 1
session a 9
await 3
configure fwd
cleanup fwd
session b 9
await 2
configure fwd
=> 1 cycles, closed, 1 pauses
no memory, 5 entries";
