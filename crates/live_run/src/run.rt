//! A live run.

ghost use Rattle.std.specs.Prelude.{◌≡◌, ◌+◌, ◌≤◌, ◌++◌, true, All, map, length, is_none, IfOk, MatchResult};
ghost use Rattle.std.specs.Prelude.{vec_len, vec_capacity};
ghost use Rattle.std.specs.List.{AllZip};
ghost use Rattle.console_session.specs.Sessions.{next_of};
ghost use Rattle.live_run.specs.Loops.{IsAtFirst, HasComputed, MayLoop, HasLooped, HasStopped};
ghost use Rattle.live_run.specs.Sessions.{IsAtItsStart, HasFollowed, HasRunLive, EachHasRun};

use crate::looping::run_loop;
use crate::sessions::run_session;
use cm_model::{LoopPort, Port};
use console_session::Session;
use fixed_num::Memory;
use outside_io::{Gate, Pace};
use std::alloc::Global;
use std::sync::Wait;
use std::thread;
use std::thread::{Threads, join_mut};

/// Runs the loop and the sessions beside one another, each on a thread of its own where one can be made. Each session
/// advances to its end; the loop makes so many cycles and then closes. The ports come back in the order of their
/// sessions. If a session is refused memory it stops, if a begin is refused memory the loop closes; the others go
/// on to their end, and the ports are dropped.
#[tactic(auto, using(crate::proofs::LoopLemmas::may_loop))]
pub fn live<R, P, L, C, G>(
    rt: &R,
    alloc: Global,
    sessions: Vec<(Session<'_>, P)>,
    looping: &mut L,
    cycles: u64,
    pace: &mut C,
    gate: &G,
) -> Result<Vec<P>, Memory>
where
    R: Threads + Wait + Sync,
    P: Port + Send + Drop,
    L: LoopPort + Send,
    C: Pace + Send,
    G: Gate,
    requires sessions { All (λ s. IsAtItsStart (P.tells s.1) s.0) sessions.items }
    requires looping { IsAtFirst cycles (L.tells looping.old) }
    ensures ports { IfOk result
        (λ ports. AllZip (HasFollowed P.footing P.tells) sessions.entry.items ports.items) }
    ensures looping { MatchResult result
        (λ _. HasLooped L.LoopPort cycles looping.old looping.new)
        (λ _. HasStopped L.LoopPort cycles looping.old looping.new) }
{
    let compute = |console: &mut L, flight: &mut L::Flight|
        requires { L.is_out console.old flight.old × L.may_be_computed flight.old }
        ensures { HasComputed L.LoopPort console.old console.new flight.new }
    { console.compute(flight) };
    live_by(rt, alloc, sessions, looping, cycles, pace, gate, &compute)
}

/// A live run without sessions: the loop alone makes so many cycles and then closes, and no thread is made. If a begin
/// is refused memory the loop closes at once.
#[tactic(auto, using(crate::proofs::LoopLemmas::may_loop))]
pub fn live_alone<L: LoopPort, C: Pace, G: Gate>(
    looping: &mut L,
    cycles: u64,
    pace: &mut C,
    gate: &G,
) -> Result<(), Memory>
    requires { IsAtFirst cycles (L.tells looping.old) }
    ensures { MatchResult result
        (λ _. HasLooped L.LoopPort cycles looping.old looping.new)
        (λ _. HasStopped L.LoopPort cycles looping.old looping.new) }
{
    let compute = |console: &mut L, flight: &mut L::Flight|
        requires { L.is_out console.old flight.old × L.may_be_computed flight.old }
        ensures { HasComputed L.LoopPort console.old console.new flight.new }
    { console.compute(flight) };
    run_loop(looping, cycles, pace, gate, &compute)
}

/// The same as `live`, where a flight is computed as the caller says.
#[tactic(auto, using(crate::proofs::LoopLemmas::not_begun, crate::proofs::LoopLemmas::looped_all))]
pub fn live_by<R, P, L, C, G, F>(
    rt: &R,
    alloc: Global,
    mut sessions: Vec<(Session<'_>, P)>,
    looping: &mut L,
    cycles: u64,
    pace: &mut C,
    gate: &G,
    compute: &F,
) -> Result<Vec<P>, Memory>
where
    R: Threads + Wait + Sync,
    P: Port + Send + Drop,
    L: LoopPort + Send,
    C: Pace + Send,
    G: Gate,
    F: Fn(&mut L, &mut L::Flight),
    requires sessions { All (λ s. IsAtItsStart (P.tells s.1) s.0) sessions.items }
    requires looping { MayLoop L.LoopPort F.Fn cycles looping.old compute.now }
    ensures ports { IfOk result
        (λ ports. AllZip (HasFollowed P.footing P.tells) sessions.entry.items ports.items) }
    ensures looping { MatchResult result
        (λ _. HasLooped L.LoopPort cycles looping.old looping.new)
        (λ _. HasStopped L.LoopPort cycles looping.old looping.new) }
{
    // No memory is taken once a thread has started.
    let ports = Vec::with_capacity(alloc, sessions.len())?;
    run_all(
        rt,
        gate,
        sessions.as_mut_slice(),
        looping,
        cycles,
        pace,
        compute,
    )?;
    if !have_all_ended(sessions.as_slice()) {
        return Err(Memory);
    }
    Ok(ports_of(sessions, ports))
}

/// Whether all sessions have ended: one to which memory was refused has not.
fn have_all_ended<P>(sessions: &[(Session<'_>, P)]) -> bool
    ensures { result ≡ true → All (λ s. is_none (next_of s.0) ≡ true) sessions.now }
{
    sessions.iter().all(|pair| pair.0.ended())
}

/// The ports of all sessions, behind those that are there, in room that was reserved for them.
fn ports_of<P: Drop>(sessions: Vec<(Session<'_>, P)>, mut ports: Vec<P>) -> Vec<P>
    requires room { vec_len ports + length sessions.items ≤ vec_capacity ports }
    ensures { result.items ≡ ports.items ++ map (λ s. s.1) sessions.entry.items }
{
    for pair in sessions {
        let (_, port) = pair;
        ports.push_reserved(port);
    }
    ports
}

/// The sessions on threads of their own and the loop on this one. The sessions are the first of the two calls: where no
/// thread can be made that one runs last, when the loop has closed and no session waits for anything.
fn run_all<R, P, L, C, G, F>(
    rt: &R,
    gate: &G,
    sessions: &mut [(Session<'_>, P)],
    looping: &mut L,
    cycles: u64,
    pace: &mut C,
    compute: &F,
) -> Result<(), Memory>
where
    R: Threads + Wait + Sync,
    P: Port + Send + Drop,
    L: LoopPort + Send,
    C: Pace + Send,
    G: Gate,
    F: Fn(&mut L, &mut L::Flight),
    requires sessions { All (λ s. IsAtItsStart (P.tells s.1) s.0) sessions.old }
    requires looping { MayLoop L.LoopPort F.Fn cycles looping.old compute.now }
    ensures sessions { EachHasRun P.footing P.tells sessions.old sessions.new }
    ensures looping { MatchResult result
        (λ _. HasLooped L.LoopPort cycles looping.old looping.new)
        (λ _. HasStopped L.LoopPort cycles looping.old looping.new) }
{
    let ((), made) = join_mut(
        rt,
        &mut ||
            requires { All (λ s. IsAtItsStart (P.tells s.1) s.0) sessions.now }
            ensures { EachHasRun P.footing P.tells sessions.entry.now sessions.exit.now }
        { run_sessions(rt, gate, sessions) },
        &mut || -> Result<(), Memory>
            requires { MayLoop L.LoopPort F.Fn cycles looping.now compute.now }
            ensures { MatchResult result
                (λ _. HasLooped L.LoopPort cycles looping.entry.now looping.exit.now)
                (λ _. HasStopped L.LoopPort cycles looping.entry.now looping.exit.now) }
        { run_loop(looping, cycles, pace, gate, compute) },
    );
    made
}

/// All sessions, each on a thread of its own where one can be made.
fn run_sessions<R, P, G>(rt: &R, gate: &G, sessions: &mut [(Session<'_>, P)])
where
    R: Threads + Wait + Sync,
    P: Port + Send + Drop,
    G: Gate,
    requires { All (λ s. IsAtItsStart (P.tells s.1) s.0) sessions.old }
    ensures { EachHasRun P.footing P.tells sessions.old sessions.new }
{
    let count = sessions.len();
    if count == 0 {
        return;
    }
    thread::for_each_mut(
        rt,
        sessions,
        count,
        &|_: usize, pair: &mut (Session<'_>, P)|
            requires { IsAtItsStart (P.tells pair.now.1) pair.now.0 }
            ensures { HasRunLive P.footing P.tells pair.entry.now pair.exit.now }
        { run_session(rt, gate, pair) },
    );
}
