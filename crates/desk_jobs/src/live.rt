//! The live run: the loop and the sessions beside one another, each on a thread of its own, over one desk that they
//! share.

ghost use Rattle.std.specs.Prelude.{◌≡◌, ◌+◌, ◌≤◌, ◌++◌, All, length, map, vec_capacity, vec_len, IfOk, None};
ghost use Rattle.cm_document.specs.ScriptLaws.{MeetsRules};
ghost use Rattle.cm_document.specs.declared.document.Document.{Document};
ghost use Rattle.cm_words.specs.declared.job.JobKind.TheVariants as kind;
ghost use Rattle.shared_desk.specs.Passes.{IsSessionPass};
ghost use Rattle.desk_jobs.specs.Book.{IsDone, made_by};
ghost use Rattle.desk_jobs.specs.Live.{CanStart, HasRun, WasComputed};

use crate::alone::made_alone;
use cm_desk::Desk;
use cm_document::{Checked, Script};
use cm_stock::Stock;
use console_session::Session;
use ctl_trait::Controller;
use desk_turns::waiting;
use fixed_num::Memory;
use live_run::live_by;
use outside_io::{Gate, Pace};
use par_update::compute_by;
use rt_flight::Flight;
use shared_desk::{LoopEnd, LoopPass, Pass, SessionPort, SharedDesk};
use std::alloc::Global;
use std::sync::Wait;
use std::thread::Threads;

/// The desk of a live run over a checked description and a script, once the loop and all sessions have come to their
/// ends. They share it, unless one worker computes and there is no session.
pub fn desk_of_live_run<R, P, G, C>(
    rt: &R,
    alloc: Global,
    workers: u32,
    checked: Checked,
    script: &Script,
    stock: Stock<C>,
    pace: &mut P,
    gate: &G,
) -> Result<Desk<C>, Memory>
where
    R: Threads + Wait + Sync,
    P: Pace + Send,
    G: Gate,
    C: Controller + Send,
    requires rules { MeetsRules script.now }
    ensures { IfOk result
        (IsDone (made_by kind.Live stock) stock (record { description = checked; script = script.now })) }
{
    let cycles = checked.description().cycles;
    let texts = script.sessions.as_slice();
    if texts.is_empty() && workers <= 1 {
        return made_alone(alloc, checked, stock, pace, gate);
    }
    let sessions = waiting(alloc, texts)?;
    let desk = Desk::boot(alloc, checked, stock, texts.len() as u32)?;
    let (shared, looping, passes) = SharedDesk::share(alloc, desk)?;
    let (looping, passes) = run_over(
        rt, alloc, workers, &shared, sessions, looping, passes, cycles, pace, gate,
    )?;
    Ok(shared.home(looping, passes))
}

/// The loop and all sessions over a shared desk, to their ends: their passes come back. So many workers compute a
/// flight.
fn run_over<R, P, G, C>(
    rt: &R,
    alloc: Global,
    workers: u32,
    shared: &SharedDesk<C>,
    sessions: Vec<Session<'_>>,
    looping: LoopPass<C>,
    passes: Vec<Pass<C>>,
    cycles: u64,
    pace: &mut P,
    gate: &G,
) -> Result<(LoopPass<C>, Vec<Pass<C>>), Memory>
where
    R: Threads + Wait + Sync,
    P: Pace + Send,
    G: Gate,
    C: Controller + Send,
    requires { CanStart cycles shared.now.lock shared.now.at_first.value sessions.items looping.pass passes.items }
    ensures { IfOk result
        (λ r. HasRun cycles shared.now.lock shared.now.at_first.value sessions.entry.items r.0.pass r.1.items) }
{
    // No memory is taken once a thread has started.
    let room = Vec::with_capacity(alloc, passes.len())?;
    let pairs = with_ports(rt, alloc, shared, sessions, passes)?;
    let mut end = LoopEnd::make(shared, rt, looping);
    let compute = |console: &mut LoopEnd<'_, R, C>, flight: &mut Flight<C>|
        requires { flight.now.progress ≡ None }
        ensures { (console.exit.now ≡ console.entry.now) × WasComputed flight.entry.now flight.exit.now }
    { compute_by(rt, flight, workers) };
    let ports = live_by(rt, alloc, pairs, &mut end, cycles, pace, gate, &compute)?;
    Ok((end.into_pass(), passes_of(ports, room)))
}

/// Each session with the console of its pass, in order.
fn with_ports<'a, 's, R: Wait, C: Controller>(
    rt: &'a R,
    alloc: Global,
    shared: &'a SharedDesk<C>,
    sessions: Vec<Session<'s>>,
    passes: Vec<Pass<C>>,
) -> Result<Vec<(Session<'s>, SessionPort<'a, R, C>)>, Memory>
    requires passes { All (IsSessionPass shared.now.lock shared.now.at_first.value) passes.items }
    requires as_many { length sessions.items ≡ length passes.items }
    ensures sessions { IfOk result (λ pairs. map (λ s. s.0) pairs.items ≡ sessions.entry.items) }
    ensures passes { IfOk result (λ pairs. map (λ s. s.1.pass) pairs.items ≡ passes.items) }
{
    let mut pairs = Vec::with_capacity(alloc, sessions.len())?;
    for (session, pass) in sessions.into_iter().zip(passes) {
        pairs.push((session, SessionPort::make(shared, rt, pass)))?;
    }
    Ok(pairs)
}

/// The passes of all consoles, behind those that are there, in room that was reserved for them.
fn passes_of<'a, R: Wait, C: Controller>(
    ports: Vec<SessionPort<'a, R, C>>,
    mut passes: Vec<Pass<C>>,
) -> Vec<Pass<C>>
    requires room { vec_len passes + length ports.items ≤ vec_capacity passes }
    ensures passes { result.items ≡ passes.items ++ map (λ p. p.pass) ports.entry.items }
    ensures theirs { All (λ p. IsSessionPass p.desk.now.lock p.desk.now.at_first.value p.pass) ports.entry.items }
{
    for port in ports {
        passes.push_reserved(port.into_pass());
    }
    passes
}
