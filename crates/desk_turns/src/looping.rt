//! The jobs of one thread or of several workers: cycles and turns, one after the other.

ghost use Rattle.std.specs.Prelude.{◌≡◌, ◌<◌, ◌^◌, length, IfOk, OnOk};
ghost use Rattle.std.specs.List.{All};
ghost use Rattle.cm_document.specs.declared.call.Call.TheVariants as call;
ghost use Rattle.cm_model.specs.Scheduled.{settle_all, looped, with_cycle, start, cycles};
ghost use Rattle.cm_model.specs.Scheduled.{finish, turned, turns, landed, cycles_left};
ghost use Rattle.cm_model.specs.State.{boot};
ghost use Rattle.cm_desk.specs.Desk.{now_of};
ghost use Rattle.console_session.specs.Sessions.{AreLines};
ghost use Rattle.desk_turns.specs.Jobs.{GoesOn, JobFacts, LeavesJob, progress_of};

use crate::jobs::{RunningJob, compute_by};
use cm_document::{Checked, Script, Turn};
use cm_stock::Stock;
use ctl_trait::Controller;
use fixed_num::Memory;
use std::alloc::Global;
use std::thread::Threads;

/// A job in its moves, for functions that take a closure over it. A closure over a type parameter can be stated; one
/// over a job, whose facts are its controllers', cannot.
pub(crate) trait Moves: Sized {
    // How far it has come.
    ghost facts: { Self → JobFacts };

    /// How many cycles have ended.
    fn cycles_ended(&self) -> u64
        ensures { result ≡ (now_of (facts self.now).desk).ended };

    /// All sessions settle, in order.
    fn settle_sessions(&mut self, alloc: Global) -> Result<(), Memory>
        ensures { OnOk result (GoesOn settle_all (facts self.old) (facts self.new)) };

    /// The loop begins the cycle of this number, if it can.
    fn begin_cycle(&mut self, alloc: Global, number: u64) -> Result<(), Memory>
        ensures { OnOk result (GoesOn (looped (call.Begin number)) (facts self.old) (facts self.new)) };

    /// The loop ends the cycle of this number, if it can.
    fn end_cycle(&mut self, number: u64)
        ensures { GoesOn (looped (call.End number)) (facts self.old) (facts self.new) };

    /// The loop closes, if it can.
    fn close_loop(&mut self)
        ensures { GoesOn (looped call.Close) (facts self.old) (facts self.new) };

    /// A turn, if it can be made.
    fn make_turn(&mut self, alloc: Global, turn: &Turn) -> Result<(), Memory>
        ensures { OnOk result (GoesOn (turned turn.now) (facts self.old) (facts self.new)) };
}

impl<'a, C: Controller> Moves for RunningJob<'a, C> {
    ghost facts = { λ j. j };

    fn cycles_ended(&self) -> u64 {
        self.ended()
    }

    fn settle_sessions(&mut self, alloc: Global) -> Result<(), Memory> {
        self.settle_all(alloc)
    }

    fn begin_cycle(&mut self, alloc: Global, number: u64) -> Result<(), Memory> {
        self.begin(alloc, number)
    }

    fn end_cycle(&mut self, number: u64) {
        self.end(number);
    }

    fn close_loop(&mut self) {
        self.close();
    }

    fn make_turn(&mut self, alloc: Global, turn: &Turn) -> Result<(), Memory> {
        self.turn(alloc, turn)
    }
}

/// Does what the caller does while a cycle is aloft.
fn do_between<'a, J: Moves, F>(between: &F, job: &'a mut J)
where
    F: Fn(&mut J),
    requires { LeavesJob J.facts F.Fn between.now }
    ensures { J.facts job.new ≡ J.facts job.old }
{
    between(job)
}

/// The sessions settle, and the cycle of this number begins and ends.
#[tactic(auto, unfolding(cm_model::specs::Scheduled::with_cycle))]
fn make_cycle<J: Moves, F>(
    job: &mut J,
    alloc: Global,
    number: u64,
    between: &F,
) -> Result<(), Memory>
where
    F: Fn(&mut J),
    requires { LeavesJob J.facts F.Fn between.now }
    ensures { OnOk result (GoesOn (with_cycle number) (J.facts job.old) (J.facts job.new)) }
{
    job.settle_sessions(alloc)?;
    job.begin_cycle(alloc, number)?;
    do_between(between, job);
    job.end_cycle(number);
    Ok(())
}

/// So many cycles, from cycle 0 on.
fn make_cycles<J: Moves, F>(
    job: &mut J,
    alloc: Global,
    count: u64,
    between: &F,
) -> Result<(), Memory>
where
    F: Fn(&mut J),
    requires { LeavesJob J.facts F.Fn between.now }
    ensures { OnOk result (GoesOn (cycles count) (J.facts job.old) (J.facts job.new)) }
{
    for number in 0..count {
        make_cycle(job, alloc, number, between)?;
    }
    Ok(())
}

/// After the last cycle: the sessions settle, the loop closes, and they settle once more.
#[tactic(auto, unfolding(cm_model::specs::Scheduled::finish))]
fn make_finish<J: Moves>(job: &mut J, alloc: Global) -> Result<(), Memory>
    ensures { OnOk result (GoesOn finish (J.facts job.old) (J.facts job.new)) }
{
    job.settle_sessions(alloc)?;
    job.close_loop();
    job.settle_sessions(alloc)
}

/// So many cycles, and then the end.
fn make_run<J: Moves, F>(job: &mut J, alloc: Global, count: u64, between: &F) -> Result<(), Memory>
where
    F: Fn(&mut J),
    requires { LeavesJob J.facts F.Fn between.now }
    ensures { OnOk result (GoesOn (λ p. finish (cycles count p)) (J.facts job.old) (J.facts job.new)) }
{
    make_cycles(job, alloc, count, between)?;
    make_finish(job, alloc)
}

/// The turns of a schedule, in order.
fn make_turns<J: Moves, F>(
    job: &mut J,
    alloc: Global,
    schedule: &[Turn],
    between: &F,
) -> Result<(), Memory>
where
    F: Fn(&mut J),
    requires { LeavesJob J.facts F.Fn between.now }
    ensures { OnOk result (GoesOn (turns schedule.now) (J.facts job.old) (J.facts job.new)) }
{
    for asked in schedule {
        job.make_turn(alloc, asked)?;
        do_between(between, job);
    }
    Ok(())
}

/// A cycle that is aloft ends.
fn make_landed<J: Moves>(job: &mut J)
    ensures { GoesOn landed (J.facts job.old) (J.facts job.new) }
{
    let cycle = job.cycles_ended();
    job.end_cycle(cycle);
}

/// The cycles that are left of so many.
fn make_cycles_left<J: Moves, F>(
    job: &mut J,
    alloc: Global,
    count: u64,
    between: &F,
) -> Result<(), Memory>
where
    F: Fn(&mut J),
    requires { LeavesJob J.facts F.Fn between.now }
    ensures { OnOk result (GoesOn (cycles_left count) (J.facts job.old) (J.facts job.new)) }
{
    let first = job.cycles_ended();
    let left = count.saturating_sub(first);
    for past in 0..left {
        make_cycle(job, alloc, first + past, between)?;
    }
    Ok(())
}

/// The turns come first; a cycle that is then aloft ends, and the rest goes as in the job `run`.
fn make_steps<J: Moves, F>(
    job: &mut J,
    alloc: Global,
    schedule: &[Turn],
    count: u64,
    between: &F,
) -> Result<(), Memory>
where
    F: Fn(&mut J),
    requires { LeavesJob J.facts F.Fn between.now }
    ensures { OnOk result (GoesOn (λ p. finish (cycles_left count (landed (turns schedule.now p))))
        (J.facts job.old) (J.facts job.new)) }
{
    make_turns(job, alloc, schedule, between)?;
    make_landed(job);
    make_cycles_left(job, alloc, count, between)?;
    make_finish(job, alloc)
}

/// The job `run` over a checked description and a script, made to its end on one thread.
pub fn run_job<'a, C: Controller>(
    alloc: Global,
    checked: Checked,
    script: &'a Script,
    stock: Stock<C>,
) -> Result<RunningJob<'a, C>, Memory>
    requires few { length script.now.sessions < 2 ^ 32 }
    requires lines { All (λ s. AreLines s.lines) script.now.sessions }
    ensures opening { IfOk result
        (λ job. job.desk.opening ≡ boot checked stock (length script.now.sessions)) }
    ensures scheduled { IfOk result
        (λ job. progress_of job ≡ finish
        (cycles checked.cycles (start (record { description = checked; script = script.now }) stock))) }
{
    let count = checked.description().cycles;
    let mut job = RunningJob::start(alloc, checked, script, stock)?;
    let nothing = |job: &mut RunningJob<'_, C>|
        ensures { job.exit.now ≡ job.entry.now }
    {};
    match make_run(&mut job, alloc, count, &nothing) {
        Ok(()) => Ok(job),
        Err(Memory) => {
            drop(job);
            Err(Memory)
        }
    }
}

/// The same, where so many workers share each cycle.
pub fn run_job_by<'a, R: Threads + Sync, C: Controller + Send>(
    rt: &R,
    alloc: Global,
    workers: u32,
    checked: Checked,
    script: &'a Script,
    stock: Stock<C>,
) -> Result<RunningJob<'a, C>, Memory>
    requires few { length script.now.sessions < 2 ^ 32 }
    requires lines { All (λ s. AreLines s.lines) script.now.sessions }
    ensures opening { IfOk result
        (λ job. job.desk.opening ≡ boot checked stock (length script.now.sessions)) }
    ensures scheduled { IfOk result
        (λ job. progress_of job ≡ finish
        (cycles checked.cycles (start (record { description = checked; script = script.now }) stock))) }
{
    let count = checked.description().cycles;
    let mut job = RunningJob::start(alloc, checked, script, stock)?;
    let compute = |job: &mut RunningJob<'_, C>|
        ensures { job.exit.now ≡ job.entry.now }
    { compute_by(rt, job, workers) };
    match make_run(&mut job, alloc, count, &compute) {
        Ok(()) => Ok(job),
        Err(Memory) => {
            drop(job);
            Err(Memory)
        }
    }
}

/// The job `steps` over a checked description and a script, made to its end on one thread.
pub fn run_in_steps<'a, C: Controller>(
    alloc: Global,
    checked: Checked,
    script: &'a Script,
    stock: Stock<C>,
) -> Result<RunningJob<'a, C>, Memory>
    requires few { length script.now.sessions < 2 ^ 32 }
    requires lines { All (λ s. AreLines s.lines) script.now.sessions }
    ensures opening { IfOk result
        (λ job. job.desk.opening ≡ boot checked stock (length script.now.sessions)) }
    ensures scheduled { IfOk result
        (λ job. progress_of job ≡ finish (cycles_left checked.cycles (landed (turns script.now.schedule
        (start (record { description = checked; script = script.now }) stock))))) }
{
    let count = checked.description().cycles;
    let mut job = RunningJob::start(alloc, checked, script, stock)?;
    let nothing = |job: &mut RunningJob<'_, C>|
        ensures { job.exit.now ≡ job.entry.now }
    {};
    match make_steps(&mut job, alloc, script.schedule.as_slice(), count, &nothing) {
        Ok(()) => Ok(job),
        Err(Memory) => {
            drop(job);
            Err(Memory)
        }
    }
}

/// The same, where so many workers share each cycle.
pub fn run_in_steps_by<'a, R: Threads + Sync, C: Controller + Send>(
    rt: &R,
    alloc: Global,
    workers: u32,
    checked: Checked,
    script: &'a Script,
    stock: Stock<C>,
) -> Result<RunningJob<'a, C>, Memory>
    requires few { length script.now.sessions < 2 ^ 32 }
    requires lines { All (λ s. AreLines s.lines) script.now.sessions }
    ensures opening { IfOk result
        (λ job. job.desk.opening ≡ boot checked stock (length script.now.sessions)) }
    ensures scheduled { IfOk result
        (λ job. progress_of job ≡ finish (cycles_left checked.cycles (landed (turns script.now.schedule
        (start (record { description = checked; script = script.now }) stock))))) }
{
    let count = checked.description().cycles;
    let mut job = RunningJob::start(alloc, checked, script, stock)?;
    let compute = |job: &mut RunningJob<'_, C>|
        ensures { job.exit.now ≡ job.entry.now }
    { compute_by(rt, job, workers) };
    match make_steps(&mut job, alloc, script.schedule.as_slice(), count, &compute) {
        Ok(()) => Ok(job),
        Err(Memory) => {
            drop(job);
            Err(Memory)
        }
    }
}
