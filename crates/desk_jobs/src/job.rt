//! The jobs of the schedule, by one thread or by several workers.

ghost use Rattle.std.specs.Prelude.{IfOk};
ghost use Rattle.cm_document.specs.ScriptLaws.{MeetsRules};
ghost use Rattle.cm_document.specs.declared.document.Document.{Document};
ghost use Rattle.desk_jobs.specs.Book.{RunsAlone, IsDone, made_by};

use cm_desk::Desk;
use cm_document::{Checked, Script};
use cm_stock::Stock;
use cm_words::{Job, JobKind};
use ctl_trait::Controller;
use desk_turns::{run_in_steps, run_in_steps_by, run_job, run_job_by};
use fixed_num::Memory;
use std::alloc::Global;
use std::thread::Threads;

/// The desk of a job that is not live, made to its end over a checked description and a script.
pub fn desk_of_job<C: Controller>(
    alloc: Global,
    kind: JobKind,
    checked: Checked,
    script: &Script,
    stock: Stock<C>,
) -> Result<Desk<C>, Memory>
    requires runs { RunsAlone kind }
    requires rules { MeetsRules script.now }
    ensures { IfOk result
        (IsDone (made_by kind stock) stock (record { description = checked; script = script.now })) }
{
    match kind {
        JobKind::Run => Ok(run_job(alloc, checked, script, stock)?.into_desk()),
        JobKind::Steps => Ok(run_in_steps(alloc, checked, script, stock)?.into_desk()),
        JobKind::Live | JobKind::Upgrade | JobKind::Check | JobKind::Plan => unreachable!(),
    }
}

/// The same, where as many workers as the job has share each cycle.
pub fn desk_of_job_by<R: Threads + Sync, C: Controller + Send>(
    rt: &R,
    alloc: Global,
    asked: Job,
    checked: Checked,
    script: &Script,
    stock: Stock<C>,
) -> Result<Desk<C>, Memory>
    requires runs { RunsAlone asked.kind }
    requires rules { MeetsRules script.now }
    ensures { IfOk result
        (IsDone (made_by asked.kind stock) stock (record { description = checked; script = script.now })) }
{
    let workers = asked.workers;
    match asked.kind {
        JobKind::Run => Ok(run_job_by(rt, alloc, workers, checked, script, stock)?.into_desk()),
        JobKind::Steps => {
            Ok(run_in_steps_by(rt, alloc, workers, checked, script, stock)?.into_desk())
        }
        JobKind::Live | JobKind::Upgrade | JobKind::Check | JobKind::Plan => unreachable!(),
    }
}
