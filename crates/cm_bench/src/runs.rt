//! Runs of a document, each to the end of its desk, and how long they took.

ghost use Rattle.cm_document.specs.ScriptLaws.{MeetsRules};

use crate::watch::Stopwatch;
use crate::working::{Working, blanks};
use cm_desk::Desk;
use cm_document::{Checked, Document, Script};
use cm_stock::Stock;
use cm_words::{Job, JobKind};
use ctl_mock::Mock;
use desk_jobs::{desk_of_job, desk_of_job_by, desk_of_live_run};
use fixed_num::Memory;
use outside_io::OpenGate;
use std::alloc::Global;
use std::rt::Clock;
use std::sync::Wait;
use std::thread::Threads;

/// How a document is run.
#[derive(Clone, Copy)]
pub(crate) enum Way {
    /// Live, where one worker computes.
    Live,
    /// By the schedule, on one thread.
    Alone,
    /// By the schedule, where so many workers share each cycle.
    Shared(u32),
}

impl Way {
    /// The desk of a run over this stock, at its end.
    fn desk<R>(
        self,
        rt: &R,
        alloc: Global,
        checked: Checked,
        script: &Script,
        stock: Stock<Working<Mock>>,
        watch: &mut Stopwatch<'_, R>,
    ) -> Result<Desk<Working<Mock>>, Memory>
    where
        R: Clock + Threads + Wait + Sync,
        requires { MeetsRules script.now }
    {
        match self {
            Way::Live => desk_of_live_run(rt, alloc, 1, checked, script, stock, watch, &OpenGate),
            Way::Alone => desk_of_job(alloc, JobKind::Run, checked, script, stock),
            Way::Shared(workers) => {
                let asked = Job {
                    kind: JobKind::Run,
                    make: None,
                    workers,
                };
                desk_of_job_by(rt, alloc, asked, checked, script, stock)
            }
        }
    }
}

/// A document whose mocks mix a number so many times in each update, and what is timed of its runs.
#[derive(Clone, Copy)]
pub(crate) struct Task<'a> {
    pub document: &'a Document,
    pub way: Way,
    pub turns: u64,
    /// From one begin to the next, in microseconds; 0 if there is no pause between two cycles.
    pub period_us: u64,
    /// Whether a whole run is timed, or each of its cycles.
    pub is_whole: bool,
}

impl Task<'_> {
    /// Runs it so many times: the lengths in nanoseconds, the least first.
    pub fn lengths<R>(self, rt: &R, alloc: Global, runs: u64) -> anyhow::Result<Vec<u64>>
    where
        R: Clock + Threads + Wait + Sync,
        requires { MeetsRules self.document.now.script }
    {
        let mut watch = Stopwatch::make(rt, alloc, self.period_us, self.is_whole);
        match self.run_often(rt, alloc, runs, &mut watch)? {
            true => Ok(watch.into_lengths()),
            false => Err(anyhow::anyhow!("a run that does not end well")),
        }
    }

    /// Whether so many runs all end well.
    fn run_often<R>(
        self,
        rt: &R,
        alloc: Global,
        runs: u64,
        watch: &mut Stopwatch<'_, R>,
    ) -> Result<bool, Memory>
    where
        R: Clock + Threads + Wait + Sync,
        requires { MeetsRules self.document.now.script }
    {
        for _ in 0..runs {
            watch.begin();
            if !self.ends_well(rt, alloc, watch)? {
                return Ok(false);
            }
            watch.end();
        }
        Ok(true)
    }

    /// Whether one run ends well. The stock is made behind all else that can fail, and its desk is dropped.
    fn ends_well<R>(
        self,
        rt: &R,
        alloc: Global,
        watch: &mut Stopwatch<'_, R>,
    ) -> Result<bool, Memory>
    where
        R: Clock + Threads + Wait + Sync,
        requires { MeetsRules self.document.now.script }
    {
        let blanks = blanks(alloc, self.turns)?;
        let checked = self.document.description.copy()?;
        let stock = Stock::make(blanks);
        let desk = self
            .way
            .desk(rt, alloc, checked, &self.document.script, stock, watch);
        Ok(desk.is_ok())
    }
}
