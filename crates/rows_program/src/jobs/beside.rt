//! Two controllers of one depth that wait for each other in their updates.

ghost use Rattle.std.specs.Prelude.{◌<◌, ◌^◌, length};
ghost use Rattle.std.specs.List.{All};
ghost use Rattle.cm_model.specs.Controllers.{IsBlank};

use crate::jobs::meeting::Meeting;
use crate::jobs::waiting::ran;
use crate::jobs::watching::all_watching;
use ctl_trait::Controller;
use pages_calls::stocks::few_blanks;
use sequence::Shared;
use std::alloc::Global;
use std::sync::Wait;
use std::test::Fail;
use std::thread::Threads;

/// Two mocks, of which neither has to do with the other: both have depth 0. The session asks for them in its fifth
/// line.
const DOCUMENT: &str = r#"version = 1
update_rate = 100
cycles = 3
[[controller]]
name = "left"
type = "mock"
[[controller]]
name = "right"
type = "mock"
--- script ---
session a
load left
load right
configure left
configure right
switch strict +left +right
"#;

/// The line of the switch, counted from 0 in its session.
const SWITCH: u32 = 4;

/// The words of runs by several workers.
const BY_SEVERAL: &str = "run|--workers|2
run|--workers=8
steps|--workers|2
live|--workers|2
live|--workers|8";

/// By one worker the first of them waits in vain.
const BY_ONE: &str = "run
live|--workers|1";

#[test]
fn two_of_one_depth_are_updated_beside_one_another(rt: HostRuntime) -> Result<(), Fail> {
    for words in BY_SEVERAL.lines() {
        hold_meeting(&rt, rt.alloc(), words)?;
    }
    Ok(())
}

#[test]
fn one_worker_updates_them_one_after_the_other(rt: HostRuntime) -> Result<(), Fail> {
    for words in BY_ONE.lines() {
        hold_no_meeting(&rt, rt.alloc(), words)?;
    }
    Ok(())
}

/// Fails unless the two meet in the run.
fn hold_meeting<R: Threads + Wait + Sync>(rt: &R, alloc: Global, words: &str) -> Result<(), Fail> {
    match have_met(rt, alloc, words)? {
        true => Ok(()),
        false => Err(Fail::new(format!(in alloc; "no meeting: {words}")?)),
    }
}

/// Fails if the two meet in the run.
fn hold_no_meeting<R: Threads + Wait + Sync>(
    rt: &R,
    alloc: Global,
    words: &str,
) -> Result<(), Fail> {
    match have_met(rt, alloc, words)? {
        true => Err(Fail::new(format!(in alloc; "a meeting: {words}")?)),
        false => Ok(()),
    }
}

/// Whether the two have met in the run, which goes well.
fn have_met<R: Threads + Wait + Sync>(rt: &R, alloc: Global, words: &str) -> Result<bool, Fail> {
    let meeting = Shared::new(alloc, Meeting::new())?;
    let two = all_watching(alloc, few_blanks(alloc, 2)?, &meeting)?;
    let told = ran_over(rt, alloc, words, two)?;
    if !told.starts_with("ok\n") {
        return Err(Fail::new(told));
    }
    Ok(meeting.get().has_been())
}

/// The run over these blanks.
fn ran_over<R: Threads + Wait + Sync, C: Controller + Send>(
    rt: &R,
    alloc: Global,
    words: &str,
    blanks: Vec<C>,
) -> Result<String, Fail>
    requires blank { All (λ c. IsBlank (C.meaning c)) blanks.items }
{
    if blanks.len() > 1_000 {
        return Err(Fail::new("a stock too large"));
    }
    ran(rt, alloc, words, DOCUMENT, SWITCH, blanks)
}
