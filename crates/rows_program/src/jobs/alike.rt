//! What a run prints does not depend on the number of its workers.

use crate::jobs::waiting::ran;
use pages_calls::stocks::few_blanks;
use pages_cases::pages::{expanded, halves, hold_told};
use pages_runs::documents::SIX_JOINTS;
use pages_runs::runs::IN_STOCK;
use std::alloc::Global;
use std::sync::Wait;
use std::test::Fail;
use std::thread::Threads;

/// The words of a run by each number of workers that can be asked for.
const BY_EACH: &str = "run|--workers|1
run|--workers|2
run|--workers|3
run|--workers|4
run|--workers|5
run|--workers|6
run|--workers|7
run|--workers|8";

#[test]
fn six_joints_move_alike_by_each_number_of_workers(rt: HostRuntime) -> Result<(), Fail> {
    for words in BY_EACH.lines() {
        hold(&rt, rt.alloc(), words, SIX_JOINTS)?;
    }
    Ok(())
}

/// Fails unless the run of a case goes well and prints what the case says.
fn hold<R: Threads + Wait + Sync>(
    rt: &R,
    alloc: Global,
    words: &str,
    case: &str,
) -> Result<(), Fail> {
    let case = expanded(alloc, case)?;
    let (document, want) = halves(case.as_str(), "=> ")?;
    let told = ran(rt, alloc, words, document, 0, few_blanks(alloc, IN_STOCK)?)?;
    hold_told(alloc, words, told.as_str(), want)
}
