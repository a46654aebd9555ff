//! Runs with components, which no controller commands: what the lists tell of them at start, and what the cycles do.

mod failures;
mod lists;

use failures::{ARM, OF_ONE_COMPONENT, OF_SEVERAL, STATES_AT_START, STATES_ON_ERROR, TOP, WHOLE};
use lists::LISTS;
use pages_cases::pages::{Teller, halves, hold, hold_lines, joined, push_parted};
use pages_runs::runs::OF_PROGRAM;
use std::alloc::Global;
use std::test::Fail;

/// Tells what fails in the run of a description without a script: each item of a failure, with its cycle before it; or
/// `none`, or how a run ends that does not end well.
#[derive(Clone, Copy)]
struct FailedRuns;

impl Teller for FailedRuns {
    fn told(&self, alloc: Global, text: &str) -> Result<String, Fail> {
        let document = joined(alloc, text, "--- script ---\n")?;
        let whole = OF_PROGRAM.told(alloc, document.as_str())?;
        failures_in(alloc, whole.as_str())
    }
}

fn failures_in(alloc: Global, whole: &str) -> Result<String, Fail> {
    if !whole.starts_with("ok\n") {
        return Ok(String::from_str(alloc, whole)?);
    }
    let mut told = String::new(alloc);
    for line in whole.lines() {
        if line.starts_with("loop end ") {
            push_failures(&mut told, line)?;
        }
    }
    if told.is_empty() {
        told.push_str("none")?;
    }
    Ok(told)
}

/// Appends the failures that the line of a record tells, with a bar between two.
fn push_failures(told: &mut String, line: &str) -> Result<(), Fail> {
    let (head, items) = halves(line, ": ")?;
    let cycle = head.trim_start_matches("loop end ");
    for item in items.split("; ") {
        if item.starts_with("fail ") {
            push_parted(told, " | ", cycle)?;
            push_parted(told, ": ", item)?;
        }
    }
    Ok(())
}

#[test]
fn components_are_listed_run_and_fail(rt: HostRuntime) -> Result<(), Fail> {
    let alloc = rt.alloc();
    hold(alloc, &OF_PROGRAM, "", LISTS)?;
    hold(alloc, &OF_PROGRAM, "", WHOLE)?;
    hold_lines(alloc, &FailedRuns, ARM, OF_ONE_COMPONENT)?;
    hold_lines(alloc, &FailedRuns, ARM, STATES_ON_ERROR)?;
    hold_lines(alloc, &FailedRuns, ARM, STATES_AT_START)?;
    hold(alloc, &FailedRuns, TOP, OF_SEVERAL)
}
