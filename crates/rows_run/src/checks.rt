//! Stored traces, each with how its check ends: with `legal`, or with the first wrong line and the line that was to
//! come there.

use cm_top::Status;
use cm_words::JobKind;
use pages_cases::pages::{Teller, hold, hold_told, joined};
use pages_runs::documents::MOVED;
use pages_runs::runs::{IN_STOCK, Runs, ample_sink};
use std::alloc::Global;
use std::str;
use std::test::Fail;

#[test]
fn traces_are_legal_or_told_by_their_first_wrong_line(rt: HostRuntime) -> Result<(), Fail> {
    let alloc = rt.alloc();
    let document = joined(alloc, MOVED, "--- trace ---\n")?;
    hold(alloc, &Checked, document.as_str(), TRACES)
}

#[test]
fn a_document_without_a_trace_has_a_bad_line(rt: HostRuntime) -> Result<(), Fail> {
    hold(rt.alloc(), &Checked, "", WITHOUT)
}

#[test]
fn the_last_line_needs_its_line_feed(rt: HostRuntime) -> Result<(), Fail> {
    let alloc = rt.alloc();
    let document = joined(alloc, MOVED, "--- trace ---\n")?;
    let legal = joined(alloc, document.as_str(), LEGAL)?;
    let Some(cut) = legal.strip_suffix("\n") else {
        return Err(Fail::new("a line feed"));
    };
    let told = Checked.told(alloc, cut)?;
    hold_told(
        alloc,
        cut,
        told.as_str(),
        "line 12, expected loop close: none",
    )
}

/// The job `check` with the program's stock.
const CHECK: Runs = Runs {
    kind: JobKind::Check,
    step: 1000,
    in_stock: IN_STOCK,
};

/// Tells how the check of a document's trace ends.
struct Checked;

impl Teller for Checked {
    fn told(&self, alloc: Global, text: &str) -> Result<String, Fail> {
        let mut sink = ample_sink(alloc)?;
        let status = CHECK.run_into(alloc, text, &mut sink)?;
        let told = told_of(alloc, &status, sink.bytes());
        drop(status);
        told
    }
}

/// What is told of a check that ended so, and printed these bytes.
fn told_of(alloc: Global, status: &Status, printed: &[u8]) -> Result<String, Fail> {
    match status {
        Status::Ok => Ok(String::from_str(alloc, str::from_utf8(printed)?.trim_end())?),
        Status::NotLegal { line, expected } => told_wrong(alloc, *line, expected.as_slice()),
        fault => Ok(format!(in alloc; "{fault}")?),
    }
}

/// A wrong line, with what was to come there.
pub(crate) fn told_wrong(alloc: Global, line: u32, expected: &[u8]) -> Result<String, Fail> {
    if expected.is_empty() {
        return Ok(format!(in alloc; "line {line}, nothing expected")?);
    }
    let expected = str::from_utf8(expected)?;
    Ok(format!(in alloc; "line {line}, expected {expected}")?)
}

/// The trace of the job `run`.
const LEGAL: &str = "\
a load fwd: ok 0
a configure fwd: ok
a switch strict +fwd: queued 0
loop begin 0: 0 done
loop end 0: run fwd ok unset; joint j1 0.000000 0.000000 0.000000
a told 0: done
a send fwd 0.500000: ok
loop begin 1: none
loop end 1: run fwd ok 0.500000; joint j1 0.010000 1.000000 0.000000
loop begin 2: none
loop end 2: run fwd ok 0.500000; joint j1 0.020000 1.000000 0.000000
loop close: none
";

/// Traces of a joint that a controller moves for three cycles: as the job `run` prints it; without its last line; with
/// a digit changed; with two lines behind a third, and with what these then print; with a line of nobody; of a session
/// that has no call; with two calls of one session exchanged; with a carriage return.
const TRACES: &str = r#"a load fwd: ok 0
a configure fwd: ok
a switch strict +fwd: queued 0
loop begin 0: 0 done
loop end 0: run fwd ok unset; joint j1 0.000000 0.000000 0.000000
a told 0: done
a send fwd 0.500000: ok
loop begin 1: none
loop end 1: run fwd ok 0.500000; joint j1 0.010000 1.000000 0.000000
loop begin 2: none
loop end 2: run fwd ok 0.500000; joint j1 0.020000 1.000000 0.000000
loop close: none
=> legal

a load fwd: ok 0
a configure fwd: ok
a switch strict +fwd: queued 0
loop begin 0: 0 done
loop end 0: run fwd ok unset; joint j1 0.000000 0.000000 0.000000
a told 0: done
a send fwd 0.500000: ok
loop begin 1: none
loop end 1: run fwd ok 0.500000; joint j1 0.010000 1.000000 0.000000
loop begin 2: none
loop end 2: run fwd ok 0.500000; joint j1 0.020000 1.000000 0.000000
=> line 12, nothing expected

a load fwd: ok 0
a configure fwd: ok
a switch strict +fwd: queued 0
loop begin 0: 0 done
loop end 0: run fwd ok unset; joint j1 0.000000 0.000000 0.000000
a told 0: done
a send fwd 0.500000: ok
loop begin 1: none
loop end 1: run fwd ok 0.500000; joint j1 0.020000 1.000000 0.000000
loop begin 2: none
loop end 2: run fwd ok 0.500000; joint j1 0.020000 1.000000 0.000000
loop close: none
=> line 9, expected loop end 1: run fwd ok 0.500000; joint j1 0.010000 1.000000 0.000000

a load fwd: ok 0
a configure fwd: ok
a switch strict +fwd: queued 0
loop begin 0: 0 done
loop end 0: run fwd ok unset; joint j1 0.000000 0.000000 0.000000
loop begin 1: none
a told 0: done
a send fwd 0.500000: ok
loop end 1: run fwd ok 0.500000; joint j1 0.010000 1.000000 0.000000
loop begin 2: none
loop end 2: run fwd ok 0.500000; joint j1 0.020000 1.000000 0.000000
loop close: none
=> line 9, expected loop end 1: run fwd ok unset; joint j1 0.000000 0.000000 0.000000

a load fwd: ok 0
a configure fwd: ok
a switch strict +fwd: queued 0
loop begin 0: 0 done
loop end 0: run fwd ok unset; joint j1 0.000000 0.000000 0.000000
loop begin 1: none
a told 0: done
a send fwd 0.500000: ok
loop end 1: run fwd ok unset; joint j1 0.000000 0.000000 0.000000
loop begin 2: none
loop end 2: run fwd ok 0.500000; joint j1 0.010000 1.000000 0.000000
loop close: none
=> legal

b load fwd: ok 0
=> line 1, nothing expected

a configure fwd: not_loaded
=> line 1, expected a load fwd: ok 0

loop begin 0: none
loop begin 1: none
=> line 2, expected loop end 0: joint j1 0.000000 0.000000 0.000000

loop
=> line 1, expected loop begin 0: none

a load fwd: ok 0
a configure fwd: ok
a switch strict +fwd: queued 0
a told 0: done
=> line 4, nothing expected

a load fwd: ok 0\r
=> line 1, expected a load fwd: ok 0"#;

/// Documents whose trace does not stand: without its separator, without that of the script, and with a bad line before
/// it. A carriage return before the end of the separator does not count.
const WITHOUT: &str = r#"version = 1
update_rate = 100
cycles = 0
--- script ---
session a
=> script: bad_line 6

version = 1
update_rate = 100
cycles = 0
=> script: bad_line 4

version = 1
update_rate = 100
cycles = 0
--- script ---
jump
--- trace ---
loop close: none
=> script: bad_line 5

version = 1
update_rate = 100
cycles = 0
--- script ---
--- trace ---\r
loop close: none
=> legal

version = 1
update_rate = 100
cycles = 0
--- script ---
--- trace ---
--- trace ---
=> line 1, nothing expected

version = 1
update_rate = 100
cycles = 0
--- trace ---
loop close: none
--- script ---
=> description: not_toml"#;
