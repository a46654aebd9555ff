//! One long trace into sinks that take a few bytes at a time, and into sinks that fail at each of its lines.

use crate::each_call::{NO_CALL, sink};
use outside_io::MemSink;
use pages_cases::pages::{expanded, halves, hold_told, written_out};
use pages_runs::runs::{AMPLE, OF_PROGRAM};
use std::alloc::Global;
use std::str;
use std::test::Fail;

/// A joint that stands still, an arm whose read fails once, and a controller, over sixty cycles.
const LONG: &str = r#"version = 1
update_rate = 100
cycles = 60
[[component]]
name = "arm"
kind = "system"
fail_read = [59]
[[component.joint]]
name = "j1"
vmax = 1
position = "0.25"
command = ["position"]
state = ["position"]
[[controller]]
name = "mk"
type = "mock"
--- script ---
session a
load mk
list interfaces
list controllers
"#;

/// Its trace.
const LONG_TRACE: &str = "a load mk: ok 0
a list interfaces: state j1/position 0.250000; command j1/position unset free
a list controllers: mk mock unconfigured 0
<0..59 * loop begin #: none
loop end #: joint j1 0.250000 0.000000 0.000000
>\
loop begin 59: none
loop end 59: fail arm read; joint j1 0.250000 0.000000 0.000000
loop close: none
";

/// How many lines it has.
const LINES: usize = 124;

/// How many bytes the last sink takes at a time.
const LONGEST_STEP: usize = 64;

#[test]
fn a_long_trace_is_taken_whole_a_few_bytes_at_a_time(rt: HostRuntime) -> Result<(), Fail> {
    let trace = expanded(rt.alloc(), LONG_TRACE)?;
    for step in 1..LONGEST_STEP + 1 {
        let sink = sink(rt.alloc(), AMPLE, step, NO_CALL)?;
        hold_taken(rt.alloc(), sink, "ok", trace.as_str())?;
    }
    Ok(())
}

/// Over a sink that takes whole pieces: each line is one, and the call behind them is the flush.
#[test]
fn a_run_ends_at_the_line_whose_write_fails(rt: HostRuntime) -> Result<(), Fail> {
    let trace = expanded(rt.alloc(), LONG_TRACE)?;
    for call in 0..LINES + 1 {
        hold_lines_taken(rt.alloc(), trace.as_str(), call)?;
    }
    let sink = sink(rt.alloc(), AMPLE, AMPLE, LINES + 1)?;
    hold_taken(rt.alloc(), sink, "ok", trace.as_str())
}

/// Over a sink that takes seven bytes at a time: what it took before the call that fails.
#[test]
fn a_line_goes_on_behind_the_part_that_was_taken(rt: HostRuntime) -> Result<(), Fail> {
    for row in PARTS.lines() {
        hold_part(rt.alloc(), row)?;
    }
    Ok(())
}

/// The call that fails, and the bytes of the first two lines that were taken.
const PARTS: &str = r"0 =>\s
1 => a load\s
2 => a load mk: ok\s
3 => a load mk: ok 0\n
4 => a load mk: ok 0\na list\s
5 => a load mk: ok 0\na list interfa";

fn hold_part(alloc: Global, row: &str) -> Result<(), Fail> {
    let row = written_out(alloc, row)?;
    let (call, taken) = halves(row.as_str(), " => ")?;
    let sink = sink(alloc, AMPLE, 7, call.parse()?)?;
    hold_taken(alloc, sink, "write fault", taken)
}

/// Fails where a run of `LONG` ends otherwise, or something else is taken.
fn hold_taken(alloc: Global, sink: MemSink, status: &str, taken: &str) -> Result<(), Fail> {
    let mut sink = sink;
    let ended = OF_PROGRAM.ended(alloc, LONG, &mut sink)?;
    hold_told(alloc, "how it ends", ended.as_str(), status)?;
    hold_told(alloc, "what is taken", str::from_utf8(sink.bytes())?, taken)
}

/// Fails if a run of `LONG` whose write of this line fails, counted from 0, ends otherwise, or if something else is
/// taken than the lines of its trace before that one.
fn hold_lines_taken(alloc: Global, trace: &str, line: usize) -> Result<(), Fail> {
    let taken = first_lines(trace, line)?;
    let sink = sink(alloc, AMPLE, AMPLE, line)?;
    hold_taken(alloc, sink, "write fault", taken)
}

/// The first lines of a text, with their ends.
fn first_lines(text: &str, count: usize) -> Result<&str, Fail> {
    let mut rest = text;
    for _ in 0..count {
        let (_, more) = halves(rest, "\n")?;
        rest = more;
    }
    match text.strip_suffix(rest) {
        Some(lines) => Ok(lines),
        None => Err(Fail::new("a text without its end")),
    }
}
