//! Runs whose source or sink fails in each of its calls, one after the other, and sinks of each size.

use outside_io::{MemSink, MemSource};
use pages_calls::stocks::few_blanks;
use pages_cases::pages::hold_told;
use pages_runs::documents::MOVED;
use pages_runs::runs::{AMPLE, IN_STOCK, OF_PROGRAM, in_words, run_over};
use std::alloc::Global;
use std::str;
use std::test::Fail;

/// The trace of the joint that is moved, with a bar where a call of the sink ends that takes ten bytes at a time.
const PIECES: &str = "a load fwd|: ok 0
|a configur|e fwd: ok
|a switch s|trict +fwd|: queued 0|
|loop begin| 0: 0 done|
|loop end 0|: run fwd |ok unset; |joint j1 0|.000000 0.|000000 0.0|00000
|a told 0: |done
|a send fwd| 0.500000:| ok
|loop begin| 1: none
|loop end 1|: run fwd |ok 0.50000|0; joint j|1 0.010000| 1.000000 |0.000000
|loop begin| 2: none
|loop end 2|: run fwd |ok 0.50000|0; joint j|1 0.020000| 1.000000 |0.000000
|loop close|: none
";

/// Each read gives eight bytes of the document, so the forty-first gives the last, and the one behind it the end.
const READS: usize = 42;

#[test]
fn a_run_ends_at_each_read_that_fails(rt: HostRuntime) -> Result<(), Fail> {
    let alloc = rt.alloc();
    for call in 0..READS {
        hold_read(alloc, call, "read fault", "")?;
    }
    let trace = PIECES.replace(alloc, "|", "")?;
    hold_read(alloc, READS, "ok", trace.as_str())
}

/// Fails if a run whose source fails in this call ends otherwise, or if the sink takes something else.
fn hold_read(alloc: Global, failing: usize, status: &str, taken: &str) -> Result<(), Fail> {
    let bytes = MOVED.as_bytes().to_vec(alloc)?;
    let mut source = MemSource::make(bytes, 8, vec![in alloc; failing as u64]?);
    let mut sink = sink(alloc, AMPLE, AMPLE, NO_CALL)?;
    let ended = ended_over(alloc, &mut source, &mut sink)?;
    hold_ended(alloc, ended.as_str(), &sink, status, taken)
}

/// How a run between these ends, in words.
fn ended_over(alloc: Global, source: &mut MemSource, sink: &mut MemSink) -> Result<String, Fail> {
    let blanks = few_blanks(alloc, IN_STOCK)?;
    let (status, book) = run_over(alloc, source, sink, blanks);
    drop(book);
    in_words(alloc, status)
}

/// The call behind the last piece is the flush.
#[test]
fn a_run_ends_at_each_write_that_fails(rt: HostRuntime) -> Result<(), Fail> {
    let alloc = rt.alloc();
    let mut taken = String::new(alloc);
    for (call, piece) in PIECES.split('|').enumerate() {
        hold_write(alloc, call, "write fault", taken.as_str())?;
        taken.push_str(piece)?;
    }
    let flush = PIECES.split('|').count();
    hold_write(alloc, flush, "write fault", taken.as_str())?;
    hold_write(alloc, flush.saturating_add(1), "ok", taken.as_str())
}

/// Fails if a run whose sink fails in this call ends otherwise, or if the sink takes something else.
fn hold_write(alloc: Global, failing: usize, status: &str, taken: &str) -> Result<(), Fail> {
    hold_run(
        alloc,
        MOVED,
        sink(alloc, AMPLE, 10, failing)?,
        status,
        taken,
    )
}

/// The document that has the shortest trace.
const LEAST: &str = "version = 1
update_rate = 100
cycles = 0
--- script ---
";

/// Its trace: 17 bytes.
const LEAST_TRACE: &str = "loop close: none
";

#[test]
fn a_run_fills_a_sink_of_each_size(rt: HostRuntime) -> Result<(), Fail> {
    let alloc = rt.alloc();
    let mut taken = String::new(alloc);
    for letter in LEAST_TRACE.chars() {
        hold_room(alloc, taken.len(), "write fault", taken.as_str())?;
        taken.push(letter)?;
    }
    hold_room(alloc, taken.len(), "ok", LEAST_TRACE)
}

/// Fails if the shortest run into a sink with so much room ends otherwise, or if the sink takes something else.
fn hold_room(alloc: Global, room: usize, status: &str, taken: &str) -> Result<(), Fail> {
    let sink = sink(alloc, room, AMPLE, NO_CALL)?;
    hold_run(alloc, LEAST, sink, status, taken)
}

/// Fails if a run into this sink ends otherwise, or if the sink takes something else.
fn hold_run(
    alloc: Global,
    document: &str,
    mut sink: MemSink,
    status: &str,
    taken: &str,
) -> Result<(), Fail> {
    let ended = OF_PROGRAM.ended(alloc, document, &mut sink)?;
    hold_ended(alloc, ended.as_str(), &sink, status, taken)
}

/// Fails if a run ended otherwise, or if its sink took something else.
fn hold_ended(
    alloc: Global,
    ended: &str,
    sink: &MemSink,
    status: &str,
    taken: &str,
) -> Result<(), Fail> {
    hold_told(alloc, "how it ends", ended, status)?;
    hold_told(alloc, "what is taken", str::from_utf8(sink.bytes())?, taken)
}

/// The number of no call.
pub(crate) const NO_CALL: usize = 1_000_000;

/// A sink with so much room that takes so many bytes at a time and fails in this call.
pub(crate) fn sink(
    alloc: Global,
    room: usize,
    step: usize,
    failing: usize,
) -> Result<MemSink, Fail> {
    if step == 0 {
        return Err(Fail::new("a step of none"));
    }
    Ok(MemSink::make(alloc, room, step, vec![in alloc; failing as u64]?)?)
}
