//! Runs over a source or a sink that fails.

use outside_io::{MemSink, MemSource};
use pages_calls::stocks::few_blanks;
use pages_cases::pages::{Teller, hold};
use pages_cases::words::word;
use pages_runs::books::left_by;
use pages_runs::documents::FIRST;
use pages_runs::runs::{IN_STOCK, run_over};
use std::alloc::Global;
use std::str;
use std::test::Fail;

/// Tells how a run of `FIRST` ends, what it leaves, and what the sink took, by five numbers: the bytes that are given a
/// read, the read that fails, the room of the sink, the bytes that it takes a write, and the write or flush that fails.
/// Calls are numbered from 0.
#[derive(Clone, Copy)]
struct Fails;

impl Teller for Fails {
    fn told(&self, alloc: Global, text: &str) -> Result<String, Fail> {
        let row = text.trim_end();
        let mut source = source_of(alloc, row)?;
        let mut sink = sink_of(alloc, row)?;
        let left = left_over(alloc, &mut source, &mut sink)?;
        with_printed(alloc, left.as_str(), sink.bytes())
    }
}

/// How a run between these ends, and what it leaves.
fn left_over(alloc: Global, source: &mut MemSource, sink: &mut MemSink) -> Result<String, Fail> {
    let blanks = few_blanks(alloc, IN_STOCK)?;
    let (status, book) = run_over(alloc, source, sink, blanks);
    left_by(alloc, status, book)
}

/// What a run leaves, and below it what the sink took.
fn with_printed(alloc: Global, left: &str, bytes: &[u8]) -> Result<String, Fail> {
    let taken = str::from_utf8(bytes)?;
    Ok(format!(in alloc; "{left}\n{taken}.")?)
}

fn source_of(alloc: Global, row: &str) -> Result<MemSource, Fail> {
    let step: u32 = word(row, 0).parse()?;
    if step == 0 {
        return Err(Fail::new("a step of none"));
    }
    let fails = vec![in alloc; word(row, 1).parse()?]?;
    let bytes = FIRST.as_bytes().to_vec(alloc)?;
    Ok(MemSource::make(bytes, step as usize, fails))
}

fn sink_of(alloc: Global, row: &str) -> Result<MemSink, Fail> {
    let step: u32 = word(row, 3).parse()?;
    if step == 0 {
        return Err(Fail::new("a step of none"));
    }
    let fails = vec![in alloc; word(row, 4).parse()?]?;
    let room: u32 = word(row, 2).parse()?;
    Ok(MemSink::make(alloc, room as usize, step as usize, fails)?)
}

#[test]
fn runs_end_at_the_read_or_the_write_that_fails(rt: HostRuntime) -> Result<(), Fail> {
    hold(rt.alloc(), &Fails, "", FAULTS)
}

/// A dot stands behind what the sink took. The sink of the last cases takes a line in one call, so the tenth call is
/// the flush. Whatever the sink takes, the run was made before, and leaves its book: four calls, two cycles and the
/// close, with the mock that was loaded.
const FAULTS: &str = "8 0 4096 4096 1000000
=> read fault
no book
.

8 1 4096 4096 1000000
=> read fault
no book
.

8 1000000 4096 10 1
=> write fault
entries 9
mock
a load mk:.

8 1000000 4096 4096 0
=> write fault
entries 9
mock
.

8 1000000 4096 4096 1
=> write fault
entries 9
mock
a load mk: ok 0
.

8 1000000 4096 4096 9
=> write fault
entries 9
mock
a load mk: ok 0
a list controllers: mk mock unconfigured 0
a load nosuch: not_described
a load mk: loaded
loop begin 0: none
loop end 0: none
loop begin 1: none
loop end 1: none
loop close: none
.

8 1000000 0 4096 1000000
=> write fault
entries 9
mock
.";
