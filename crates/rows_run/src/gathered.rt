//! One long trace into a sink over std, which gathers what it takes, and whose writer fails in each of its calls.

use outside_io::StdSink;
use pages_cases::pages::{Teller, expanded, hold_lines};
use pages_cases::words::part;
use pages_runs::runs::OF_PROGRAM;
use std::alloc::{AllocError, Global};
use std::io;
use std::io::{ErrorKind, Write};
use std::test::Fail;

#[test]
fn a_run_ends_at_the_gathered_write_that_fails(rt: HostRuntime) -> Result<(), Fail> {
    hold_lines(rt.alloc(), &IntoStd, "", ROWS)
}

/// A joint that stands still, and a controller, over three hundred cycles.
const LONG: &str = r#"version = 1
update_rate = 100
cycles = 300
[[component]]
name = "arm"
kind = "system"
[[component.joint]]
name = "j1"
vmax = 1
position = "0.25"
command = ["position"]
state = ["position"]
[[controller]]
name = "mk"
type = "mock"
--- script ---
session a
load mk
list interfaces
list controllers
"#;

/// Its trace: 21,234 bytes.
const LONG_TRACE: &str = "a load mk: ok 0
a list interfaces: state j1/position 0.250000; command j1/position unset free
a list controllers: mk mock unconfigured 0
<0..300 * loop begin #: none
loop end #: joint j1 0.250000 0.000000 0.000000
>\
loop close: none
";

/// A writer of std that keeps what it takes, so many bytes at most a write, and fails in one of its calls; a flush is a
/// call too.
#[derive(Drop)]
struct Keeping {
    bytes: Vec<u8>,
    step: usize,
    failing: usize,
    calls: usize,
}

impl Keeping {
    /// One call.
    fn call(&mut self) -> io::Result<()> {
        let call = self.calls;
        self.calls = call.saturating_add(1);
        if call == self.failing {
            return Err(io::Error::from(ErrorKind::Other));
        }
        Ok(())
    }
}

impl Write for Keeping {
    fn write(&mut self, piece: &[u8]) -> io::Result<usize> {
        self.call()?;
        let count = self.step.min(piece.len());
        match self.bytes.extend_from_slice(&piece[..count]) {
            Ok(()) => Ok(count),
            Err(AllocError) => Err(io::Error::from(ErrorKind::OutOfMemory)),
        }
    }

    fn flush(&mut self) -> io::Result<()> {
        self.call()
    }
}

/// Tells how a run of `LONG` ends, and how many bytes of its trace are written, where the writer takes so many bytes a
/// write and fails in this call: `STEP | CALL`.
#[derive(Clone, Copy)]
struct IntoStd;

impl Teller for IntoStd {
    fn told(&self, alloc: Global, row: &str) -> Result<String, Fail> {
        let row = row.trim_end();
        let mut writer = Keeping {
            bytes: Vec::new(alloc),
            step: part(row, 0).parse()?,
            failing: part(row, 1).parse()?,
            calls: 0,
        };
        let mut told = run_into(alloc, &mut writer)?;
        push_count(alloc, &mut told, writer.bytes.as_slice())?;
        Ok(told)
    }
}

/// How a run of `LONG` ends that is printed to a writer of std.
fn run_into(alloc: Global, writer: &mut Keeping) -> Result<String, Fail> {
    let mut sink = StdSink::make(writer);
    OF_PROGRAM.ended(alloc, LONG, &mut sink)
}

/// Appends how many bytes are written, which are the first ones of the trace.
fn push_count(alloc: Global, told: &mut String, written: &[u8]) -> Result<(), Fail> {
    let trace = expanded(alloc, LONG_TRACE)?;
    if !trace.as_bytes().starts_with(written) {
        return Err(Fail::new("no front of the trace"));
    }
    write!(told, ", {}", written.len())?;
    Ok(())
}

/// Twice 8,192 bytes are written while the run prints, and the rest when it flushes; the call behind that is the flush.
/// What was gathered when a write failed is lost, and what was taken of it before is not.
const ROWS: &str = "\
9999 | 0 => write fault, 0
9999 | 1 => write fault, 8192
9999 | 2 => write fault, 16384
9999 | 3 => write fault, 21234
9999 | 4 => ok, 21234
5000 | 0 => write fault, 0
5000 | 1 => write fault, 5000
5000 | 2 => write fault, 8192
5000 | 3 => write fault, 13192
5000 | 4 => write fault, 16384
5000 | 5 => write fault, 21234
5000 | 6 => ok, 21234
1 | 8191 => write fault, 8191
1 | 8192 => write fault, 8192
1 | 21233 => write fault, 21233
1 | 21234 => write fault, 21234
1 | 21235 => ok, 21234
0 | 9999 => write fault, 0";
