//! Sources and sinks over std's readers and writers.

ghost use Rattle.std.specs.Prelude.{◌≡◌, IfOk};

use super::{push_bytes, push_calls_over, push_read};
use outside_io::{Sink, Source, StdSink, StdSource, read_whole};
use pages_cases::pages::{Teller, hold_lines};
use pages_cases::words::word;
use std::alloc::Global;
use std::io;
use std::io::{ErrorKind, Read, Write};
use std::test::Fail;

#[test]
fn readers_and_writers_of_std(rt: HostRuntime) -> Result<(), Fail> {
    let alloc = rt.alloc();
    hold_lines(alloc, &Reads, "", "hello => 4 hell: o")?;
    hold_lines(alloc, &Writes, "", WRITES)?;
    hold_lines(alloc, &FullWrites, "", FULL_WRITES)?;
    hold_lines(alloc, &ThreeCalls, "", INTERRUPTIONS)
}

/// Tells what a read of four bytes gives of a text, and what a whole read gives then.
#[derive(Clone, Copy)]
struct Reads;

impl Teller for Reads {
    fn told(&self, alloc: Global, row: &str) -> Result<String, Fail> {
        let mut told = String::new(alloc);
        push_reads(alloc, &mut told, row.trim_end().as_bytes())?;
        Ok(told)
    }
}

fn push_reads(alloc: Global, told: &mut String, bytes: &[u8]) -> Result<(), Fail> {
    let mut source = StdSource::make(bytes);
    push_read(told, &mut source, &mut [0u8; 4])?;
    let rest = read_whole(alloc, &mut source, 10)?;
    push_bytes(told, ": ", rest.as_slice())
}

/// Tells what writes and flushes give over a list, and then all that was written to it.
#[derive(Clone, Copy)]
struct Writes;

impl Teller for Writes {
    fn told(&self, alloc: Global, row: &str) -> Result<String, Fail> {
        let mut told = String::new(alloc);
        push_writes(alloc, &mut told, row.trim_end())?;
        Ok(told)
    }
}

fn push_writes(alloc: Global, told: &mut String, pieces: &str) -> Result<(), Fail> {
    let mut written = Vec::new(alloc);
    push_calls_over(told, &mut written, pieces)?;
    push_bytes(told, ": ", written.as_slice())
}

/// What is not flushed is not written.
const WRITES: &str = "\
/all hello/flush => 0, all, flushed: hello
hello/flush/ world/ and more => 5, flushed, 6, 9: hello";

/// Tells what writes and flushes give over room for three bytes. A full writer takes none of a piece, which is a
/// failure.
#[derive(Clone, Copy)]
struct FullWrites;

impl Teller for FullWrites {
    fn told(&self, alloc: Global, row: &str) -> Result<String, Fail> {
        let mut room = [0u8; 3];
        let mut told = String::new(alloc);
        push_calls_over(&mut told, room.as_mut_slice(), row.trim_end())?;
        Ok(told)
    }
}

const FULL_WRITES: &str = "\
hel/flush/lo/flush => 3, flushed, 2, failed
hello/flush/lo/flush => 5, failed, 2, failed";

/// A reader and writer of std that is interrupted so many times, and then gives, takes and flushes one byte; or fails.
#[derive(Drop)]
struct Interrupted {
    left: u32,
    fails: bool,
}

impl Interrupted {
    /// One call.
    fn call(&mut self) -> io::Result<usize>
        ensures { IfOk result (λ n. n ≡ 1) }
    {
        if self.left > 0 {
            self.left -= 1;
            return Err(io::Error::from(ErrorKind::Interrupted));
        }
        if self.fails {
            return Err(io::Error::from(ErrorKind::Other));
        }
        Ok(1)
    }
}

impl Read for Interrupted {
    fn read(&mut self, buffer: &mut [u8]) -> io::Result<usize> {
        let count = self.call()?;
        Ok(count.min(buffer.len()))
    }
}

impl Write for Interrupted {
    fn write(&mut self, piece: &[u8]) -> io::Result<usize> {
        let count = self.call()?;
        Ok(count.min(piece.len()))
    }

    fn flush(&mut self) -> io::Result<()> {
        self.call()?;
        Ok(())
    }
}

/// Tells what a read, a write with its flush, and a flush give where the first call is interrupted so many times, and
/// then each goes well or `fails`.
#[derive(Clone, Copy)]
struct ThreeCalls;

impl Teller for ThreeCalls {
    fn told(&self, alloc: Global, row: &str) -> Result<String, Fail> {
        let left: u32 = word(row, 0).parse()?;
        let fails = word(row, 1).starts_with("fails");
        let read = done_or_failed(is_read(left, fails), "read");
        let written = done_or_failed(is_written(left, fails), "written");
        let flushed = done_or_failed(is_flushed(left, fails), "flushed");
        Ok(format!(in alloc; "{read}, {written}, {flushed}")?)
    }
}

fn done_or_failed(is_done: bool, done: &str) -> &str {
    if is_done { done } else { "failed" }
}

fn is_read(left: u32, fails: bool) -> bool {
    let mut source = StdSource::make(Interrupted { left, fails });
    let mut buffer = [0u8; 4];
    source.read(&mut buffer) == Ok(1)
}

fn is_written(left: u32, fails: bool) -> bool {
    let mut sink = StdSink::make(Interrupted { left, fails });
    sink.write(b"hello") == Ok(5) && sink.flush() == Ok(())
}

fn is_flushed(left: u32, fails: bool) -> bool {
    let mut sink = StdSink::make(Interrupted { left, fails });
    sink.flush() == Ok(())
}

/// A call is made a thousand times at most.
const INTERRUPTIONS: &str = "\
0 well => read, written, flushed
1 well => read, written, flushed
999 well => read, written, flushed
1000 well => failed, failed, failed
0 fails => failed, failed, failed
5 fails => failed, failed, failed";
