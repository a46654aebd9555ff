//! What a sink over std gathers, and when it is written.

use super::push_end;
use outside_io::{Sink, StdSink, write_whole};
use pages_cases::pages::{Teller, hold_lines};
use pages_cases::words::part;
use std::alloc::Global;
use std::io;
use std::io::{ErrorKind, Write};
use std::test::Fail;

#[test]
fn bytes_are_gathered_and_written_in_order(rt: HostRuntime) -> Result<(), Fail> {
    hold_lines(rt.alloc(), &Gathers, "", GATHERED)
}

/// The most calls that a case makes of the writer.
const MOST_CALLS: usize = 16;

/// The longest piece of a case.
const LONGEST: usize = 20_000;

/// Bytes whose order is seen go up by one, and begin anew behind this one.
const LAST_BYTE: u8 = 250;

/// A writer of std that takes so many bytes at most a write, fails in one of its calls, and notes how many bytes it was
/// offered in each; a flush is a call that is offered none.
#[derive(Drop)]
struct Watched {
    step: usize,
    failing: usize,
    calls: usize,
    offered: [usize; MOST_CALLS],
    next: u8,
    is_in_order: bool,
}

impl Watched {
    /// One call.
    fn call(&mut self, offered: usize) -> io::Result<()> {
        let call = self.calls;
        self.calls = call.saturating_add(1);
        if call < MOST_CALLS {
            self.offered[call] = offered;
        }
        if call == self.failing {
            return Err(io::Error::from(ErrorKind::Other));
        }
        Ok(())
    }

    /// Sees whether these bytes go on where the bytes before them ended.
    fn look(&mut self, bytes: &[u8]) {
        for byte in bytes {
            self.is_in_order = self.is_in_order && *byte == self.next;
            self.next = after(self.next);
        }
    }
}

fn after(byte: u8) -> u8 {
    if byte < LAST_BYTE { byte + 1 } else { 0 }
}

impl Write for Watched {
    fn write(&mut self, piece: &[u8]) -> io::Result<usize> {
        self.call(piece.len())?;
        let count = self.step.min(piece.len());
        self.look(&piece[..count]);
        Ok(count)
    }

    fn flush(&mut self) -> io::Result<()> {
        self.call(0)
    }
}

/// Tells what whole writes of so many bytes and flushes give, and what the writer behind was offered in each call, of
/// `STEP | FAILING CALL | CALLS`.
#[derive(Clone, Copy)]
struct Gathers;

impl Teller for Gathers {
    fn told(&self, alloc: Global, row: &str) -> Result<String, Fail> {
        let row = row.trim_end();
        let mut writer = Watched {
            step: part(row, 0).parse()?,
            failing: part(row, 1).parse()?,
            calls: 0,
            offered: [0; MOST_CALLS],
            next: 0,
            is_in_order: true,
        };
        let mut told = String::new(alloc);
        push_answers(alloc, &mut told, &mut writer, part(row, 2))?;
        push_offers(&mut told, &writer)?;
        Ok(told)
    }
}

/// Appends what a sink over the writer answers.
fn push_answers(
    alloc: Global,
    told: &mut String,
    writer: &mut Watched,
    calls: &str,
) -> Result<(), Fail> {
    let mut sink = StdSink::make(writer);
    let mut taken = 0;
    for call in calls.split(' ') {
        taken = push_answer(alloc, told, &mut sink, call, taken)?;
    }
    Ok(())
}

/// Appends what a sink answers to a call, and gives the byte that it is to take next.
fn push_answer<S: Sink>(
    alloc: Global,
    told: &mut String,
    sink: &mut S,
    call: &str,
    next: u8,
) -> Result<u8, Fail> {
    if call == "flush" {
        push_end(told, "flushed", sink.flush())?;
        return Ok(next);
    }
    let piece = piece(alloc, call.parse()?, next)?;
    let end = write_whole(sink, piece.as_slice());
    let after = if end == Ok(()) {
        behind(piece.as_slice(), next)
    } else {
        next
    };
    push_end(told, "all", end)?;
    Ok(after)
}

/// So many bytes from this one on.
fn piece(alloc: Global, count: usize, first: u8) -> Result<Vec<u8>, Fail> {
    let mut bytes = Vec::new(alloc);
    let mut next = first;
    for _ in 0..count.min(LONGEST) {
        bytes.push(next)?;
        next = after(next);
    }
    Ok(bytes)
}

/// The byte behind a piece, or the first one where it has none.
fn behind(piece: &[u8], first: u8) -> u8 {
    match piece.last() {
        Some(last) => after(*last),
        None => first,
    }
}

/// Appends how many bytes a writer was offered in each call.
fn push_offers(told: &mut String, writer: &Watched) -> Result<(), Fail> {
    told.push_str(if writer.is_in_order {
        " in order:"
    } else {
        " out of order:"
    })?;
    for offered in &writer.offered[..writer.calls.min(MOST_CALLS)] {
        write!(told, " {offered}")?;
    }
    Ok(())
}

/// Short pieces and long ones; a writer that takes a part; a write that fails, first and after a part, and what is
/// written then; a flush that fails, and one whose write fails.
const GATHERED: &str = "\
9999 | 99 | 100 100 flush => all, all, flushed in order: 200 0
9999 | 99 | 8191 1 1 flush => all, all, all, flushed in order: 8192 1 0
9999 | 99 | 20000 flush => all, flushed in order: 8192 8192 3616 0
9999 | 99 | 0 flush flush => all, flushed, flushed in order: 0 0
5000 | 99 | 8192 1 flush => all, all, flushed in order: 8192 3192 1 0
9999 | 0 | 8192 1 1 flush => all, failed, all, flushed in order: 8192 8192 1 0
5000 | 1 | 8192 1 1 flush => all, failed, all, flushed in order: 8192 3192 3193 0
9999 | 1 | 5 flush flush => all, failed, flushed in order: 5 0 0
9999 | 0 | 5 flush flush => all, failed, flushed in order: 5 5 0
0 | 99 | 5 flush => all, failed in order: 5";
