//! Sources and sinks over a reader or a writer of std that answers each call as it is told to: what is made of an end
//! and of each fault, and how many calls there are.

use super::{push_answer, push_calls_over, push_whole};
use outside_io::{Source, StdSource, read_whole};
use pages_cases::pages::{Teller, hold_lines};
use pages_cases::words::part;
use std::alloc::Global;
use std::io;
use std::io::{ErrorKind, Read, Write};
use std::test::Fail;

#[test]
fn each_answer_of_the_system_is_passed_on(rt: HostRuntime) -> Result<(), Fail> {
    let alloc = rt.alloc();
    hold_lines(alloc, &Reads, "", READS)?;
    hold_lines(alloc, &Writes, "", WRITES)
}

/// A reader and writer of std whose calls are answered by these words, one a call: a number gives, takes or flushes so
/// many bytes, and each other word is a fault. There are no calls behind the last word: they fail.
#[derive(Drop)]
struct Answering<'a> {
    words: &'a str,
    calls: usize,
}

impl Answering<'_> {
    /// One call.
    fn call(&mut self) -> io::Result<usize> {
        let word = self.words.split(' ').nth(self.calls).unwrap_or("none");
        self.calls = self.calls.saturating_add(1);
        match word.parse() {
            Ok(count) => Ok(count),
            Err(_) => Err(io::Error::from(kind_of(word))),
        }
    }
}

fn kind_of(word: &str) -> ErrorKind {
    match word {
        "interrupted" => ErrorKind::Interrupted,
        "blocks" => ErrorKind::WouldBlock,
        "late" => ErrorKind::TimedOut,
        "broken" => ErrorKind::BrokenPipe,
        "cut" => ErrorKind::UnexpectedEof,
        "full" => ErrorKind::StorageFull,
        _ => ErrorKind::Other,
    }
}

impl Read for Answering<'_> {
    fn read(&mut self, buffer: &mut [u8]) -> io::Result<usize> {
        let count = self.call()?.min(buffer.len());
        buffer[..count].fill(b'x');
        Ok(count)
    }
}

impl Write for Answering<'_> {
    fn write(&mut self, piece: &[u8]) -> io::Result<usize> {
        Ok(self.call()?.min(piece.len()))
    }

    fn flush(&mut self) -> io::Result<()> {
        self.call()?;
        Ok(())
    }
}

/// Tells what reads of eight bytes give, and a whole read of twenty at most, of `READS | ANSWERS`; and then how many
/// calls were made of the reader.
#[derive(Clone, Copy)]
struct Reads;

impl Teller for Reads {
    fn told(&self, alloc: Global, row: &str) -> Result<String, Fail> {
        let row = row.trim_end();
        let mut reader = Answering {
            words: part(row, 1),
            calls: 0,
        };
        let mut told = String::new(alloc);
        push_reads(alloc, &mut told, &mut reader, part(row, 0))?;
        push_calls_made(&mut told, reader.calls)?;
        Ok(told)
    }
}

fn push_reads(
    alloc: Global,
    told: &mut String,
    reader: &mut Answering<'_>,
    reads: &str,
) -> Result<(), Fail> {
    let mut source = StdSource::make(reader);
    for read in reads.split(' ') {
        push_given(alloc, told, &mut source, read)?;
    }
    Ok(())
}

/// Appends what a whole read gives, or one of eight bytes.
fn push_given<S: Source>(
    alloc: Global,
    told: &mut String,
    source: &mut S,
    read: &str,
) -> Result<(), Fail> {
    if read == "whole" {
        return push_whole(told, read_whole(alloc, source, 20));
    }
    push_answer(told, source.read(&mut [0u8; 8]))
}

fn push_calls_made(told: &mut String, calls: usize) -> Result<(), Fail> {
    write!(told, "; {calls}")?;
    Ok(())
}

/// Tells what writes and flushes give, of `PIECES | ANSWERS`, between which strokes stand; and then how many calls were
/// made of the writer.
#[derive(Clone, Copy)]
struct Writes;

impl Teller for Writes {
    fn told(&self, alloc: Global, row: &str) -> Result<String, Fail> {
        let row = row.trim_end();
        let mut writer = Answering {
            words: part(row, 1),
            calls: 0,
        };
        let mut told = String::new(alloc);
        push_calls_over(&mut told, &mut writer, part(row, 0))?;
        push_calls_made(&mut told, writer.calls)?;
        Ok(told)
    }
}

/// An end is one where it is told first, and is read once, before any byte and behind some; no fault but an
/// interruption is tried again.
const READS: &str = "\
read | 0 => 0; 1
read read | 5 0 => 5, 0; 2
whole | 0 => ; 1
whole | 5 0 => xxxxx; 2
whole | 8 8 0 => xxxxxxxxxxxxxxxx; 3
read | 0 5 => 0; 1
read | blocks 5 => failed; 1
read | late 5 => failed; 1
read | broken 5 => failed; 1
read | cut 5 => failed; 1
read | other 5 => failed; 1
read | interrupted 5 => 5; 2
read | interrupted 0 5 => 0; 2
read | interrupted blocks 5 => failed; 2
read read | blocks 5 => failed, 5; 2
whole | 5 blocks 5 0 => a read failed; 2
whole | 5 interrupted 5 0 => xxxxxxxxxx; 4";

/// A flush is passed on, whether anything was taken before it or not; no fault but an interruption is tried again.
const WRITES: &str = "\
flush | 0 => flushed; 1
flush/flush | 0 0 => flushed, flushed; 2
hello | 5 => 5; 0
hello/flush | 5 0 => 5, flushed; 2
hello/flush | 3 2 0 => 5, flushed; 3
hello/flush | 5 blocks 0 => 5, failed; 2
hello/flush/flush | 5 blocks 0 => 5, failed, flushed; 3
hello/flush/flush | blocks 5 0 => 5, failed, flushed; 3
hello/flush | late 5 0 => 5, failed; 1
hello/flush | broken 5 0 => 5, failed; 1
hello/flush | full 5 0 => 5, failed; 1
hello/flush | 0 5 0 => 5, failed; 1
flush | blocks 0 => failed; 1
flush | full 0 => failed; 1
flush | interrupted 0 => flushed; 2
flush | interrupted blocks 0 => failed; 2
hello/flush | interrupted 5 interrupted 0 => 5, flushed; 4";
