//! The edge to the world: sources and sinks in memory and over std, call after call.

mod answers;
mod gathered;
mod std_edge;

use outside_io::{
    Failed, MemSink, MemSource, ReadFault, Sink, Source, StdSink, read_whole, write_whole,
};
use pages_cases::pages::{Teller, halves, hold_lines, push_parted};
use pages_cases::words::part;
use std::alloc::Global;
use std::io::Write;
use std::str;
use std::test::Fail;

/// The numbers between single spaces; of an empty text none.
fn numbers(alloc: Global, text: &str) -> Result<Vec<u64>, Fail> {
    let mut numbers = Vec::new(alloc);
    for word in text.split_whitespace() {
        numbers.push(number_of(word)?)?;
    }
    Ok(numbers)
}

fn number_of(word: &str) -> Result<u64, Fail> {
    Ok(word.parse()?)
}

/// A source in memory, of `STEP | FAILING READS | BYTES`.
fn source_of(alloc: Global, row: &str) -> Result<MemSource, Fail> {
    let step: usize = part(row, 0).parse()?;
    if step == 0 {
        return Err(Fail::new("a step of none"));
    }
    let bytes = part(row, 2).as_bytes().to_vec(alloc)?;
    let fails = numbers(alloc, part(row, 1))?;
    Ok(MemSource::make(bytes, step, fails))
}

/// A sink in memory, of `ROOM | STEP | FAILING CALLS`.
fn sink_of(alloc: Global, row: &str) -> Result<MemSink, Fail> {
    let room = part(row, 0).parse()?;
    let step: usize = part(row, 1).parse()?;
    if step == 0 {
        return Err(Fail::new("a step of none"));
    }
    Ok(MemSink::make(alloc, room, step, numbers(alloc, part(row, 2))?)?)
}

/// Tells what five reads of four bytes give of a source in memory, each with all of the buffer, in which dots stand
/// before the first.
#[derive(Clone, Copy)]
struct FiveReads;

impl Teller for FiveReads {
    fn told(&self, alloc: Global, row: &str) -> Result<String, Fail> {
        let mut source = source_of(alloc, row.trim_end())?;
        let mut buffer = [b'.'; 4];
        let mut answers = String::new(alloc);
        for _ in 0..5 {
            push_read(&mut answers, &mut source, &mut buffer)?;
        }
        Ok(answers)
    }
}

fn push_read<S: Source>(
    answers: &mut String,
    source: &mut S,
    buffer: &mut [u8],
) -> Result<(), Fail> {
    push_answer(answers, source.read(buffer))?;
    push_bytes(answers, " ", buffer)
}

/// Appends how many bytes were taken, or that the call failed.
fn push_answer(answers: &mut String, answer: Result<usize, Failed>) -> Result<(), Fail> {
    match answer {
        Ok(count) => push_count(answers, count),
        Err(Failed) => push_parted(answers, ", ", "failed"),
    }
}

fn push_bytes(answers: &mut String, sign: &str, bytes: &[u8]) -> Result<(), Fail> {
    push_parted(answers, sign, str::from_utf8(bytes)?)
}

fn push_count(answers: &mut String, count: usize) -> Result<(), Fail> {
    push_parted(answers, ", ", "")?;
    Ok(write!(answers, "{count}")?)
}

/// Tells what writes and flushes give of a sink in memory, `ROOM | STEP | FAILING CALLS | PIECES`; and then all that it
/// took.
#[derive(Clone, Copy)]
struct Writes;

impl Teller for Writes {
    fn told(&self, alloc: Global, row: &str) -> Result<String, Fail> {
        let mut answers = String::new(alloc);
        push_writes(alloc, &mut answers, row.trim_end())?;
        Ok(answers)
    }
}

fn push_writes(alloc: Global, answers: &mut String, row: &str) -> Result<(), Fail> {
    let mut sink = sink_of(alloc, row)?;
    push_calls(answers, &mut sink, part(row, 3))?;
    push_bytes(answers, ": ", sink.bytes())
}

/// Appends what a sink over a writer of std answers to pieces, between which strokes stand.
fn push_calls_over<W: Write + Drop>(
    answers: &mut String,
    writer: W,
    pieces: &str,
) -> Result<(), Fail> {
    let mut sink = StdSink::make(writer);
    push_calls(answers, &mut sink, pieces)
}

/// Appends what a sink answers to pieces, between which strokes stand.
fn push_calls<S: Sink>(answers: &mut String, sink: &mut S, pieces: &str) -> Result<(), Fail> {
    for piece in pieces.split('/') {
        push_call(answers, sink, piece)?;
    }
    Ok(())
}

/// Appends what a sink answers to a piece; or to `flush`; or to `all ` and a piece, of which all is to be written.
fn push_call<S: Sink>(answers: &mut String, sink: &mut S, piece: &str) -> Result<(), Fail> {
    if piece == "flush" {
        return push_end(answers, "flushed", sink.flush());
    }
    if let Some(piece) = piece.strip_prefix("all ") {
        return push_end(answers, "all", write_whole(sink, piece.as_bytes()));
    }
    push_answer(answers, sink.write(piece.as_bytes()))
}

/// Appends a word where all went well.
fn push_end(answers: &mut String, word: &str, end: Result<(), Failed>) -> Result<(), Fail> {
    match end {
        Ok(()) => push_parted(answers, ", ", word),
        Err(Failed) => push_parted(answers, ", ", "failed"),
    }
}

/// Tells what a whole read gives of a source in memory, `LIMIT | STEP | FAILING READS | BYTES`.
#[derive(Clone, Copy)]
struct WholeRead;

impl Teller for WholeRead {
    fn told(&self, alloc: Global, row: &str) -> Result<String, Fail> {
        let mut told = String::new(alloc);
        push_whole_read(alloc, &mut told, row.trim_end())?;
        Ok(told)
    }
}

fn push_whole_read(alloc: Global, told: &mut String, row: &str) -> Result<(), Fail> {
    let (limit, source) = halves(row, " | ")?;
    let limit: u32 = limit.parse()?;
    let mut source = source_of(alloc, source)?;
    push_whole(told, read_whole(alloc, &mut source, limit as usize))
}

/// Appends what a whole read gave.
fn push_whole(told: &mut String, read: Result<Vec<u8>, ReadFault>) -> Result<(), Fail> {
    match read {
        Ok(bytes) => push_bytes(told, ", ", bytes.as_slice()),
        Err(fault) => push_fault(told, fault),
    }
}

fn push_fault(told: &mut String, fault: ReadFault) -> Result<(), Fail> {
    push_parted(told, ", ", "")?;
    Ok(write!(told, "{fault}")?)
}

#[test]
fn sources_and_sinks_in_memory(rt: HostRuntime) -> Result<(), Fail> {
    let alloc = rt.alloc();
    hold_lines(alloc, &FiveReads, "", READS)?;
    hold_lines(alloc, &Writes, "", WRITES)?;
    hold_lines(alloc, &WholeRead, "", WHOLE_READS)
}

/// Bytes in steps, and reads that fail.
const READS: &str = "\
1 | 1 | abc => 1 a..., failed a..., 1 b..., 1 c..., 0 c...
7 | 0 | abcdef => failed ...., 4 abcd, 2 efcd, 0 efcd, 0 efcd
3 | 1 2 3 4 | abcdef => 3 abc., failed abc., failed abc., failed abc., failed abc.";

/// Pieces that go in whole or in part, calls that fail, and too little room.
const WRITES: &str = "\
15 | 10 | 1 3 | hello, wood/d/d/flush/flush/ again/in/ => 10, failed, 1, failed, flushed, 4, failed, 0: hello, wood aga
0 | 10 |  | x/all x/all /flush => failed, failed, all, flushed:\x20
100 | 10 | 3 | all hello, world/all  and good morning => all, failed: hello, world and good\x20";

/// Limits met and passed, and reads that fail, the one behind the end among them: no read follows that one.
const WHOLE_READS: &str = "\
5 | 2 |  | abcde => abcde
5 | 8192 | 9 | abcde => abcde
5 | 8192 | 2 | abcde => abcde
9 | 5 | 2 | abcde => abcde
5 | 1 | 6 | abcde => abcde
4 | 2 |  | abcde => there are too many bytes
0 | 2 |  | abcde => there are too many bytes
5 | 2 | 1 | abcde => a read failed
5 | 2 | 3 | abcde => a read failed";
