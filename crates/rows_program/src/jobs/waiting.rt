//! A run by words, whose loop waits in a live run until its session has asked.

ghost use Rattle.std.specs.Prelude.{◌<◌, ◌^◌, length};
ghost use Rattle.std.specs.List.{All};
ghost use Rattle.cm_model.specs.Controllers.{IsBlank};

use cm_stock::Stock;
use cm_top::{Status, run};
use ctl_trait::Controller;
use outside_io::{Gate, MemSink, MemSource, Pace, Point};
use pages_cases::pages::joined;
use pages_runs::runs::{OF_PROGRAM, ample_sink, in_words};
use std::alloc::Global;
use std::sync::Wait;
use std::sync::atomic::AtomicBool;
use std::sync::atomic::Ordering::SeqCst;
use std::test::Fail;
use std::thread::Threads;
use std::{str, thread};

/// So many turns the loop waits at most, each of which yields the thread.
const MOST_TURNS: u32 = 1_000_000;

/// Whether the first session has its answer to this line.
#[derive(Drop)]
struct Asked {
    line: u32,
    is_answered: AtomicBool,
}

impl Gate for Asked {
    fn at(&self, point: Point) {
        let asked = Point::Answered {
            session: 0,
            line: self.line,
        };
        if point == asked {
            self.is_answered.store(true, SeqCst);
        }
    }
}

/// A pace that waits until it has.
#[derive(Drop)]
struct UntilAsked<'a> {
    asked: &'a Asked,
}

impl Pace for UntilAsked<'_> {
    fn pause(&mut self, _cycle: u64) {
        for _ in 0..MOST_TURNS {
            if self.asked.is_answered.load(SeqCst) {
                return;
            }
            thread::yield_now();
        }
    }
}

/// How a run of a document ends by words, between which a bar stands, over a stock of these blanks, and what it prints.
/// The loop of a live run waits behind each cycle until the first session has its answer to this line.
pub(crate) fn ran<R: Threads + Wait + Sync, C: Controller + Send>(
    rt: &R,
    alloc: Global,
    words: &str,
    document: &str,
    line: u32,
    blanks: Vec<C>,
) -> Result<String, Fail>
    requires blank { All (λ c. IsBlank (C.meaning c)) blanks.items }
    requires few { length blanks.items < 2 ^ 32 }
{
    let mut source = OF_PROGRAM.source(alloc, document)?;
    let mut sink = ample_sink(alloc)?;
    let words = split(alloc, words)?;
    let words = words.as_slice();
    let status = run_waiting(rt, alloc, words, &mut source, &mut sink, line, blanks);
    told(alloc, status, sink.bytes())
}

/// How the run ends.
fn run_waiting<R: Threads + Wait + Sync, C: Controller + Send>(
    rt: &R,
    alloc: Global,
    words: &[String],
    source: &mut MemSource,
    sink: &mut MemSink,
    line: u32,
    blanks: Vec<C>,
) -> Status
    requires blank { All (λ c. IsBlank (C.meaning c)) blanks.items }
    requires few { length blanks.items < 2 ^ 32 }
{
    let asked = Asked {
        line,
        is_answered: AtomicBool::new(false),
    };
    let mut pace = UntilAsked { asked: &asked };
    let stock = Stock::make(blanks);
    let (status, _) = run(rt, alloc, words, source, sink, stock, &mut pace, &asked);
    status
}

/// A status, and below it what was printed, without the end of the last line.
pub(crate) fn told(alloc: Global, status: Status, printed: &[u8]) -> Result<String, Fail> {
    let ended = in_words(alloc, status)?;
    let told = joined(alloc, ended.as_str(), "\n")?;
    let told = joined(alloc, told.as_str(), str::from_utf8(printed)?)?;
    Ok(String::from_str(alloc, told.trim_end())?)
}

/// The words of a row.
fn split(alloc: Global, given: &str) -> Result<Vec<String>, Fail> {
    let mut words = Vec::new(alloc);
    for word in given.split('|') {
        words.push(String::from_str(alloc, word)?)?;
    }
    Ok(words)
}
