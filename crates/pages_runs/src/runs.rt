//! Whole runs between a source and a sink in memory: how each ends, what is printed, and what is left.

ghost use Rattle.std.specs.Prelude.{◌≢◌, ◌<◌, ◌^◌, length};
ghost use Rattle.std.specs.List.{All};
ghost use Rattle.cm_model.specs.Controllers.{IsBlank};

use cm_desk::Book;
use cm_stock::Stock;
use cm_top::{Status, run_alone};
use cm_words::{Job, JobKind};
use ctl_trait::Controller;
use outside_io::{MemSink, MemSource, Sink};
use pages_calls::stocks::few_blanks;
use pages_cases::pages::{Teller, joined};
use std::alloc::Global;
use std::str;
use std::test::Fail;

/// More bytes than any trace of a test has.
pub const AMPLE: usize = 16 * 1_048_576;

/// How many blanks of each kind the program has in stock.
pub const IN_STOCK: u32 = 32;

/// Tells how the run of a document that is read ends by a job, and what it prints, behind one another. The source gives
/// so many bytes a read, and the stock has so many blanks of each kind.
#[derive(Clone, Copy)]
pub struct Runs {
    pub kind: JobKind,
    pub step: usize,
    pub in_stock: u32,
}

/// The job `run` with the program's stock.
pub const OF_PROGRAM: Runs = Runs {
    kind: JobKind::Run,
    step: 1000,
    in_stock: IN_STOCK,
};

/// The job `steps` with the program's stock.
pub const BY_TURNS: Runs = Runs {
    kind: JobKind::Steps,
    step: 1000,
    in_stock: IN_STOCK,
};

impl Teller for Runs {
    fn told(&self, alloc: Global, text: &str) -> Result<String, Fail> {
        let mut sink = ample_sink(alloc)?;
        let ended = self.ended(alloc, text, &mut sink)?;
        printed(alloc, ended.as_str(), sink.bytes())
    }
}

impl Runs {
    /// How the run of a document ends that prints into this sink, in words.
    pub fn ended<K: Sink>(&self, alloc: Global, text: &str, sink: &mut K) -> Result<String, Fail> {
        let status = self.run_into(alloc, text, sink)?;
        in_words(alloc, status)
    }

    /// How the run of a document ends that prints into this sink.
    pub fn run_into<K: Sink>(
        &self,
        alloc: Global,
        text: &str,
        sink: &mut K,
    ) -> Result<Status, Fail> {
        if self.kind == JobKind::Live {
            return Err(Fail::new("a live run"));
        }
        let mut source = self.source(alloc, text)?;
        let blanks = few_blanks(alloc, self.in_stock)?;
        let (status, book) = run_by(self.kind, alloc, &mut source, sink, blanks);
        drop(book);
        Ok(status)
    }

    /// The source that gives a document.
    pub fn source(&self, alloc: Global, text: &str) -> Result<MemSource, Fail> {
        if self.step == 0 {
            return Err(Fail::new("a step of none"));
        }
        let bytes = text.as_bytes().to_vec(alloc)?;
        Ok(MemSource::make(bytes, self.step, vec![in alloc]?))
    }
}

/// How the job `run` over a stock of these blanks ends, and what it leaves.
pub fn run_over<C: Controller, K: Sink>(
    alloc: Global,
    source: &mut MemSource,
    sink: &mut K,
    blanks: Vec<C>,
) -> (Status, Option<Book<C>>)
    requires blank { All (λ c. IsBlank (C.meaning c)) blanks.items }
    requires few { length blanks.items < 2 ^ 32 }
{
    run_by(JobKind::Run, alloc, source, sink, blanks)
}

/// How a job that reads its document and is not live ends over a stock of these blanks, and what it leaves.
pub fn run_by<C: Controller, K: Sink>(
    kind: JobKind,
    alloc: Global,
    source: &mut MemSource,
    sink: &mut K,
    blanks: Vec<C>,
) -> (Status, Option<Book<C>>)
    requires alone { kind ≢ JobKind.Live }
    requires blank { All (λ c. IsBlank (C.meaning c)) blanks.items }
    requires few { length blanks.items < 2 ^ 32 }
{
    let job = Job {
        kind,
        make: None,
        workers: 1,
    };
    run_alone(alloc, &job, source, sink, Stock::make(blanks))
}

/// A sink with room for any trace of a test, which takes each piece whole.
pub fn ample_sink(alloc: Global) -> Result<MemSink, Fail> {
    Ok(MemSink::make(alloc, AMPLE, AMPLE, vec![in alloc]?)?)
}

/// How a run ended, in words. A status has many parts, and is dropped at this one place.
pub fn in_words(alloc: Global, status: Status) -> Result<String, Fail> {
    let told = format!(in alloc; "{status}");
    drop(status);
    Ok(told?)
}

/// How a run ends, and what it printed.
fn printed(alloc: Global, ended: &str, bytes: &[u8]) -> Result<String, Fail> {
    let told = joined(alloc, ended, "\n")?;
    let told = joined(alloc, told.as_str(), str::from_utf8(bytes)?)?;
    without_end(alloc, told.as_str())
}

/// A text without the end of its last line.
pub fn without_end(alloc: Global, told: &str) -> Result<String, Fail> {
    match told.strip_suffix("\n") {
        Some(lines) => Ok(String::from_str(alloc, lines)?),
        None => joined(alloc, told, ", without an end"),
    }
}

/// Runs with the program's stock, whose source gives so many bytes a read.
pub fn in_steps_of(step: usize) -> Runs {
    Runs {
        kind: JobKind::Run,
        step,
        in_stock: IN_STOCK,
    }
}
