//! The run of an accepted document, by one thread, by several workers or live: its job is made, its trace or summary
//! written, and its book handed out.

ghost use Rattle.std.specs.Prelude.{◌≡◌, ◌≢◌, ◌⊎◌, option_map, true, Err, None, OnErr, OnOk, Some};
ghost use Rattle.std.specs.Io.KnownBytes.{Appends, Keeps};
ghost use Rattle.outside_io.specs.Bytes.{AllFlushed, AppendsPrefix};
ghost use Rattle.outside_io.specs.Faults.{IsToldAs};
ghost use Rattle.cm_desk.specs.Desk.{now_of};
ghost use Rattle.cm_document.specs.ScriptLaws.{MeetsRules};
ghost use Rattle.cm_document.specs.declared.document.Document.{Document};
ghost use Rattle.cm_words.specs.declared.job.Job.{Job};
ghost use Rattle.cm_words.specs.declared.job.JobKind.TheVariants as kind;
ghost use Rattle.desk_jobs.specs.Book.{RunsAlone, book_facts, book_of};
ghost use Rattle.cm_top.specs.Tasks.{task_of, text_by};
ghost use Rattle.cm_top.specs.Calls.Run.{sink_facts, MindsSink};
ghost use Rattle.cm_top.specs.Status.{RanDocument, Wrote};

use crate::status::Status;
use cm_desk::{Book, Desk};
use cm_document::{Document, Script};
use cm_stock::Stock;
use ctl_trait::Controller;
use desk_jobs::{desk_of_job, desk_of_job_by, desk_of_live_run};
use fixed_num::Memory;
use outside_io::{Gate, Pace, Sink};
use std::alloc::Global;
use std::sync::Wait;
use std::thread::Threads;
use summary_text::write_summary;
use trace_text::{OutFault, write_trace};

/// Runs an accepted document by the job `run` or `steps` on one thread, writes its trace or its summary, and hands out
/// its book.
pub fn run_document<K: Sink, C: Controller>(
    alloc: Global,
    asked: cm_words::Job,
    document: Document,
    sink: &mut K,
    stock: Stock<C>,
) -> (Status, Option<Book<C>>)
    requires runs { RunsAlone asked.kind }
    requires rules { MeetsRules document.script }
    ensures ran { RanDocument (task_of asked stock) document stock
        (record { old = K.taken sink.old; new = K.taken sink.new; flushed = K.flushed sink.new })
        result.0 (option_map (book_facts C.meaning) result.1) }
    ensures outside { MindsSink (sink_facts K.taken K.flushed K.faults sink.old)
        (sink_facts K.taken K.flushed K.faults sink.new) result.0 }
{
    let Document {
        description,
        script,
    } = document;
    match desk_of_job(alloc, asked.kind, description, &script, stock) {
        Ok(desk) => write_out(alloc, sink, asked.make, desk, &script),
        Err(Memory) => (Status::Memory, None),
    }
}

/// The same, where as many workers as the job has share each cycle.
pub(crate) fn run_document_by<R, K, C>(
    rt: &R,
    alloc: Global,
    asked: cm_words::Job,
    document: Document,
    sink: &mut K,
    stock: Stock<C>,
) -> (Status, Option<Book<C>>)
where
    R: Threads + Sync,
    K: Sink,
    C: Controller + Send,
    requires runs { RunsAlone asked.kind }
    requires rules { MeetsRules document.script }
    ensures ran { RanDocument (task_of asked stock) document stock
        (record { old = K.taken sink.old; new = K.taken sink.new; flushed = K.flushed sink.new })
        result.0 (option_map (book_facts C.meaning) result.1) }
    ensures outside { MindsSink (sink_facts K.taken K.flushed K.faults sink.old)
        (sink_facts K.taken K.flushed K.faults sink.new) result.0 }
{
    let Document {
        description,
        script,
    } = document;
    match desk_of_job_by(rt, alloc, asked, description, &script, stock) {
        Ok(desk) => write_out(alloc, sink, asked.make, desk, &script),
        Err(Memory) => (Status::Memory, None),
    }
}

/// Runs an accepted document live, writes its trace, or of a made document the summary, and hands out its book.
pub(crate) fn run_document_live<R, K, P, G, C>(
    rt: &R,
    alloc: Global,
    make: Option<u32>,
    workers: u32,
    document: Document,
    sink: &mut K,
    stock: Stock<C>,
    pace: &mut P,
    gate: &G,
) -> (Status, Option<Book<C>>)
where
    R: Threads + Wait + Sync,
    K: Sink,
    P: Pace + Send,
    G: Gate,
    C: Controller + Send,
    requires rules { MeetsRules document.script }
    ensures ran { RanDocument (task_of (record { kind = kind.Live; make = make; workers = workers }) stock) document
        stock (record { old = K.taken sink.old; new = K.taken sink.new; flushed = K.flushed sink.new })
        result.0 (option_map (book_facts C.meaning) result.1) }
    ensures outside { MindsSink (sink_facts K.taken K.flushed K.faults sink.old)
        (sink_facts K.taken K.flushed K.faults sink.new) result.0 }
{
    let Document {
        description,
        script,
    } = document;
    match desk_of_live_run(rt, alloc, workers, description, &script, stock, pace, gate) {
        Ok(desk) => write_out(alloc, sink, make, desk, &script),
        Err(Memory) => (Status::Memory, None),
    }
}

/// Writes the trace of a desk whose loop is closed, or of a made document the summary, and hands out the book.
pub fn write_out<K: Sink, C: Controller>(
    alloc: Global,
    sink: &mut K,
    make: Option<u32>,
    desk: Desk<C>,
    script: &Script,
) -> (Status, Option<Book<C>>)
    requires closed { (now_of desk).closed ≡ true }
    ensures wrote { Wrote
        (text_by make (record { description = desk.opening.description; script = script.now }) desk.made)
        (record { old = K.taken sink.old; new = K.taken sink.new; flushed = K.flushed sink.new }) result.0 }
    ensures book { option_map (book_facts C.meaning) result.1 ≡ Some (book_of desk) }
    ensures outside { MindsSink (sink_facts K.taken K.flushed K.faults sink.old)
        (sink_facts K.taken K.flushed K.faults sink.new) result.0 }
{
    let status = write(alloc, sink, make, &desk, script);
    (status, Some(desk.finish()))
}

/// Writes the text of a desk's history, and flushes it.
fn write<K: Sink, C: Controller>(
    alloc: Global,
    sink: &mut K,
    make: Option<u32>,
    desk: &Desk<C>,
    script: &Script,
) -> Status
    ensures wrote { Wrote
        (text_by make (record { description = desk.now.opening.description; script = script.now }) desk.now.made)
        (record { old = K.taken sink.old; new = K.taken sink.new; flushed = K.flushed sink.new }) result }
    ensures write_fault { IsToldAs Status.WriteFault result (K.faults sink.old) (K.faults sink.new) }
    ensures unflushed { result ≢ Status.Ok → K.flushed sink.new ≡ K.flushed sink.old }
{
    match write_text(alloc, sink, make, desk, script) {
        Ok(()) => flush(sink),
        Err(OutFault::Failed) => Status::WriteFault,
        Err(OutFault::Memory) => Status::Memory,
    }
}

/// Writes the trace of a desk's history, or of a made document the summary.
fn write_text<K: Sink, C: Controller>(
    alloc: Global,
    sink: &mut K,
    make: Option<u32>,
    desk: &Desk<C>,
    script: &Script,
) -> Result<(), OutFault>
    ensures ok { OnOk result
        (Appends (K.taken sink.old) (K.taken sink.new) (text_by make
        (record { description = desk.now.opening.description; script = script.now }) desk.now.made)) }
    ensures err { OnErr result
        (AppendsPrefix (K.taken sink.old) (K.taken sink.new) (text_by make
        (record { description = desk.now.opening.description; script = script.now }) desk.now.made)) }
    ensures fault { IsToldAs (Err OutFault.Failed) result (K.faults sink.old) (K.faults sink.new) }
    ensures flushed { K.flushed sink.new ≡ K.flushed sink.old }
{
    match make {
        Some(_) => write_summary(alloc, sink, desk.checked(), desk.history()),
        None => write_trace(alloc, sink, desk.checked(), script, desk.history()),
    }
}

/// Flushes the sink: the run went well, or the sink failed.
pub fn flush<K: Sink>(sink: &mut K) -> Status
    ensures kept { Keeps (K.taken sink.old) (K.taken sink.new) }
    ensures flushed { (result ≡ Status.Ok) × AllFlushed (K.taken sink.new) (K.flushed sink.new)
        ⊎ (result ≡ Status.WriteFault) × (K.flushed sink.new ≡ K.flushed sink.old) }
    ensures fault { IsToldAs Status.WriteFault result (K.faults sink.old) (K.faults sink.new) }
{
    match sink.flush() {
        Ok(()) => Status::Ok,
        Err(_) => Status::WriteFault,
    }
}
