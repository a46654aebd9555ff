//! The top call: words and a document in, the run's trace or summary and its book out.

ghost use Rattle.std.specs.Prelude.{◌≡◌, ◌≢◌, ◌≤◌, map, option_map, string_bytes, IfOk, IfSome, None};
ghost use Rattle.cm_words.specs.declared.job.Job.{Job};
ghost use Rattle.cm_words.specs.declared.job.TheConstants.{MOST_ROUNDS};
ghost use Rattle.cm_words.specs.Words.{asked, CanBeAsked};
ghost use Rattle.cm_document.specs.ScriptLaws.{MeetsRules};
ghost use Rattle.cm_top.specs.Answering.{DidJob, answering_of};
ghost use Rattle.desk_jobs.specs.Book.{RunsAlone, book_facts};
ghost use Rattle.cm_top.specs.Tasks.{task_of};
ghost use Rattle.cm_top.specs.Calls.Run.{source_facts, sink_facts, CanRunAlone, ReadsPlainly, RunsJob};
ghost use Rattle.cm_top.specs.Calls.Run.{MindsFaults, MindsSink, RefusesWords, Spares, SparesAlone};
ghost use Rattle.cm_top.specs.Status.{RanDocument};

use crate::accepted::{run_document, run_document_by, run_document_live};
use crate::answer::{Question, answer_alone};
use crate::reading::read_job;
use crate::status::Status;
use crate::upgrade::upgrade_document;
use cm_desk::Book;
use cm_document::Document;
use cm_stock::Stock;
use cm_words::{Job, JobKind, WordsFault, asked};
use ctl_trait::Controller;
use outside_io::{Gate, Pace, Sink, Source};
use std::alloc::Global;
use std::sync::Wait;
use std::thread::Threads;

/// Runs the job of the words, which are those after the program's name.
///
/// Reads the source to its end, checks description and script, runs the job over the stock, writes the trace and
/// flushes it, and hands out the book. With a number of rounds the document is made, nothing is read, and the summary
/// is written. Nothing is written before the job has run. As many workers as the words ask for share each cycle. A live
/// run calls the pace behind each cycle and the gate at its points; other jobs call neither. An upgrade runs nothing:
/// it writes the description as one of the second version, and hands out no book. Nor do a check, which judges the
/// trace behind the script, and a plan, which writes the script that starts the controllers it wants.
#[tactic(auto, using(crate::proofs::ReadLemmas::untouched_minds_faults))]
pub fn run<R, S, K, P, G, C>(
    rt: &R,
    alloc: Global,
    words: &[String],
    source: &mut S,
    sink: &mut K,
    stock: Stock<C>,
    pace: &mut P,
    gate: &G,
) -> (Status, Option<Book<C>>)
where
    R: Threads + Wait + Sync,
    S: Source,
    K: Sink,
    P: Pace + Send,
    G: Gate,
    C: Controller + Send,
    ensures words { RefusesWords (map string_bytes words.now) source.old source.new sink.old sink.new
        result.0 result.1 }
    ensures runs { IfOk (asked (map string_bytes words.now)) (λ job. RunsJob job stock
        (source_facts S.left S.faults source.old) (source_facts S.left S.faults source.new)
        (sink_facts K.taken K.flushed K.faults sink.old) (sink_facts K.taken K.flushed K.faults sink.new)
        result.0 (option_map (book_facts C.meaning) result.1)) }
    ensures spared { Spares (map string_bytes words.now) result.0 source.old source.new sink.old sink.new
        pace.old pace.new }
    ensures outside { MindsFaults
        (source_facts S.left S.faults source.old) (source_facts S.left S.faults source.new)
        (sink_facts K.taken K.flushed K.faults sink.old) (sink_facts K.taken K.flushed K.faults sink.new) result.0 }
{
    match asked(alloc, words) {
        Ok(job) => match job.kind {
            JobKind::Live => run_live(
                rt,
                alloc,
                job.make,
                job.workers,
                source,
                sink,
                stock,
                pace,
                gate,
            ),
            JobKind::Run | JobKind::Steps => run_scheduled(rt, alloc, &job, source, sink, stock),
            JobKind::Upgrade | JobKind::Check | JobKind::Plan => {
                run_alone(alloc, &job, source, sink, stock)
            }
        },
        Err(WordsFault::Usage) => (Status::BadWords, None),
        Err(WordsFault::Memory) => (Status::Memory, None),
    }
}

/// Does what `run` does after its words, if they ask for no live run and for one worker. It waits for nobody.
pub fn run_alone<S: Source, K: Sink, C: Controller>(
    alloc: Global,
    job: &Job,
    source: &mut S,
    sink: &mut K,
    stock: Stock<C>,
) -> (Status, Option<Book<C>>)
    requires { CanRunAlone job.now }
    ensures runs { RunsJob job.now stock
        (source_facts S.left S.faults source.old) (source_facts S.left S.faults source.new)
        (sink_facts K.taken K.flushed K.faults sink.old) (sink_facts K.taken K.flushed K.faults sink.new)
        result.0 (option_map (book_facts C.meaning) result.1) }
    ensures outside { MindsFaults
        (source_facts S.left S.faults source.old) (source_facts S.left S.faults source.new)
        (sink_facts K.taken K.flushed K.faults sink.old) (sink_facts K.taken K.flushed K.faults sink.new) result.0 }
    ensures spared { SparesAlone job.now result.0 source.old source.new sink.old sink.new }
{
    match job.kind {
        JobKind::Check => (
            answer_alone(alloc, Question::Check, source, sink, stock.blanks()),
            None,
        ),
        JobKind::Plan => (
            answer_alone(alloc, Question::Plan, source, sink, stock.blanks()),
            None,
        ),
        _ => match read_job(alloc, job.make, source) {
            Ok(document) => do_job(alloc, job, document, sink, stock),
            Err(status) => (status, None),
        },
    }
}

/// Does a job that is not live, no check and no plan, over an accepted document.
fn do_job<K: Sink, C: Controller>(
    alloc: Global,
    job: &Job,
    document: Document,
    sink: &mut K,
    stock: Stock<C>,
) -> (Status, Option<Book<C>>)
    requires plain { ReadsPlainly job.now.kind }
    requires rules { MeetsRules document.script }
    ensures did { DidJob (answering_of job.now.kind) (task_of job.now stock) document stock
        (record { old = K.taken sink.old; new = K.taken sink.new; flushed = K.flushed sink.new })
        result.0 (option_map (book_facts C.meaning) result.1) }
    ensures outside { MindsSink (sink_facts K.taken K.flushed K.faults sink.old)
        (sink_facts K.taken K.flushed K.faults sink.new) result.0 }
{
    match job.kind {
        JobKind::Upgrade => (upgrade_document(alloc, document, sink), None),
        JobKind::Run | JobKind::Steps => run_document(alloc, *job, document, sink, stock),
        JobKind::Live | JobKind::Check | JobKind::Plan => unreachable!(),
    }
}

/// The same of a run and of a run in steps, by as many workers as the job has. It may wait for them.
fn run_scheduled<R, S, K, C>(
    rt: &R,
    alloc: Global,
    job: &Job,
    source: &mut S,
    sink: &mut K,
    stock: Stock<C>,
) -> (Status, Option<Book<C>>)
where
    R: Threads + Sync,
    S: Source,
    K: Sink,
    C: Controller + Send,
    requires { RunsAlone job.now.kind × CanBeAsked job.now }
    ensures runs { RunsJob job.now stock
        (source_facts S.left S.faults source.old) (source_facts S.left S.faults source.new)
        (sink_facts K.taken K.flushed K.faults sink.old) (sink_facts K.taken K.flushed K.faults sink.new)
        result.0 (option_map (book_facts C.meaning) result.1) }
    ensures outside { MindsFaults
        (source_facts S.left S.faults source.old) (source_facts S.left S.faults source.new)
        (sink_facts K.taken K.flushed K.faults sink.old) (sink_facts K.taken K.flushed K.faults sink.new) result.0 }
    ensures spared { SparesAlone job.now result.0 source.old source.new sink.old sink.new }
{
    if job.workers == 1 {
        return run_alone(alloc, job, source, sink, stock);
    }
    match read_job(alloc, job.make, source) {
        Ok(document) => run_document_by(rt, alloc, *job, document, sink, stock),
        Err(status) => (status, None),
    }
}

/// The same of a live run. It may wait.
fn run_live<R, S, K, P, G, C>(
    rt: &R,
    alloc: Global,
    make: Option<u32>,
    workers: u32,
    source: &mut S,
    sink: &mut K,
    stock: Stock<C>,
    pace: &mut P,
    gate: &G,
) -> (Status, Option<Book<C>>)
where
    R: Threads + Wait + Sync,
    S: Source,
    K: Sink,
    P: Pace + Send,
    G: Gate,
    C: Controller + Send,
    requires { IfSome make (λ rounds. (1 ≤ rounds) × (rounds ≤ MOST_ROUNDS)) }
    ensures runs { RunsJob (record { kind = JobKind.Live; make = make; workers = workers }) stock
        (source_facts S.left S.faults source.old) (source_facts S.left S.faults source.new)
        (sink_facts K.taken K.flushed K.faults sink.old) (sink_facts K.taken K.flushed K.faults sink.new)
        result.0 (option_map (book_facts C.meaning) result.1) }
    ensures outside { MindsFaults
        (source_facts S.left S.faults source.old) (source_facts S.left S.faults source.new)
        (sink_facts K.taken K.flushed K.faults sink.old) (sink_facts K.taken K.flushed K.faults sink.new) result.0 }
    ensures spared { SparesAlone (record { kind = JobKind.Live; make = make; workers = workers }) result.0
        source.old source.new sink.old sink.new }
{
    match read_job(alloc, make, source) {
        Ok(document) => run_document_live(
            rt, alloc, make, workers, document, sink, stock, pace, gate,
        ),
        Err(status) => (status, None),
    }
}
