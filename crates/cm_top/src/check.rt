//! The job `check`: the trace that stands behind the script of a document is judged.

ghost use Rattle.std.specs.Prelude.{◌≡◌, ◌≤◌, length};
ghost use Rattle.cm_document.specs.ScriptLaws.{MeetsRules};
ghost use Rattle.cm_document.specs.declared.document.Document.{Document};
ghost use Rattle.cm_document.specs.declared.limits.TheConstants.{LONGEST_DOCUMENT};
ghost use Rattle.cm_top.specs.Answering.{checking};
ghost use Rattle.cm_top.specs.Calls.Answer.{AnswersBytes, AnswersGiven};
ghost use Rattle.cm_top.specs.Calls.Run.{sink_facts, written, MindsSink};
ghost use Rattle.cm_top.specs.Status.{ComesBeforeWriting};

use crate::status::Status;
use crate::upgrade::write;
use cm_model::Blanks;
use document_text::{Traced, read_traced};
use outside_io::Sink;
use std::alloc::Global;
use trace_check::{TraceFault, check_trace};

/// Judges the trace in the document that these bytes are.
pub fn check_bytes<K: Sink>(alloc: Global, bytes: &[u8], sink: &mut K, blanks: &Blanks) -> Status
    requires { length bytes.now ≤ LONGEST_DOCUMENT }
    ensures checks { AnswersBytes checking blanks.now bytes.now
        (written (sink_facts K.taken K.flushed K.faults sink.old) (sink_facts K.taken K.flushed K.faults sink.new))
        result }
    ensures outside { MindsSink (sink_facts K.taken K.flushed K.faults sink.old)
        (sink_facts K.taken K.flushed K.faults sink.new) result }
    ensures untouched { ComesBeforeWriting result → sink.new ≡ sink.old }
{
    match read_traced(alloc, bytes) {
        Ok(traced) => check_document(alloc, &traced, sink, blanks),
        Err(fault) => Status::from(fault),
    }
}

/// Judges the trace of an accepted document.
fn check_document<K: Sink>(
    alloc: Global,
    traced: &Traced<'_>,
    sink: &mut K,
    blanks: &Blanks,
) -> Status
    requires { (length traced.now.trace.now ≤ LONGEST_DOCUMENT) × MeetsRules traced.now.document.script }
    ensures checked { AnswersGiven checking blanks.now
        (record { document = traced.now.document; trace = traced.now.trace.now })
        (written (sink_facts K.taken K.flushed K.faults sink.old) (sink_facts K.taken K.flushed K.faults sink.new))
        result }
    ensures outside { MindsSink (sink_facts K.taken K.flushed K.faults sink.old)
        (sink_facts K.taken K.flushed K.faults sink.new) result }
    ensures untouched { ComesBeforeWriting result → sink.new ≡ sink.old }
{
    let document = &traced.document;
    match check_trace(
        alloc,
        &document.description,
        &document.script,
        blanks,
        traced.trace,
    ) {
        Ok(()) => write(sink, b"legal\n".as_slice()),
        Err(TraceFault::NotLegal { line, expected }) => Status::NotLegal { line, expected },
        Err(TraceFault::Memory) => Status::Memory,
    }
}
