//! The jobs that read a document of their own and answer it without a run: a check, and a plan.

ghost use Rattle.std.specs.Prelude.{◌≡◌, ◌≤◌, length, None};
ghost use Rattle.cm_document.specs.declared.limits.TheConstants.{LONGEST_DOCUMENT};
ghost use Rattle.cm_top.specs.Answering.{answering};
ghost use Rattle.cm_top.specs.Calls.Answer.{AnswersBytes};
ghost use Rattle.cm_top.specs.Calls.Run.{sink_facts, source_facts, written, AnswersFrom, MindsFaults, MindsSink};
ghost use Rattle.cm_top.specs.Status.{ComesBeforeWriting};

use crate::check::check_bytes;
use crate::plan::plan_bytes;
use crate::status::Status;
use cm_document::LONGEST_DOCUMENT;
use cm_model::Blanks;
use outside_io::{ReadFault, Sink, Source, read_whole};
use std::alloc::Global;

/// What is asked of a document that does not run.
#[derive(Clone, Copy, Debug)]
pub enum Question {
    /// Whether the trace behind its script is that of a run.
    Check,
    /// Which script starts the controllers that it wants.
    Plan,
}

/// Answers the document of a source over these blanks: it writes the answer, or nothing.
pub fn answer_alone<S: Source, K: Sink>(
    alloc: Global,
    question: Question,
    source: &mut S,
    sink: &mut K,
    blanks: Blanks,
) -> Status
    ensures answers { AnswersFrom (answering question) blanks
        (source_facts S.left S.faults source.old) (source_facts S.left S.faults source.new)
        (sink_facts K.taken K.flushed K.faults sink.old) (sink_facts K.taken K.flushed K.faults sink.new)
        result None }
    ensures outside { MindsFaults
        (source_facts S.left S.faults source.old) (source_facts S.left S.faults source.new)
        (sink_facts K.taken K.flushed K.faults sink.old) (sink_facts K.taken K.flushed K.faults sink.new) result }
    ensures untouched { ComesBeforeWriting result → sink.new ≡ sink.old }
{
    match read_whole(alloc, source, LONGEST_DOCUMENT) {
        Ok(bytes) => answer_bytes(alloc, question, bytes.as_slice(), sink, &blanks),
        Err(ReadFault::Failed) => Status::ReadFault,
        Err(ReadFault::TooLong) => Status::TooLong,
        Err(ReadFault::Memory) => Status::Memory,
    }
}

/// Answers the document that these bytes are.
fn answer_bytes<K: Sink>(
    alloc: Global,
    question: Question,
    bytes: &[u8],
    sink: &mut K,
    blanks: &Blanks,
) -> Status
    requires { length bytes.now ≤ LONGEST_DOCUMENT }
    ensures answers { AnswersBytes (answering question) blanks.now bytes.now
        (written (sink_facts K.taken K.flushed K.faults sink.old) (sink_facts K.taken K.flushed K.faults sink.new))
        result }
    ensures outside { MindsSink (sink_facts K.taken K.flushed K.faults sink.old)
        (sink_facts K.taken K.flushed K.faults sink.new) result }
    ensures untouched { ComesBeforeWriting result → sink.new ≡ sink.old }
{
    match question {
        Question::Check => check_bytes(alloc, bytes, sink, blanks),
        Question::Plan => plan_bytes(alloc, bytes, sink, blanks),
    }
}
