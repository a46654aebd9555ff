//! The job `plan`: the script is written that starts the controllers which a document wants.

ghost use Rattle.std.specs.Prelude.{◌≡◌, ◌⊎◌, ◌≤◌, length, Ok, Err, MatchResult};
ghost use Rattle.cm_document.specs.declared.limits.TheConstants.{LONGEST_DOCUMENT};
ghost use Rattle.cm_top.specs.Answering.{planning, untraced};
ghost use Rattle.cm_top.specs.Calls.Answer.{AnswersBytes, AnswersGiven};
ghost use Rattle.cm_top.specs.Calls.Run.{sink_facts, written, MindsSink};
ghost use Rattle.cm_top.specs.Status.{ComesBeforeWriting};
ghost use Rattle.cm_top.specs.Answering.{planned_text};

use crate::status::Status;
use crate::upgrade::write;
use cm_document::Document;
use cm_model::Blanks;
use document_text::{read_wish, wanted_in};
use outside_io::Sink;
use script_text::print_script;
use spawn_plan::{SpawnFault, spawn};
use std::alloc::Global;

/// Plans what the document wants that these bytes are.
pub fn plan_bytes<K: Sink>(alloc: Global, bytes: &[u8], sink: &mut K, blanks: &Blanks) -> Status
    requires { length bytes.now ≤ LONGEST_DOCUMENT }
    ensures plans { AnswersBytes planning blanks.now bytes.now
        (written (sink_facts K.taken K.flushed K.faults sink.old) (sink_facts K.taken K.flushed K.faults sink.new))
        result }
    ensures outside { MindsSink (sink_facts K.taken K.flushed K.faults sink.old)
        (sink_facts K.taken K.flushed K.faults sink.new) result }
    ensures untouched { ComesBeforeWriting result → sink.new ≡ sink.old }
{
    match read_wish(alloc, bytes) {
        Ok(document) => plan_document(alloc, &document, sink, blanks),
        Err(fault) => Status::from(fault),
    }
}

/// Plans what an accepted document wants.
fn plan_document<K: Sink>(
    alloc: Global,
    document: &Document,
    sink: &mut K,
    blanks: &Blanks,
) -> Status
    ensures planned { AnswersGiven planning blanks.now (untraced document.now)
        (written (sink_facts K.taken K.flushed K.faults sink.old) (sink_facts K.taken K.flushed K.faults sink.new))
        result }
    ensures outside { MindsSink (sink_facts K.taken K.flushed K.faults sink.old)
        (sink_facts K.taken K.flushed K.faults sink.new) result }
    ensures untouched { ComesBeforeWriting result → sink.new ≡ sink.old }
{
    match planned_text(alloc, document, blanks) {
        Ok(text) => write(sink, text.as_slice()),
        Err(SpawnFault::Memory) => Status::Memory,
        Err(fault) => Status::CannotSpawn(fault),
    }
}

/// The text of the script that starts them, or why there is none.
#[tactic(auto, unfolding(crate::specs::Answering::planned_text))]
fn planned_text(alloc: Global, document: &Document, blanks: &Blanks) -> Result<Vec<u8>, SpawnFault>
    ensures { MatchResult result (λ text. planned_text document.now blanks.now ≡ Ok text.items)
        (λ fault. (fault ≡ SpawnFault.Memory) ⊎ (planned_text document.now blanks.now ≡ Err fault)) }
{
    let wanted = wanted_in(alloc, &document.script)?;
    let script = spawn(alloc, &document.description, blanks, wanted.as_slice())?;
    let text = print_script(alloc, &script)?;
    Ok(text)
}
