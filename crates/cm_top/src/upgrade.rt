//! The job `upgrade`: the description of an accepted document, written as one of the second version.

ghost use Rattle.cm_model.specs.declared.blanks.Blanks.{Blanks};
ghost use Rattle.cm_top.specs.Answering.{untraced, upgrading, WroteAnswer};
ghost use Rattle.cm_top.specs.Calls.Run.{sink_facts, MindsSink};
ghost use Rattle.cm_top.specs.Status.{Wrote};

use crate::accepted::flush;
use crate::status::Status;
use cm_document::{Document, SECOND_VERSION};
use desc_text::print_description;
use fixed_num::Memory;
use outside_io::{Sink, write_whole};
use std::alloc::Global;

/// Writes the description of a document as one of the second version, and flushes it. The script is not written.
pub fn upgrade_document<K: Sink>(alloc: Global, document: Document, sink: &mut K) -> Status
    ensures wrote { (blanks : Blanks) → WroteAnswer upgrading blanks (untraced document)
        (record { old = K.taken sink.old; new = K.taken sink.new; flushed = K.flushed sink.new }) result }
    ensures outside { MindsSink (sink_facts K.taken K.flushed K.faults sink.old)
        (sink_facts K.taken K.flushed K.faults sink.new) result }
{
    let Document { description, .. } = document;
    let mut description = description.into_description();
    description.version = SECOND_VERSION;
    match print_description(alloc, &description) {
        Ok(text) => write(sink, text.as_slice()),
        Err(Memory) => Status::Memory,
    }
}

/// Writes a text, and flushes it.
pub fn write<K: Sink>(sink: &mut K, text: &[u8]) -> Status
    ensures wrote { Wrote text.now
        (record { old = K.taken sink.old; new = K.taken sink.new; flushed = K.flushed sink.new }) result }
    ensures outside { MindsSink (sink_facts K.taken K.flushed K.faults sink.old)
        (sink_facts K.taken K.flushed K.faults sink.new) result }
{
    match write_whole(sink, text) {
        Ok(()) => flush(sink),
        Err(_) => Status::WriteFault,
    }
}
