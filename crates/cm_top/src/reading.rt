//! The document of a job: read from its source, or made.

ghost use Rattle.std.specs.Prelude.{◌≡◌, ◌≤◌, length, IfSome};
ghost use Rattle.cm_document.specs.declared.limits.TheConstants.{LONGEST_DOCUMENT};
ghost use Rattle.cm_words.specs.declared.job.TheConstants.{MOST_ROUNDS};
ghost use Rattle.make_document.specs.Made.{made};
ghost use Rattle.cm_top.specs.Calls.Read.{MindsSource, Reads, ReadsBytes, ReadsFrom};
ghost use Rattle.cm_top.specs.Calls.Run.{source_facts};

use crate::status::Status;
use cm_document::{Document, LONGEST_DOCUMENT};
use document_text::read_document;
use fixed_num::Memory;
use make_document::make_document;
use outside_io::{ReadFault, Source, read_whole};
use std::alloc::Global;

/// The document of a job, which is read, or made of so many rounds; or the status with which the run ends. A made
/// document reads nothing.
pub fn read_job<S: Source>(
    alloc: Global,
    make: Option<u32>,
    source: &mut S,
) -> Result<Document, Status>
    requires rounds { IfSome make (λ rounds. (1 ≤ rounds) × (rounds ≤ MOST_ROUNDS)) }
    ensures reads { ReadsFrom make (source_facts S.left S.faults source.old)
        (source_facts S.left S.faults source.new) result }
    ensures outside { MindsSource (source_facts S.left S.faults source.old)
        (source_facts S.left S.faults source.new) result }
    ensures unread { IfSome make (λ _. source.new ≡ source.old) }
{
    match make {
        Some(rounds) => read_made(alloc, rounds),
        None => read(alloc, source),
    }
}

/// The document of a source, which is read to its end.
fn read<S: Source>(alloc: Global, source: &mut S) -> Result<Document, Status>
    ensures reads { Reads (source_facts S.left S.faults source.old) (source_facts S.left S.faults source.new) result }
    ensures outside { MindsSource (source_facts S.left S.faults source.old)
        (source_facts S.left S.faults source.new) result }
{
    match read_whole(alloc, source, LONGEST_DOCUMENT) {
        Ok(bytes) => accepted(alloc, bytes.as_slice()),
        Err(ReadFault::Failed) => Err(Status::ReadFault),
        Err(ReadFault::TooLong) => Err(Status::TooLong),
        Err(ReadFault::Memory) => Err(Status::Memory),
    }
}

/// The made document of so many rounds.
fn read_made(alloc: Global, rounds: u32) -> Result<Document, Status>
    requires { rounds ≤ MOST_ROUNDS }
    ensures { ReadsBytes (made rounds) result }
{
    match make_document(alloc, rounds) {
        Ok(text) => accepted(alloc, text.as_slice()),
        Err(Memory) => Err(Status::Memory),
    }
}

/// The document that these bytes are.
fn accepted(alloc: Global, bytes: &[u8]) -> Result<Document, Status>
    requires { length bytes.now ≤ LONGEST_DOCUMENT }
    ensures { ReadsBytes bytes.now result }
{
    match read_document(alloc, bytes) {
        Ok(document) => Ok(document),
        Err(fault) => Err(Status::from(fault)),
    }
}
