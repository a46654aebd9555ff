//! Traces that are longer than a document may be: the call judges them, over the document alone.

ghost use Rattle.std.specs.Prelude.{◌<◌, ◌-◌, ◌^◌, length, IfOk};
ghost use Rattle.cm_document.specs.ScriptLaws.{MeetsRules};

use crate::checks::told_wrong;
use cm_document::{Document, LONGEST_DOCUMENT};
use cm_model::Blanks;
use document_text::read_traced;
use pages_cases::pages::{Teller, halves, hold, joined};
use pages_runs::runs::{AMPLE, IN_STOCK};
use std::alloc::Global;
use std::test::Fail;
use trace_check::{TraceFault, check_trace};

#[test]
fn a_trace_longer_than_a_document_is_judged_by_the_call(rt: HostRuntime) -> Result<(), Fail> {
    hold(rt.alloc(), &ByTheCall, DOCUMENT, LONG)
}

/// Tells how the call judges the trace behind a document, however long it is.
struct ByTheCall;

impl Teller for ByTheCall {
    fn told(&self, alloc: Global, text: &str) -> Result<String, Fail> {
        let (document, trace) = halves(text, SEPARATOR)?;
        if trace.len() > AMPLE {
            return Err(Fail::new("a longer trace"));
        }
        let given = joined(alloc, document, SEPARATOR)?;
        let document = read(alloc, given.as_str())?;
        let told = judged(alloc, &document, trace.as_bytes());
        drop(document);
        told
    }
}

/// The document before a trace that lies elsewhere.
fn read(alloc: Global, given: &str) -> Result<Document, Fail>
    ensures { IfOk result (λ document. MeetsRules document.script) }
{
    if given.len() > LONGEST_DOCUMENT {
        return Err(Fail::new("a longer document"));
    }
    match read_traced(alloc, given.as_bytes()) {
        Ok(given) => Ok(given.document),
        Err(fault) => {
            drop(fault);
            Err(Fail::new("a document that is refused"))
        }
    }
}

/// Tells how the call judges a trace of the document.
fn judged(alloc: Global, document: &Document, trace: &[u8]) -> Result<String, Fail>
    requires rules { MeetsRules document.now.script }
    requires short { length trace.now < 2 ^ 32 - 1 }
{
    let blanks = Blanks::of_each(IN_STOCK);
    let Document {
        description,
        script,
    } = document;
    match check_trace(alloc, description, script, &blanks, trace) {
        Ok(()) => Ok(format!(in alloc; "{} bytes: legal", trace.len())?),
        Err(TraceFault::NotLegal { line, expected }) => {
            told_wrong(alloc, line, expected.as_slice())
        }
        Err(TraceFault::Memory) => Err(Fail::new("a want of memory")),
    }
}

const SEPARATOR: &str = "--- trace ---\n";

/// A run of 30,000 cycles in which nothing happens.
const DOCUMENT: &str = "\
version = 1
update_rate = 1000
cycles = 30000
--- script ---
--- trace ---
";

/// Its trace; without the last line; and with one cycle too many.
const LONG: &str = r"<0..30000 * loop begin #: none
loop end #: none
>\
loop close: none
=> 1297797 bytes: legal

<0..30000 * loop begin #: none
loop end #: none
>\
=> line 60001, nothing expected

<0..30001 * loop begin #: none
loop end #: none
>\
=> line 60001, expected loop close: none";
