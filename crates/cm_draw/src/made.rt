//! The run that a document makes, drawn from its book.

ghost use Rattle.std.specs.Prelude.{◌≤◌, length};
ghost use Rattle.cm_document.specs.declared.limits.TheConstants.{LONGEST_DOCUMENT};
ghost use Rattle.cm_document.specs.ScriptLaws.{MeetsRules};

use crate::output::write_text;
use crate::unkept::Unkept;
use crate::words::{Made, Written};
use cm_document::{Description, Document, DocumentFault, Script};
use cm_model::Entry;
use cm_stock::Stock;
use cm_top::{Status, run_document};
use ctl_trait::Controller;
use document_text::read_document;
use draw_page::{page_of, whys_of};
use fixed_num::Memory;
use outside_io::Sink;
use std::alloc::Global;

/// Runs the document that these bytes are, and draws its book.
pub(crate) fn draw_made<K: Sink, C: Controller>(
    alloc: Global,
    written: &Written,
    made: Made,
    bytes: &[u8],
    sink: &mut K,
    stock: Stock<C>,
) -> Status
    requires { length bytes.now ≤ LONGEST_DOCUMENT }
{
    match read_document(alloc, bytes) {
        Ok(document) => draw_document(alloc, written, made, document, sink, stock),
        Err(DocumentFault::Description(problem)) => Status::BadDescription(problem),
        Err(DocumentFault::Script(fault)) => Status::BadScript(fault),
        Err(DocumentFault::Memory) => Status::Memory,
    }
}

/// A document's own parts, for the picture: the run takes the document.
#[derive(Drop)]
struct Described {
    description: Description,
    script: Script,
}

fn own_parts(document: &Document) -> Result<Described, Memory> {
    Ok(Described {
        description: document.description.description().clone()?,
        script: document.script.clone()?,
    })
}

/// Runs an accepted document over the program's stock, and draws its book.
fn draw_document<K: Sink, C: Controller>(
    alloc: Global,
    written: &Written,
    made: Made,
    document: Document,
    sink: &mut K,
    stock: Stock<C>,
) -> Status
    requires rules { MeetsRules document.script }
{
    let Ok(described) = own_parts(&document) else {
        return Status::Memory;
    };
    match run_document(alloc, made.job(), document, &mut Unkept, stock) {
        (Status::Ok, Some(book)) => {
            let text = text_of(alloc, written, &described, book.history.as_slice());
            write_text(sink, text)
        }
        (status, _) => status,
    }
}

/// What is written of a history.
fn text_of(
    alloc: Global,
    written: &Written,
    described: &Described,
    history: &[Entry],
) -> Result<String, Memory> {
    let Described {
        description,
        script,
    } = described;
    match written {
        Written::Page(name) => page_of(alloc, name.as_str(), description, script, history),
        Written::Whys => whys_of(alloc, description, script, history),
    }
}
