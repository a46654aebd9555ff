//! Documents whose runs are timed: each is read once, however often it is run.

ghost use Rattle.std.specs.Prelude.{IfOk};
ghost use Rattle.cm_document.specs.ScriptLaws.{MeetsRules};

use cm_document::{Document, LONGEST_DOCUMENT};
use document_text::read_document;
use std::alloc::Global;

/// The document that this text is.
pub(crate) fn read(alloc: Global, text: &str) -> anyhow::Result<Document>
    ensures { IfOk result (λ document. MeetsRules document.script) }
{
    let bytes = text.as_bytes();
    if bytes.len() > LONGEST_DOCUMENT {
        return Err(anyhow::anyhow!("a document that is too long"));
    }
    match read_document(alloc, bytes) {
        Ok(document) => Ok(document),
        Err(_) => Err(anyhow::anyhow!("a document that is refused")),
    }
}
