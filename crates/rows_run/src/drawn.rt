//! The pages and the whys of documents that are run over a stock.

use cm_document::{Document, LONGEST_DOCUMENT};
use cm_model::Entry;
use document_text::read_document;
use draw_page::{page_of, whys_of};
use pages_cases::pages::Teller;
use pages_runs::books::history_of;
use pages_runs::runs::{IN_STOCK, without_end};
use std::alloc::Global;
use std::test::Fail;

/// What stands before all documents here but the longest one.
pub(crate) const HEAD: &str = "version = 1\nupdate_rate = 100\n";

/// A chain above a joint that cannot be read in cycle 2, a broadcaster of one that cannot be written in cycle 3 and is
/// finalized for that, and a mock whose update fails in cycle 1. A script follows.
pub(crate) const FAILING: &str = r#"version = 1
update_rate = 100
cycles = 6
[[component]]
name = "arm"
kind = "actuator"
fail_read = [2]
[[component.joint]]
name = "j1"
vmax = 1
command = ["position"]
state = ["position"]
[[component]]
name = "hand"
kind = "actuator"
on_error = "finalized"
fail_write = [3]
[[component.joint]]
name = "k1"
vmax = 1
command = ["position"]
state = ["position"]
[[controller]]
name = "pt"
type = "passthrough"
claims = ["j1/position"]
[[controller]]
name = "lead"
type = "forward"
claims = ["pt/j1/position"]
[[controller]]
name = "jsb"
type = "broadcaster"
reads = ["k1/position"]
[[controller]]
name = "mk"
type = "mock"
fail_update = [1]
--- script ---
"#;

/// Two mocks fail in cycle 1. Of those that they name one is not loaded, one is active, one commands that one's joint,
/// and one is named by both.
pub(crate) const STAND_INS: &str = r#"version = 1
update_rate = 100
cycles = 3
[[component]]
name = "arm"
kind = "actuator"
joint = [{ name = "j1", vmax = 1, command = ["position"] }]
[[controller]]
name = "mk"
type = "mock"
fallback = ["spare", "other", "idle", "fwd"]
fail_update = [1]
[[controller]]
name = "mk2"
type = "mock"
fallback = ["idle"]
fail_update = [1]
[[controller]]
name = "fwd"
type = "forward"
claims = ["j1/position"]
[[controller]]
name = "other"
type = "forward"
claims = ["j1/position"]
[[controller]]
name = "idle"
type = "mock"
[[controller]]
name = "spare"
type = "mock"
--- script ---
session a
load mk
load mk2
load fwd
load other
load idle
configure mk
configure mk2
configure fwd
configure other
configure idle
switch strict +mk +mk2 +fwd
"#;

/// Tells what was not done as asked in the run of a document, or went wrong, over so many blanks of each kind.
#[derive(Clone, Copy)]
pub(crate) struct Whys {
    pub in_stock: u32,
}

impl Teller for Whys {
    fn told(&self, alloc: Global, text: &str) -> Result<String, Fail> {
        let told = shown(alloc, text, self.in_stock, Wanted::Whys)?;
        without_end(alloc, told.as_str())
    }
}

/// The page that shows the run of a document.
pub(crate) fn drawn(alloc: Global, text: &str) -> Result<String, Fail> {
    shown(alloc, text, IN_STOCK, Wanted::Page)
}

/// What is shown of a run: its page, or what was not done as asked, in words.
#[derive(Clone, Copy)]
enum Wanted {
    Page,
    Whys,
}

/// What is shown of the run of a document. The document has many parts, and is dropped at this one place.
fn shown(alloc: Global, text: &str, in_stock: u32, what: Wanted) -> Result<String, Fail> {
    let history = history_of(alloc, text, in_stock)?;
    let document = read(alloc, text.as_bytes())?;
    let told = match what {
        Wanted::Page => page(alloc, &document, history.as_slice()),
        Wanted::Whys => told(alloc, &document, history.as_slice()),
    };
    drop(document);
    told
}

/// The document that these bytes are.
pub(crate) fn read(alloc: Global, bytes: &[u8]) -> Result<Document, Fail> {
    if bytes.len() > LONGEST_DOCUMENT {
        return Err(Fail::new("the document is too long"));
    }
    match read_document(alloc, bytes) {
        Ok(document) => Ok(document),
        Err(fault) => {
            drop(fault);
            Err(Fail::new("the document is refused"))
        }
    }
}

fn page(alloc: Global, document: &Document, history: &[Entry]) -> Result<String, Fail> {
    let description = document.description.description();
    Ok(page_of(alloc, "rows.cm", description, &document.script, history)?)
}

fn told(alloc: Global, document: &Document, history: &[Entry]) -> Result<String, Fail> {
    let description = document.description.description();
    Ok(whys_of(alloc, description, &document.script, history)?)
}
