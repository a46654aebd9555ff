//! Summaries of the histories that runs leave behind, and of those of made documents.

use cm_document::Checked;
use cm_model::Entry;
use make_document::make_document;
use pages_calls::described::checked_description;
use pages_cases::pages::{Teller, halves, hold};
use pages_runs::books::history_of;
use pages_runs::documents::{FIRST, MOVED};
use pages_runs::runs::{IN_STOCK, ample_sink, without_end};
use std::alloc::Global;
use std::str;
use std::test::Fail;
use summary_text::write_summary;

/// Tells the summary of the run of a document.
#[derive(Clone, Copy)]
struct Summaries;

impl Teller for Summaries {
    fn told(&self, alloc: Global, text: &str) -> Result<String, Fail> {
        let (description, _) = halves(text, "--- script ---\n")?;
        let history = history_of(alloc, text, IN_STOCK)?;
        let checked = checked_description(alloc, description)?;
        let summary = summed_up(alloc, &checked, history.as_slice());
        drop(checked);
        summary
    }
}

/// Tells the summary of the run of the made document of so many rounds.
#[derive(Clone, Copy)]
struct OfMade;

impl Teller for OfMade {
    fn told(&self, alloc: Global, text: &str) -> Result<String, Fail> {
        let made = make_document(alloc, text.trim().parse()?)?;
        Summaries.told(alloc, str::from_utf8(made.as_slice())?)
    }
}

fn summed_up(alloc: Global, checked: &Checked, history: &[Entry]) -> Result<String, Fail> {
    let mut sink = ample_sink(alloc)?;
    write_summary(alloc, &mut sink, checked, history)?;
    without_end(alloc, str::from_utf8(sink.bytes())?)
}

#[test]
fn a_history_is_summed_up(rt: HostRuntime) -> Result<(), Fail> {
    let alloc = rt.alloc();
    hold(alloc, &Summaries, FIRST, OF_FIRST)?;
    hold(alloc, &Summaries, MOVED, OF_MOVED)?;
    hold(alloc, &Summaries, "", AT_CLOSE)
}

#[test]
fn runs_of_made_documents_are_summed_up(rt: HostRuntime) -> Result<(), Fail> {
    hold(rt.alloc(), &OfMade, "", OF_MADE)
}

/// Calls that do nothing are entries too.
const OF_FIRST: &str = "=> cycles 2
entries 9
updates 0
asks 0 done 0 refused 0 ended 0";

/// A value is sent after the first cycle and brings the joint on in the two others; then a name that is not loaded is
/// refused.
const OF_MOVED: &str = "switch strict +nosuch
=> cycles 3
entries 14
updates 3
asks 2 done 1 refused 1 ended 0
joint j1 0.020000";

/// A switch still waits at the close, at a described position.
const AT_CLOSE: &str = r#"version = 1
update_rate = 100
cycles = 0
[[component]]
name = "arm"
kind = "system"
[[component.joint]]
name = "j1"
vmax = 1
position = "0.25"
[[component.joint]]
name = "j2"
vmax = 1
--- script ---
session a
hw arm inactive
=> cycles 0
entries 3
updates 0
asks 1 done 0 refused 0 ended 1
joint j1 0.250000
joint j2 0.000000"#;

/// Of the smallest document, of two rounds, and of the largest that may be asked for: 26 entries and 79 updates a
/// round.
const OF_MADE: &str = r"1
=> cycles 10
entries 45
updates 79
asks 3 done 3 refused 0 ended 0
joint j0 0.000000
joint j1 0.090000
joint j2 0.000000
joint j3 0.000000
joint j4 0.000000
joint j5 0.000000
joint j6 0.000000
joint j7 0.000000

2
=> cycles 20
entries 71
updates 158
asks 5 done 5 refused 0 ended 0
joint j0 0.000000
joint j1 0.190000
joint j2 0.100000
joint j3 0.000000
joint j4 0.000000
joint j5 0.000000
joint j6 0.000000
joint j7 0.000000

1000
=> cycles 10000
entries 26019
updates 79000
asks 2001 done 2001 refused 0 ended 0
joint j0 0.000000
joint j1 0.410000
joint j2 0.780000
joint j3 0.150000
joint j4 0.520000
joint j5 0.890000
joint j6 0.260000
joint j7 0.630000";
