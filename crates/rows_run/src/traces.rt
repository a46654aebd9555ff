//! Where a stored trace goes wrong: it is told before what went wrong in the run up to there, and marked in the run.

use crate::drawn::read;
use cm_document::Document;
use cm_model::Entry;
use draw_page::{WrongTrace, trace_page_of, trace_whys_of};
use pages_cases::pages::hold_told;
use pages_runs::books::history_of;
use pages_runs::runs::{IN_STOCK, without_end};
use std::alloc::Global;
use std::test::Fail;

#[test]
fn a_wrong_line_is_told_with_the_one_that_was_to_come(rt: HostRuntime) -> Result<(), Fail> {
    let alloc = rt.alloc();
    let came = b"loop begin 0: none".as_slice();
    let expected = b"a load mk: ok 0".as_slice();
    hold_wrong(alloc, 1, came, expected, IN_ITS_PLACE)?;
    let nothing = b"".as_slice();
    let close = b"loop close: none".as_slice();
    hold_wrong(alloc, 7, nothing, close, BEHIND_THE_LAST)?;
    hold_wrong(alloc, 2, b"a\xff\tb".as_slice(), nothing, OF_NOBODY)
}

/// A load, the begin and the end of the one cycle, and the close: so many of these lines are legal, and the next is
/// wrong.
#[test]
fn a_wrong_line_is_marked_in_the_run(rt: HostRuntime) -> Result<(), Fail> {
    hold_marked(rt.alloc(), 0, 1, "in cycle 0")?;
    hold_marked(rt.alloc(), 1, 2, "in cycle 0")?;
    hold_marked(rt.alloc(), 2, 3, "in cycle 0")?;
    hold_marked(rt.alloc(), 3, 4, "after the last cycle")
}

/// Fails where the page of a trace that goes wrong at a line, behind so many legal ones, lacks a bar that tells it
/// then, or the line's number above.
fn hold_marked(alloc: Global, legal: usize, line: u32, then: &str) -> Result<(), Fail> {
    let page = marked(alloc, legal, line)?;
    let title = format!(in alloc;
        "<title>the trace goes wrong at its line {line}, {then}</title>"
    )?;
    hold_bar(alloc, page.as_str(), title.as_str(), line)
}

/// Fails where the page lacks a bar with this title, or this line's number above.
fn hold_bar(alloc: Global, page: &str, title: &str, line: u32) -> Result<(), Fail> {
    hold_element(page, format!(in alloc; "{title}</rect>")?)?;
    hold_element(page, format!(in alloc; "{title}line {line}</text>")?)
}

/// The page of a trace that goes wrong at a line, behind so many legal ones.
fn marked(alloc: Global, legal: usize, line: u32) -> Result<String, Fail> {
    let history = history_of(alloc, DOCUMENT, IN_STOCK)?;
    let Some((told, _)) = history.as_slice().split_at_checked(legal) else {
        return Err(Fail::new("the run is shorter"));
    };
    let wrong = WrongTrace {
        line,
        came: b"nobody".as_slice(),
        expected: b"".as_slice(),
    };
    let document = read(alloc, DOCUMENT.as_bytes())?;
    let page = page_of_wrong(alloc, &document, told, wrong);
    drop(document);
    page
}

fn page_of_wrong(
    alloc: Global,
    document: &Document,
    told: &[Entry],
    wrong: WrongTrace<'_>,
) -> Result<String, Fail> {
    let description = document.description.description();
    let script = &document.script;
    Ok(trace_page_of(alloc, "rows.cm", description, script, told, Some(wrong))?)
}

/// Fails where this does not stand on the page.
fn hold_element(page: &str, element: String) -> Result<(), Fail> {
    if page.contains(element.as_str()) {
        return Ok(());
    }
    Err(Fail::new(element))
}

/// Fails where other words are told of a trace that goes wrong so.
fn hold_wrong(
    alloc: Global,
    line: u32,
    came: &[u8],
    expected: &[u8],
    want: &str,
) -> Result<(), Fail> {
    let wrong = WrongTrace {
        line,
        came,
        expected,
    };
    let told = whys(alloc, wrong)?;
    let told = without_end(alloc, told.as_str())?;
    hold_told(alloc, "a trace", told.as_str(), want)
}

/// What is told in words of a trace that goes wrong so.
fn whys(alloc: Global, wrong: WrongTrace<'_>) -> Result<String, Fail> {
    let history = history_of(alloc, DOCUMENT, IN_STOCK)?;
    let document = read(alloc, DOCUMENT.as_bytes())?;
    let told = whys_of_wrong(alloc, &document, history.as_slice(), wrong);
    drop(document);
    told
}

fn whys_of_wrong(
    alloc: Global,
    document: &Document,
    history: &[Entry],
    wrong: WrongTrace<'_>,
) -> Result<String, Fail> {
    let description = document.description.description();
    Ok(trace_whys_of(alloc, description, &document.script, history, Some(wrong))?)
}

const DOCUMENT: &str = r#"version = 1
update_rate = 100
cycles = 1
[[controller]]
name = "mk"
type = "mock"
--- script ---
session a
load mk
"#;

const IN_ITS_PLACE: &str = "\
the trace goes wrong at its line 1, and is drawn as far as it is legal
    came: loop begin 0: none
    to come: a load mk: ok 0
Nothing was refused, left out or stopped, and nothing failed.";

const BEHIND_THE_LAST: &str = "\
the trace goes wrong at its line 7, and is drawn as far as it is legal
    came: nothing
    to come: loop close: none
Nothing was refused, left out or stopped, and nothing failed.";

const OF_NOBODY: &str = "\
the trace goes wrong at its line 2, and is drawn as far as it is legal
    came: a??b
    to come: no line of this caller
Nothing was refused, left out or stopped, and nothing failed.";
