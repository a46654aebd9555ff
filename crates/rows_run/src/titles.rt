//! Titles on pages: of what was, and of what happened and when.

use crate::drawn::{FAILING, HEAD, STAND_INS, drawn};
use pages_cases::pages::{halves, joined};
use std::alloc::Global;
use std::test::Fail;

#[test]
fn a_page_tells_what_was_and_what_happened(rt: HostRuntime) -> Result<(), Fail> {
    hold_titles(rt.alloc(), FAILING, FAILURES)
}

#[test]
fn references_are_named_as_they_are_listed(rt: HostRuntime) -> Result<(), Fail> {
    hold_titles(rt.alloc(), HEAD, CHAINED)
}

#[test]
fn calls_that_did_nothing_are_told(rt: HostRuntime) -> Result<(), Fail> {
    hold_titles(rt.alloc(), HEAD, REFUSED)
}

#[test]
fn who_stood_in_for_whom_is_told(rt: HostRuntime) -> Result<(), Fail> {
    hold_titles(rt.alloc(), STAND_INS, STOOD_IN)
}

#[test]
fn a_column_of_a_long_run_is_several_cycles(rt: HostRuntime) -> Result<(), Fail> {
    hold_titles(rt.alloc(), "", LONG)
}

/// What stands before the lines of a case that are no titles.
const WORDS: &str = "\n--- words ---\n";

/// Fails at the first line of a case that its page lacks. A case is the end of a document, and behind `=> ` its titles,
/// and perhaps lines with which a text ends.
fn hold_titles(alloc: Global, before: &str, case: &str) -> Result<(), Fail> {
    let (end, wanted) = halves(case, "=> ")?;
    let text = joined(alloc, before, end)?;
    let page = drawn(alloc, text.as_str())?;
    let (titles, words) = wanted.split_once(WORDS).unwrap_or((wanted, ""));
    hold_all(alloc, page.as_str(), "<title>", titles, "</title>")?;
    hold_all(alloc, page.as_str(), ">", words, "</text>")
}

/// Fails at the first of these lines that does not stand on the page between those two.
fn hold_all(alloc: Global, page: &str, open: &str, lines: &str, close: &str) -> Result<(), Fail> {
    for line in lines.lines() {
        let element = format!(in alloc; "{open}{line}{close}")?;
        if !page.contains(element.as_str()) {
            return Err(Fail::new(format!(in alloc; "nowhere stands {element}")?));
        }
    }
    Ok(())
}

/// A passthrough above another one, so that what it claims is a reference. A reference has the name of its controller,
/// and the joint and the kind of what it stands for.
const CHAINED: &str = r#"cycles = 1
[[component]]
name = "arm"
kind = "actuator"
[[component.joint]]
name = "j0"
vmax = 1
command = ["position"]
state = ["position"]
[[controller]]
name = "c0"
type = "passthrough"
claims = ["j0/position"]
[[controller]]
name = "c1"
type = "passthrough"
claims = ["c0/j0/position"]
[[controller]]
name = "c2"
type = "forward"
claims = ["c1/j0/position"]
--- script ---
session a
list interfaces
=> c0/j0/position: a reference of c0
c1/j0/position: a reference of c1
c1 claims a reference of c0: it leads, and c0 follows
c2 claims a reference of c1: it leads, and c1 follows"#;

/// More requests than can wait, before the first cycle; a call that is refused, and a request after the close. Four may
/// wait, so the fifth has no ticket. It is told so at once, and makes its next request before the cycle too.
const REFUSED: &str = r#"cycles = 1
[[controller]]
name = "mk"
type = "mock"
--- script ---
session a
load mk
send mk 0.5
switch strict
session b
switch strict
session c
switch strict
session d
switch strict +mk
session e
switch best +mk
hw arm active
=> cycle 0, a: send mk 0.500000: refused, it is not active (not_active)
cycle 0, d: switch strict +mk: refused, mk is not configured (refused mk not_configured)
cycle 0, e: switch best +mk: refused, the queue is full (queue_full)
cycle 0, e: hw arm active: refused, the queue is full (queue_full)
--- words ---
rows.cm: a run of 1 cycle at 100 hertz
requests: 3 done, 1 refused, 2 turned away · other calls refused: 1 · failures: 0 · stops of controllers: 0
switch best +mk: refused, the queue is full
send mk 0.500000: refused, it is not active"#;

/// What the page of the failing one has to tell. The first request is decided as cycle 0 begins, and each other one
/// cycle later than the one before it, as its session is told first what became of that. Who uses the arm stops with
/// the cycle in which it cannot be read.
const FAILURES: &str = "\
session operator
load pt
load lead
load mk
configure pt
configure lead
configure mk
switch strict +lead
switch strict +pt +lead +mk
send lead 0.5
switch best -pt +mk
=> controller lead: a forward, claims 1 and reads 0
lead claims a reference of pt: it leads, and pt follows
pt claims j1/position
pt/j1/position: a reference of pt
component arm: actuator
cycle 0, operator: switch strict +lead: refused, lead claims pt/j1/position, whose controller would not be active \
(refused lead missing_follower pt/j1/position)
cycle 1, operator: switch strict +pt +lead +mk: done (done)
cycle 2, operator: switch best -pt +mk: done; without pt: pt is needed, because pt/j1/position is claimed \
(done dropped pt missing_follower pt/j1/position)
lead: inactive in cycle 0
lead: active in cycles 1 to 2
lead: stopped at the end of cycle 2
lead: inactive in cycles 3 to 5
pt: inactive in cycle 0
pt: chained in cycles 1 to 2
pt: stopped at the end of cycle 2
mk: its update failed in cycle 1
mk: stopped at the end of cycle 1
mk: active in cycles 1 to 5
arm: active in cycles 0 to 2
arm: its read failed in cycle 2
arm: unconfigured in cycles 3 to 5
j1: 0 after cycle 1
j1: 0 after cycle 5";

/// What is asked for without a session stands among the requests, and is not counted as one.
const STOOD_IN: &str = "\
=> cycle 2: fallback spare other idle fwd for mk, and idle for mk2: done; without spare: spare is not there; \
without fwd: fwd is active already; without idle: idle is named twice in one list; \
without other: other claims j1/position, which fwd claims, too \
(done dropped spare unknown, fwd already_active, idle twice, other conflict j1/position fwd)
mk: its update failed in cycle 1
mk: stopped at the end of cycle 1
idle: inactive in cycles 0 to 1
idle: active in cycle 2
other: inactive in cycles 0 to 2
--- words ---
requests: 1 done, 0 refused · failures: 2 · stops of controllers: 2";

/// A joint that stands still, and a mock that is loaded, over twice as many cycles as there are columns and one more. A
/// column is three cycles, and the last one two.
const LONG: &str = r#"version = 1
update_rate = 1000
cycles = 4001
[[component]]
name = "arm"
kind = "system"
[[component.joint]]
name = "j1"
vmax = 1
position = "0.25"
command = ["position"]
state = ["position"]
[[controller]]
name = "mk"
type = "mock"
--- script ---
session operator
load mk
=> arm: active in cycles 0 to 4000
mk: unconfigured in cycles 0 to 4000
j1: 0.25 to 0.25 in cycles 0 to 2
j1: 0.25 to 0.25 in cycles 3996 to 3998
j1: 0.25 to 0.25 in cycles 3999 to 4000"#;
