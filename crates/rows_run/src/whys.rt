//! Why something was not done in a run, or went wrong, in words, with what would mend it: each reason, cause, failure
//! and stop.

use crate::drawn::{FAILING, HEAD, STAND_INS, Whys};
use pages_cases::pages::hold;
use pages_runs::runs::IN_STOCK;
use std::test::Fail;

/// What is told of runs over the program's stock.
const OF_PROGRAM: Whys = Whys { in_stock: IN_STOCK };

#[test]
fn each_reason_of_a_call_that_does_nothing_is_told(rt: HostRuntime) -> Result<(), Fail> {
    let alloc = rt.alloc();
    hold(alloc, &OF_PROGRAM, HEAD, CALLS)?;
    hold(alloc, &Whys { in_stock: 1 }, HEAD, OF_ONE_BLANK)?;
    hold(alloc, &OF_PROGRAM, HEAD, LATE)
}

#[test]
fn each_cause_of_a_refusal_is_told(rt: HostRuntime) -> Result<(), Fail> {
    hold(rt.alloc(), &OF_PROGRAM, HEAD, CAUSES)
}

#[test]
fn each_failure_and_stop_is_told(rt: HostRuntime) -> Result<(), Fail> {
    hold(rt.alloc(), &OF_PROGRAM, FAILING, FAILURES)
}

#[test]
fn each_fallback_that_is_left_out_is_told(rt: HostRuntime) -> Result<(), Fail> {
    hold(rt.alloc(), &OF_PROGRAM, STAND_INS, LEFT_OUT)
}

#[test]
fn each_group_is_told_with_its_members(rt: HostRuntime) -> Result<(), Fail> {
    hold(rt.alloc(), &OF_PROGRAM, "", OF_GROUPS)
}

#[test]
fn a_run_in_which_all_was_done_says_so(rt: HostRuntime) -> Result<(), Fail> {
    hold(rt.alloc(), &OF_PROGRAM, HEAD, QUIET)
}

/// Calls before the first cycle, and calls while a chain and a broadcaster run. A controller that is not loaded is told
/// before one that is not active; one that is chained before what it is sent.
const CALLS: &str = r#"cycles = 2
[[component]]
name = "arm"
kind = "system"
[[component.joint]]
name = "j1"
vmax = 1
command = ["position", "velocity"]
state = ["position"]
[[controller]]
name = "fwd"
type = "forward"
claims = ["j1/position"]
[[controller]]
name = "pt"
type = "passthrough"
claims = ["j1/position"]
[[controller]]
name = "lead"
type = "forward"
claims = ["pt/j1/position"]
[[controller]]
name = "jsb"
type = "broadcaster"
reads = ["j1/position"]
[[controller]]
name = "odd"
type = "mock"
refuse_config = true
--- script ---
session a
load ghost
send fwd 0.1
load fwd
load pt
load lead
load jsb
load odd
load odd
send fwd 0.1
cleanup fwd
configure odd
configure pt
configure lead
configure jsb
switch strict +pt +lead +jsb
send pt 0.1
send jsb 0.1
send lead 0.1 0.2
unload lead
=> cycle 0, a: load ghost: refused, it is not described
    mend: name a controller that the document describes
cycle 0, a: send fwd 0.100000: refused, it is not loaded
    mend: load it first, or leave this call out
cycle 0, a: load odd: refused, it is loaded already
    mend: go on with the one that is loaded, or unload it first
cycle 0, a: send fwd 0.100000: refused, it is not active
    mend: activate it first
cycle 0, a: cleanup fwd: refused, it is not inactive
    mend: deactivate it first if it is active, and leave it as it is if it is unconfigured
cycle 0, a: configure odd: refused, it does not take its parameters
    mend: change its parameters in the document
cycle 1, a: send pt 0.100000: refused, another controller commands it
    mend: send to the controller that commands it, or deactivate that one first
cycle 1, a: send jsb 0.100000: refused, it takes no values
    mend: send to a controller that takes values
cycle 1, a: send lead 0.100000 0.200000: refused, the values do not fit what it claims
    mend: send what its type takes, with one value for each of its claims
cycle 1, a: unload lead: refused, it is active
    mend: deactivate it first"#;

/// A second mock where the stock has one. An unload gives no blank back.
const OF_ONE_BLANK: &str = r#"cycles = 1
[[controller]]
name = "mk"
type = "mock"
[[controller]]
name = "mk2"
type = "mock"
--- script ---
session a
load mk
unload mk
load mk2
=> cycle 0, a: load mk2: refused, none of its type is left in stock
    mend: load fewer of its type, because an unload gives none back"#;

/// More requests than can wait before the only cycle, one that waits as the loop closes, and one after that. Four may
/// wait, so the fifth is turned away.
const LATE: &str = r#"cycles = 1
[[controller]]
name = "mk"
type = "mock"
--- script ---
session a
load mk
configure mk
switch strict
switch strict +mk
switch strict
session b
switch strict
session c
switch strict
session d
switch strict
session e
switch strict
=> cycle 0, e: switch strict: refused, the queue is full
    mend: wait until a request is decided, and ask again
at the close, a: switch strict +mk: not decided, the loop closed
    mend: ask in an earlier cycle, or let the document run more cycles
after the close, a: switch strict: refused, the loop is closed
    mend: ask in an earlier cycle, or let the document run more cycles"#;

/// A request a cycle. That of cycle 3 brings on fwd, and that of cycle 14 a chain in its place. From there on lead
/// commands pt, which may therefore not leave alone.
const CAUSES: &str = r#"cycles = 17
[[component]]
name = "arm"
kind = "system"
[[component.joint]]
name = "j1"
vmax = 1
command = ["position", "velocity"]
state = ["position"]
[[component]]
name = "leg"
kind = "actuator"
initial = "unconfigured"
[[component.joint]]
name = "k1"
vmax = 1
command = ["position"]
state = ["position"]
[[component]]
name = "probe"
kind = "sensor"
initial = "finalized"
[[component.joint]]
name = "tip"
vmax = 0
state = ["position"]
[[controller]]
name = "fwd"
type = "forward"
claims = ["j1/position"]
[[controller]]
name = "other"
type = "forward"
claims = ["j1/position"]
[[controller]]
name = "speed"
type = "forward"
claims = ["j1/velocity"]
[[controller]]
name = "step"
type = "forward"
claims = ["k1/position"]
[[controller]]
name = "pt"
type = "passthrough"
claims = ["j1/position"]
[[controller]]
name = "lead"
type = "forward"
claims = ["pt/j1/position"]
[[controller]]
name = "raw"
type = "mock"
[[controller]]
name = "mk"
type = "mock"
not_ready = [8]
--- script ---
session a
load fwd
load other
load speed
load step
load pt
load lead
load raw
load mk
configure fwd
configure other
configure speed
configure step
configure pt
configure lead
configure mk
switch strict +fwd +fwd
switch strict -fwd
switch strict +raw
switch strict +fwd
switch strict +fwd
switch strict +other
switch strict +speed
switch strict +step
switch strict +mk
switch strict +lead
hw probe active
hw arm unconfigured
switch strict +ghost
hw ghost active
switch best -fwd +pt +lead
switch best -pt +raw +@ghost
switch strict -pt
=> cycle 0, a: switch strict +fwd +fwd: refused, fwd is named twice in one list
    mend: name fwd once in each list
cycle 1, a: switch strict -fwd: refused, fwd is not active
    mend: leave fwd off the list to deactivate
cycle 2, a: switch strict +raw: refused, raw is not configured
    mend: configure raw first
cycle 4, a: switch strict +fwd: refused, fwd is active already
    mend: leave fwd off the list to activate
cycle 5, a: switch strict +other: refused, other claims j1/position, which fwd claims, too
    mend: have only one of other and fwd active at a time
cycle 6, a: switch strict +speed: refused, speed would have j1 driven in two modes
    mend: have only one command interface of j1 claimed at a time
cycle 7, a: switch strict +step: refused, step needs k1/position, which is not available
    mend: bring the component of k1/position to inactive or active first, if it is not finalized
cycle 8, a: switch strict +mk: refused, mk is not ready
    mend: ask for mk again in a later cycle
cycle 9, a: switch strict +lead: refused, lead claims pt/j1/position, whose controller would not be active
    mend: have the controller of pt/j1/position active whenever lead is
cycle 10, a: hw probe active: refused, probe cannot go there
    mend: leave probe as it is, because it is finalized
cycle 11, a: hw arm unconfigured: refused, arm is in use by fwd
    mend: deactivate fwd first
cycle 12, a: switch strict +ghost: refused, ghost is not there
    mend: name a controller that is loaded, or a component that the document describes
cycle 13, a: hw ghost active: refused, ghost is not there
    mend: name a controller that is loaded, or a component that the document describes
cycle 15, a: switch best -pt +raw +@ghost: left out, pt is needed, because pt/j1/position is claimed
    mend: deactivate the controller that claims pt/j1/position, too
cycle 15, a: switch best -pt +raw +@ghost: left out, raw is not configured
    mend: configure raw first
cycle 15, a: switch best -pt +raw +@ghost: left out, no group ghost is described
    mend: describe the group ghost, or name a controller without an @
cycle 16, a: switch strict -pt: refused, lead claims pt/j1/position, whose controller would not be active
    mend: have the controller of pt/j1/position active whenever lead is"#;

/// Who leads is updated first, and stops first.
const FAILURES: &str = r"session a
load pt
load lead
load jsb
load mk
configure pt
configure lead
configure jsb
configure mk
switch strict +lead +pt +jsb +mk
=> cycle 1, mk: its update failed
    mend: take the cycle out of its fail_update in the document
cycle 1, mk: stopped, its update failed
    mend: activate mk again
cycle 2, arm: its read failed
    mend: take the cycle out of its fail_read in the document
cycle 2, lead: stopped, it claims a reference of pt, which was stopped
    mend: activate pt and lead again in one switch
cycle 2, pt: stopped, it uses arm, which failed
    mend: bring arm to active, then activate pt again
cycle 3, hand: its write failed
    mend: take the cycle out of its fail_write in the document
cycle 3, jsb: stopped, it uses hand, which failed and stays finalized
    mend: set on_error of hand to unconfigured in the document";

/// The names on the lists come first, in their order, and then those that were tried.
const LEFT_OUT: &str = r"=> cycle 1, mk: its update failed
    mend: take the cycle out of its fail_update in the document
cycle 1, mk2: its update failed
    mend: take the cycle out of its fail_update in the document
cycle 1, mk: stopped, its update failed
    mend: activate mk again
cycle 1, mk2: stopped, its update failed
    mend: activate mk2 again
cycle 2: fallback spare for mk: left out, spare is not there
    mend: load and configure spare first
cycle 2: fallback fwd for mk: left out, fwd is active already
    mend: nothing, fwd goes on
cycle 2: fallback idle for mk and mk2: left out, idle is named twice in one list
    mend: nothing, idle is asked for once
cycle 2: fallback other for mk: left out, other claims j1/position, which fwd claims, too
    mend: have only one of other and fwd active at a time";

/// Behind a request stand the groups that it names and that are described, each once.
const OF_GROUPS: &str = r#"version = 2
update_rate = 100
cycles = 4
[[controller]]
name = "mk"
type = "mock"
[[controller]]
name = "mk2"
type = "mock"
[[group]]
name = "both"
members = ["mk", "mk2"]
[[group]]
name = "second"
members = ["mk2"]
--- script ---
session a
load mk
load mk2
configure mk
configure mk2
switch best +@both +mk
switch strict -@both +@second +@both
switch strict -@both +@both +@ghost
=> cycle 0, a: switch best +@both +mk (both: mk mk2): left out, mk is named twice in one list
    mend: name mk once in each list
cycle 1, a: switch strict -@both +@second +@both (both: mk mk2; second: mk2): refused, mk2 is named twice in one list
    mend: name mk2 once in each list
cycle 2, a: switch strict -@both +@both +@ghost (both: mk mk2): refused, no group ghost is described
    mend: describe the group ghost, or name a controller without an @"#;

/// A run in which all is done.
const QUIET: &str = r#"cycles = 1
[[controller]]
name = "mk"
type = "mock"
--- script ---
session a
load mk
configure mk
switch strict +mk
=> Nothing was refused, left out or stopped, and nothing failed."#;
