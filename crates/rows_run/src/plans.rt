//! Plans of starts: each with the script that brings exactly the wanted controllers to active, or with why there is
//! none.

use cm_words::JobKind;
use pages_cases::pages::{hold, joined};
use pages_runs::runs::{IN_STOCK, Runs};
use std::alloc::Global;
use std::test::Fail;

#[test]
fn starts_are_planned(rt: HostRuntime) -> Result<(), Fail> {
    let alloc = rt.alloc();
    hold_plans(alloc, &PLAN, ARM, MOCK, STARTS)?;
    hold_plans(alloc, &PLAN, ARM, UNREADY, WAITS)?;
    hold_plans(alloc, &PLAN, FAILING, UNREADY, NO_WAITS)?;
    hold_plans(alloc, &PLAN, DOWN, REFUSING, REFUSALS)
}

#[test]
fn blanks_are_counted_kind_by_kind(rt: HostRuntime) -> Result<(), Fail> {
    hold_plans(rt.alloc(), &OF_ONE_BLANK, ARM, MOCK, BLANKS)
}

#[test]
fn another_script_is_bad_where_it_breaks_the_form(rt: HostRuntime) -> Result<(), Fail> {
    hold_plans(rt.alloc(), &PLAN, ARM, MOCK, FORMS)
}

/// Holds a page of plans for a robot of this component and this mock.
fn hold_plans(alloc: Global, plan: &Runs, arm: &str, mock: &str, page: &str) -> Result<(), Fail> {
    let described = joined(alloc, arm, CONTROLLERS)?;
    let described = joined(alloc, described.as_str(), mock)?;
    let described = joined(alloc, described.as_str(), SESSION)?;
    hold(alloc, plan, described.as_str(), page)
}

/// The job `plan` with the program's stock.
const PLAN: Runs = Runs {
    kind: JobKind::Plan,
    step: 1000,
    in_stock: IN_STOCK,
};

/// And with one blank of each kind.
const OF_ONE_BLANK: Runs = Runs {
    kind: JobKind::Plan,
    step: 1000,
    in_stock: 1,
};

/// A component of one joint that moves by position or by velocity.
const ARM: &str = r#"version = 1
update_rate = 100
cycles = 6
component = [{ name = "arm", kind = "system", joint = [
    { name = "j1", vmax = 1, command = ["position", "velocity"], state = ["position", "velocity"] },
] }]
"#;

/// The same, whose read fails in cycle 1.
const FAILING: &str = r#"version = 1
update_rate = 100
cycles = 6
component = [{ name = "arm", kind = "system", fail_read = [4, 1], joint = [
    { name = "j1", vmax = 1, command = ["position", "velocity"], state = ["position", "velocity"] },
] }]
"#;

/// The same, which is not configured at start.
const DOWN: &str = r#"version = 1
update_rate = 100
cycles = 6
component = [{ name = "arm", kind = "system", initial = "unconfigured", joint = [
    { name = "j1", vmax = 1, command = ["position", "velocity"], state = ["position", "velocity"] },
] }]
"#;

/// Six controllers of it, and behind them a mock.
const CONTROLLERS: &str = r#"controller = [
    { name = "fwd", type = "forward", claims = ["j1/position"] },
    { name = "pid", type = "pid", claims = ["j1/velocity"], reads = ["j1/position"], kp = 2, omax = 10 },
    { name = "traj", type = "trajectory", claims = ["pid/j1/position"], reads = ["j1/position"] },
    { name = "traj2", type = "trajectory", claims = ["j1/position"], reads = ["j1/position"] },
    { name = "jsb", type = "broadcaster", reads = "all" },
    { name = "pt", type = "passthrough", claims = ["pid/j1/position"] },
"#;

const MOCK: &str = r#"    { name = "mk", type = "mock", not_ready = [2], fail_update = [5] },
"#;

/// It is not ready in the first two cycles.
const UNREADY: &str = r#"    { name = "mk", type = "mock", not_ready = [1, 0] },
"#;

const REFUSING: &str = r#"    { name = "mk", type = "mock", refuse_config = true },
"#;

/// The session stands in line 17 of the document.
const SESSION: &str = r#"]
--- script ---
session me
"#;

/// Wanted sets with their scripts; nobody; and what can never be, whoever is asked for first.
const STARTS: &str = r#"switch strict +traj +pid
=> ok
session spawner
load traj
load pid
configure traj
configure pid
switch strict +traj +pid

switch strict +mk +jsb
=> ok
session spawner
load mk
load jsb
configure mk
configure jsb
switch strict +mk +jsb

switch strict
=> ok
session spawner

switch strict +traj
=> plan: never traj missing_follower pid/j1/position

switch strict +fwd +pid
=> plan: never fwd mode_refused j1

switch strict +fwd +traj2
=> plan: never fwd conflict j1/position traj2

switch strict +traj2 +fwd
=> plan: never traj2 conflict j1/position fwd

switch strict +traj +fwd +traj2
=> plan: never traj missing_follower pid/j1/position

switch strict +pid +pt +traj
=> plan: never pt conflict pid/j1/position traj

switch strict +fwd +nosuch +fwd
=> plan: not_described nosuch

switch strict +fwd +traj +fwd
=> plan: twice fwd"#;

/// A mock that is not ready in cycles 0 and 1 starts with cycle 2, and so do all that are wanted with it.
const WAITS: &str = r#"switch strict +mk
=> ok
session spawner
load mk
configure mk
await 2
switch strict +mk

switch strict +fwd +mk
=> ok
session spawner
load fwd
load mk
configure fwd
configure mk
await 2
switch strict +fwd +mk"#;

/// A component that fails in cycle 1 is there with cycles 0 and 1 alone.
const NO_WAITS: &str = r#"switch strict +fwd +mk
=> plan: no_cycle

switch strict +fwd
=> ok
session spawner
load fwd
configure fwd
switch strict +fwd

switch strict +mk
=> ok
session spawner
load mk
configure mk
await 2
switch strict +mk"#;

/// A controller that refuses comes before what can never be, and that before a component that is not there.
const REFUSALS: &str = r#"switch strict +fwd +traj2 +mk
=> plan: refuses_config mk

switch strict +fwd +traj2
=> plan: never fwd conflict j1/position traj2

switch strict +fwd
=> plan: no_cycle

switch strict +jsb
=> plan: no_cycle"#;

/// A second trajectory has no blank, though the first has.
const BLANKS: &str = r#"switch strict +traj2 +pid +traj
=> plan: no_blank traj

switch strict +traj +pid
=> ok
session spawner
load traj
load pid
configure traj
configure pid
switch strict +traj +pid"#;

/// Scripts of other forms: each is bad at the first line that breaks the form, or behind the last if its switch is
/// missing. A script that is bad by itself comes first.
const FORMS: &str = r#"=> script: bad_line 18

# nobody
\s
=> script: bad_line 20

switch best +fwd
=> script: bad_line 18

switch strict +fwd -mk
=> script: bad_line 18

switch strict +@arm
=> script: bad_line 18

load fwd
switch strict +fwd
=> script: bad_line 18

switch strict +fwd
switch strict +mk
=> script: bad_line 19

switch strict +fwd
session you
=> script: bad_line 19

# for the day
switch strict +fwd
\s
schedule
=> script: bad_line 21

load fwd
jump
=> script: bad_line 19

switch strict +fwd
--- trace ---
=> script: bad_line 19"#;
