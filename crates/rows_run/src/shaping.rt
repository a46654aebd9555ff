//! Whole runs of transmissions, differentials and limiters.

use pages_cases::pages::hold;
use pages_runs::runs::OF_PROGRAM;
use std::test::Fail;

/// A joint behind a gear, with a limiter above that.
pub(crate) const GEARED: &str = r#"version = 1
update_rate = 100
cycles = 6
[[component]]
name = "arm"
kind = "system"
[[component.joint]]
name = "j1"
vmax = 100
command = ["position"]
state = ["position"]
[[controller]]
name = "gear"
type = "transmission"
claims = ["j1/position"]
reduction = 3
offset = "0.1"
[[controller]]
name = "soft"
type = "limiter"
claims = ["gear/j1/position"]
reads = ["j1/position"]
min = -1
max = 1
vmax = 1
amax = 10
[[controller]]
name = "goal"
type = "forward"
claims = ["soft/j1/position"]
"#;

/// Two joints, and controllers of one and of both.
pub(crate) const WRIST: &str = r#"version = 1
update_rate = 100
cycles = 6
[[component]]
name = "arm"
kind = "system"
[[component.joint]]
name = "j1"
vmax = 100
command = ["position"]
state = ["position"]
[[component.joint]]
name = "j2"
vmax = 100
command = ["position"]
state = ["position"]
[[controller]]
name = "gear"
type = "transmission"
claims = ["j1/position"]
reduction = 3
offset = "0.1"
[[controller]]
name = "wrist"
type = "differential"
claims = ["j1/position", "j2/position"]
reduction1 = 2
reduction2 = 2
"#;

/// A limiter above a transmission is updated before it, and needs it. What it was sent counts until a controller comes
/// above it. Then it restarts chained, from where its joint stands, without a step.
pub(crate) const CHAINED: &str = r"--- script ---
session a
load gear
load soft
load goal
configure gear
configure soft
configure goal
switch strict +soft
switch strict +gear +soft
send gear 0.5
send soft 0.5 0.5
send soft @20000 0.5
send soft 0.006
await 4
switch strict +goal
=> ok
a load gear: ok 0
a load soft: ok 1
a load goal: ok 2
a configure gear: ok
a configure soft: ok
a configure goal: ok
a switch strict +soft: queued 0
loop begin 0: 0 refused soft missing_follower gear/j1/position
loop end 0: joint j1 0.000000 0.000000 0.000000
a told 0: refused soft missing_follower gear/j1/position
a switch strict +gear +soft: queued 1
loop begin 1: 1 done
loop end 1: run soft ok 0.000000; run gear ok -0.300000; joint j1 -0.300000 -30.000000 0.000000
a told 1: done
a send gear 0.500000: chained
a send soft 0.500000 0.500000: wrong_count
a send soft @20000 0.500000: wrong_count
a send soft 0.006000: ok
loop begin 2: none
loop end 2: run soft ok 0.001000; run gear ok -0.297000; joint j1 -0.297000 0.300000 0.000000
loop begin 3: none
loop end 3: run soft ok 0.003000; run gear ok -0.291000; joint j1 -0.291000 0.600000 0.000000
a await 4: ok
a switch strict +goal: queued 2
loop begin 4: 2 done
loop end 4: run goal ok unset; run soft ok -0.297000; run gear ok -1.191000; joint j1 -1.191000 -90.000000 0.000000
a told 2: done
loop begin 5: none
loop end 5: run goal ok unset; run soft ok -0.297000; run gear ok -1.191000; joint j1 -1.191000 0.000000 0.000000
loop close: none";

/// A differential claims two joints, and a transmission may not claim one of them beside it. A restart forgets what it
/// was sent.
pub(crate) const CLAIMED: &str = r"--- script ---
session a
load wrist
load gear
configure wrist
configure gear
switch strict +wrist
switch strict +gear
send wrist 0.3
send wrist 0.3 0.1
await 3
switch strict -wrist +wrist
list controllers
=> ok
a load wrist: ok 0
a load gear: ok 1
a configure wrist: ok
a configure gear: ok
a switch strict +wrist: queued 0
loop begin 0: 0 done
loop end 0: run wrist ok unset unset; joint j1 0.000000 0.000000 0.000000; joint j2 0.000000 0.000000 0.000000
a told 0: done
a switch strict +gear: queued 1
loop begin 1: 1 refused gear conflict j1/position wrist
loop end 1: run wrist ok unset unset; joint j1 0.000000 0.000000 0.000000; joint j2 0.000000 0.000000 0.000000
a told 1: refused gear conflict j1/position wrist
a send wrist 0.300000: wrong_count
a send wrist 0.300000 0.100000: ok
loop begin 2: none
loop end 2: run wrist ok 0.800000 0.400000; joint j1 0.800000 80.000000 0.000000; joint j2 0.400000 40.000000 0.000000
a await 3: ok
a switch strict -wrist +wrist: queued 2
loop begin 3: 2 done
loop end 3: run wrist ok unset unset; joint j1 0.800000 0.000000 0.000000; joint j2 0.400000 0.000000 0.000000
a told 2: done
a list controllers: wrist differential active 0 every 1; gear transmission inactive 1 every 1
loop begin 4: none
loop end 4: run wrist ok unset unset; joint j1 0.800000 0.000000 0.000000; joint j2 0.400000 0.000000 0.000000
loop begin 5: none
loop end 5: run wrist ok unset unset; joint j1 0.800000 0.000000 0.000000; joint j2 0.400000 0.000000 0.000000
loop close: none";

#[test]
fn controllers_that_shape_a_command_run_in_chains(rt: HostRuntime) -> Result<(), Fail> {
    let alloc = rt.alloc();
    hold(alloc, &OF_PROGRAM, GEARED, CHAINED)?;
    hold(alloc, &OF_PROGRAM, WRIST, CLAIMED)
}
