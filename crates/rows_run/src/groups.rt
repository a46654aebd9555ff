//! Runs whose switches name groups: a call prints as it was written, and the members are what is switched.

use pages_cases::pages::hold;
use pages_runs::runs::OF_PROGRAM;
use std::test::Fail;

#[test]
fn groups_are_switched(rt: HostRuntime) -> Result<(), Fail> {
    let alloc = rt.alloc();
    hold(alloc, &OF_PROGRAM, ROBOT, SWITCHES)?;
    hold(alloc, &OF_PROGRAM, FIRST_VERSION, WITHOUT_GROUPS)
}

/// A trajectory above a pid, a group of both, and both ready.
pub(crate) const ROBOT: &str = r#"version = 2
update_rate = 100
cycles = 3
[[component]]
name = "arm"
kind = "system"
joint = [{ name = "j1", vmax = 1, command = ["velocity"], state = ["position"] }]
[[controller]]
name = "pid"
type = "pid"
claims = ["j1/velocity"]
reads = ["j1/position"]
kp = 2
omax = 10
[[controller]]
name = "traj"
type = "trajectory"
claims = ["pid/j1/position"]
reads = ["j1/position"]
[[group]]
name = "motion"
members = ["pid", "traj"]
--- script ---
session a
load pid
load traj
configure pid
configure traj
"#;

/// A group comes and restarts. At best it comes though a member is named twice, and leaves though another group is not
/// described.
pub(crate) const SWITCHES: &str = r"switch strict +@motion
switch strict -@motion +@motion
=> ok
a load pid: ok 0
a load traj: ok 1
a configure pid: ok
a configure traj: ok
a switch strict +@motion: queued 0
loop begin 0: 0 done
loop end 0: run traj ok 0.000000; run pid ok 0.000000; joint j1 0.000000 0.000000 0.000000
a told 0: done
a switch strict -@motion +@motion: queued 1
loop begin 1: 1 done
loop end 1: run traj ok 0.000000; run pid ok 0.000000; joint j1 0.000000 0.000000 0.000000
a told 1: done
loop begin 2: none
loop end 2: run traj ok 0.000000; run pid ok 0.000000; joint j1 0.000000 0.000000 0.000000
loop close: none

switch best +@motion +pid
switch best -@motion +@nosuch +traj
=> ok
a load pid: ok 0
a load traj: ok 1
a configure pid: ok
a configure traj: ok
a switch best +@motion +pid: queued 0
loop begin 0: 0 done dropped pid twice
loop end 0: run traj ok 0.000000; run pid ok 0.000000; joint j1 0.000000 0.000000 0.000000
a told 0: done dropped pid twice
a switch best -@motion +@nosuch +traj: queued 1
loop begin 1: 1 done dropped nosuch no_group, traj missing_follower pid/j1/position
loop end 1: joint j1 0.000000 0.000000 0.000000
a told 1: done dropped nosuch no_group, traj missing_follower pid/j1/position
loop begin 2: none
loop end 2: joint j1 0.000000 0.000000 0.000000
loop close: none";

/// The same robot in the first version, which has no groups.
pub(crate) const FIRST_VERSION: &str = r#"version = 1
update_rate = 100
cycles = 3
[[component]]
name = "arm"
kind = "system"
joint = [{ name = "j1", vmax = 1, command = ["velocity"], state = ["position"] }]
[[controller]]
name = "pid"
type = "pid"
claims = ["j1/velocity"]
reads = ["j1/position"]
kp = 2
omax = 10
[[controller]]
name = "traj"
type = "trajectory"
claims = ["pid/j1/position"]
reads = ["j1/position"]
--- script ---
session a
load pid
load traj
configure pid
configure traj
"#;

/// Its switches may name groups, of which none is described.
pub(crate) const WITHOUT_GROUPS: &str = r"switch strict +@nosuch
switch best +traj -@traj +pid
=> ok
a load pid: ok 0
a load traj: ok 1
a configure pid: ok
a configure traj: ok
a switch strict +@nosuch: queued 0
loop begin 0: 0 refused nosuch no_group
loop end 0: joint j1 0.000000 0.000000 0.000000
a told 0: refused nosuch no_group
a switch best -@traj +traj +pid: queued 1
loop begin 1: 1 done dropped traj no_group
loop end 1: run traj ok 0.000000; run pid ok 0.000000; joint j1 0.000000 0.000000 0.000000
a told 1: done dropped traj no_group
loop begin 2: none
loop end 2: run traj ok 0.000000; run pid ok 0.000000; joint j1 0.000000 0.000000 0.000000
loop close: none";
