//! Documents that several crates of tests run.

/// A mock, asked for by one session, whose lines are 8 to 12 of the document.
pub const FIRST: &str = r#"version = 1
update_rate = 100
cycles = 2
[[controller]]
name = "mk"
type = "mock"
--- script ---
session a
load mk
list controllers
load nosuch
load mk
"#;

/// Two controllers that may command one joint, and a mock. The cycles and the script stand behind it.
pub const ROBOT: &str = r#"version = 1
update_rate = 100
component = [
    { name = "arm", kind = "system", joint = [
        { name = "j1", vmax = 1, command = ["position", "velocity"], state = ["position", "velocity"] },
    ] },
]
controller = [
    { name = "fwd", type = "forward", claims = ["j1/position"] },
    { name = "traj2", type = "trajectory", claims = ["j1/position"], reads = ["j1/position"] },
    { name = "mk", type = "mock" },
]
"#;

/// A joint that a controller moves for three cycles: 321 bytes. Further lines of its session may follow.
pub const MOVED: &str = r#"version = 1
update_rate = 100
cycles = 3
[[component]]
name = "arm"
kind = "actuator"
[[component.joint]]
name = "j1"
vmax = 1
command = ["position"]
state = ["position"]
[[controller]]
name = "fwd"
type = "forward"
claims = ["j1/position"]
--- script ---
session a
load fwd
configure fwd
switch strict +fwd
send fwd 0.5
"#;

/// A case of a page: six joints at 500 hertz with a trajectory for all of them, beside a broadcaster, which publishes
/// what was read before the joints moved; and what the job `run` prints of it.
pub const SIX_JOINTS: &str = r#"version = 1
update_rate = 500
cycles = 4
[[component]]
name = "ur_arm"
kind = "system"
<1..7 * [[component.joint]]
name = "joint_#"
vmax = "3.15"
command = ["position"]
state = ["position", "velocity"]
>\
[[controller]]
name = "joint_state_broadcaster"
type = "broadcaster"
reads = "all"
[[controller]]
name = "joint_trajectory_controller"
type = "trajectory"
claims = [<1..7 * "joint_#/position", >]
reads = [<1..7 * "joint_#/position", >]
--- script ---
session a
load joint_state_broadcaster
load joint_trajectory_controller
configure joint_state_broadcaster
configure joint_trajectory_controller
switch strict +joint_state_broadcaster +joint_trajectory_controller
send joint_trajectory_controller @4000 0.01 0 0 0 0 0
=> ok
a load joint_state_broadcaster: ok 0
a load joint_trajectory_controller: ok 1
a configure joint_state_broadcaster: ok
a configure joint_trajectory_controller: ok
a switch strict +joint_state_broadcaster +joint_trajectory_controller: queued 0
loop begin 0: 0 done
loop end 0: run joint_state_broadcaster ok<0..12 *  0.000000>; run joint_trajectory_controller ok<0..6 *  0.000000>\
<1..7 * ; joint joint_# 0.000000 0.000000 0.000000>
a told 0: done
a send joint_trajectory_controller @4000 0.010000<0..5 *  0.000000>: ok
loop begin 1: none
loop end 1: run joint_state_broadcaster ok<0..12 *  0.000000>; run joint_trajectory_controller ok<0..6 *  0.000000>\
<1..7 * ; joint joint_# 0.000000 0.000000 0.000000>
loop begin 2: none
loop end 2: run joint_state_broadcaster ok<0..12 *  0.000000>; \
run joint_trajectory_controller ok 0.005000<0..5 *  0.000000>; joint joint_1 0.005000 2.500000 0.000000\
<2..7 * ; joint joint_# 0.000000 0.000000 0.000000>
loop begin 3: none
loop end 3: run joint_state_broadcaster ok 0.005000 2.500000<0..10 *  0.000000>; \
run joint_trajectory_controller ok 0.010000<0..5 *  0.000000>; joint joint_1 0.010000 2.500000 0.000000\
<2..7 * ; joint joint_# 0.000000 0.000000 0.000000>
loop close: none"#;
