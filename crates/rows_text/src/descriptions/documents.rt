//! Whole descriptions, and all that is read of each: a line for the top table, a component, a joint, a controller.

/// One joint with a forward controller; seven controllers of six types round one joint; an arm of six joints with a
/// trajectory and a broadcaster; and every key of the components, of a pid and of a mock, in another order than that
/// in which they are visited.
pub(crate) const WHOLE: &str = r#"version = 1
update_rate = 100
cycles = 3
\n\
[[component]]
name = "arm"
kind = "actuator"
\n\
[[component.joint]]
name = "j1"
vmax = 1
command = ["position"]
state = ["position"]
\n\
[[controller]]
name = "fwd"
type = "forward"
claims = ["j1/position"]
=> 1 100 3
component arm actuator active unconfigured [] []
joint j1 1000000 1000000 0 0 0 [position] [position]
controller fwd 0 [j1/position] [] forward 1

version = 1
update_rate = 100
cycles = 6
[[component]]
name = "arm"
kind = "system"
[[component.joint]]
name = "j1"
vmax = 1
command = ["position", "velocity"]
state = ["position", "velocity"]
[[controller]]
name = "fwd"
type = "forward"
claims = ["j1/position"]
[[controller]]
name = "pid"
type = "pid"
claims = ["j1/velocity"]
reads = ["j1/position"]
kp = 2
omax = 10
[[controller]]
name = "traj"
type = "trajectory"
claims = ["pid/j1/position"]
reads = ["j1/position"]
[[controller]]
name = "traj2"
type = "trajectory"
claims = ["j1/position"]
reads = ["j1/position"]
[[controller]]
name = "jsb"
type = "broadcaster"
reads = "all"
[[controller]]
name = "mk"
type = "mock"
not_ready = [2]
fail_update = [5]
[[controller]]
name = "pt"
type = "passthrough"
claims = ["pid/j1/position"]
=> 1 100 6
component arm system active unconfigured [] []
joint j1 1000000 1000000 0 0 0 [position velocity] [position velocity]
controller fwd 0 [j1/position] [] forward 1
controller pid 0 [j1/velocity] [j1/position] pid 2000000 0 0 0 10000000
controller traj 0 [pid/j1/position] [j1/position] trajectory 1
controller traj2 0 [j1/position] [j1/position] trajectory 1
controller jsb 0 [] [j1/position j1/velocity] broadcaster 2
controller mk 0 [] [] mock 0 false [2] [5]
controller pt 0 [pid/j1/position] [] passthrough 1

version = 1
update_rate = 500
cycles = 4
[[component]]
name = "ur_arm"
kind = "system"
[[component.joint]]
name = "shoulder_pan_joint"
vmax = "3.15"
command = ["position"]
state = ["position", "velocity"]
[[component.joint]]
name = "shoulder_lift_joint"
vmax = "3.15"
command = ["position"]
state = ["position", "velocity"]
[[component.joint]]
name = "elbow_joint"
vmax = "3.15"
command = ["position"]
state = ["position", "velocity"]
[[component.joint]]
name = "wrist_1_joint"
vmax = "3.15"
command = ["position"]
state = ["position", "velocity"]
[[component.joint]]
name = "wrist_2_joint"
vmax = "3.15"
command = ["position"]
state = ["position", "velocity"]
[[component.joint]]
name = "wrist_3_joint"
vmax = "3.15"
command = ["position"]
state = ["position", "velocity"]
[[controller]]
name = "joint_state_broadcaster"
type = "broadcaster"
reads = "all"
[[controller]]
name = "joint_trajectory_controller"
type = "trajectory"
claims = ["shoulder_pan_joint/position", "shoulder_lift_joint/position", "elbow_joint/position", \
"wrist_1_joint/position", "wrist_2_joint/position", "wrist_3_joint/position"]
reads = ["shoulder_pan_joint/position", "shoulder_lift_joint/position", "elbow_joint/position", \
"wrist_1_joint/position", "wrist_2_joint/position", "wrist_3_joint/position"]
=> 1 500 4
component ur_arm system active unconfigured [] []
joint shoulder_pan_joint 3150000 1000000 0 0 0 [position] [position velocity]
joint shoulder_lift_joint 3150000 1000000 0 0 0 [position] [position velocity]
joint elbow_joint 3150000 1000000 0 0 0 [position] [position velocity]
joint wrist_1_joint 3150000 1000000 0 0 0 [position] [position velocity]
joint wrist_2_joint 3150000 1000000 0 0 0 [position] [position velocity]
joint wrist_3_joint 3150000 1000000 0 0 0 [position] [position velocity]
controller joint_state_broadcaster 0 [] [shoulder_pan_joint/position shoulder_pan_joint/velocity \
shoulder_lift_joint/position shoulder_lift_joint/velocity elbow_joint/position elbow_joint/velocity \
wrist_1_joint/position wrist_1_joint/velocity wrist_2_joint/position wrist_2_joint/velocity \
wrist_3_joint/position wrist_3_joint/velocity] broadcaster 12
controller joint_trajectory_controller 0 [shoulder_pan_joint/position shoulder_lift_joint/position \
elbow_joint/position wrist_1_joint/position wrist_2_joint/position wrist_3_joint/position] \
[shoulder_pan_joint/position shoulder_lift_joint/position elbow_joint/position wrist_1_joint/position \
wrist_2_joint/position wrist_3_joint/position] trajectory 6

cycles = 100000
update_rate = 10000
version = 1
[[controller]]
omax = "2.5"
imax = 3
kd = "-0.000001"
ki = 5
kp = 6
reads = ["b/velocity"]
claims = ["b/effort"]
update_rate = 50
type = "pid"
name = "p"
[[controller]]
fail_update = [4, 3]
not_ready = [2, 2]
refuse_config = true
reads = ["b/velocity", "b/position"]
claims = ["b/effort", "p/b/velocity", "b/position"]
update_rate = 7
type = "mock"
name = "m"
[[component]]
fail_write = [9, 8]
fail_read = [7]
on_error = "finalized"
initial = "inactive"
kind = "system"
name = "c1"
[[component.joint]]
state = ["velocity", "position", "effort"]
command = ["effort", "position"]
velocity = "-0.25"
position = -4
damping = "0.5"
gain = 3
vmax = 2
name = "b"
[[component]]
joint = []
kind = "sensor"
name = "c2"
initial = "finalized"
=> 1 10000 100000
component c1 system inactive finalized [7] [9 8]
joint b 2000000 3000000 500000 -4000000 -250000 [effort position] [velocity position effort]
component c2 sensor finalized unconfigured [] []
controller p 50 [b/effort] [b/velocity] pid 6000000 5000000 -1 3000000 2500000
controller m 7 [b/effort p/b/velocity b/position] [b/velocity b/position] mock 3 true [2 2] [4 3]"#;

/// What stands where a key is missing, behind the keys that the top table must have.
pub(crate) const DEFAULTS: &str = r#"=> 1 100 5

component = []
controller = []
=> 1 100 5

[[component]]
name = "a"
kind = "sensor"
joint = []
=> 1 100 5
component a sensor active unconfigured [] []

[[component]]
name = "a"
kind = "sensor"
joint = [{name = "j", vmax = 0}]
=> 1 100 5
component a sensor active unconfigured [] []
joint j 0 1000000 0 0 0 [] []

[[controller]]
name = "c"
type = "pid"
claims = []
reads = []
=> 1 100 5
controller c 0 [] [] pid 0 0 0 0 1000000000000000

[[controller]]
name = "c"
type = "mock"
=> 1 100 5
controller c 0 [] [] mock 0 false [] []

[[controller]]
name = "c"
type = "broadcaster"
reads = []
=> 1 100 5
controller c 0 [] [] broadcaster 0

[[controller]]
name = "c"
type = "transmission"
claims = ["j/velocity"]
reduction = "2.5"
=> 1 100 5
controller c 0 [j/velocity] [] transmission velocity 2500000 0

[[controller]]
name = "c"
type = "differential"
claims = ["j/position", "k/position"]
reduction1 = 2
reduction2 = 3
offset2 = "0.5"
=> 1 100 5
controller c 0 [j/position k/position] [] differential position 2000000 3000000 0 500000

[[controller]]
name = "c"
type = "limiter"
claims = ["j/position"]
reads = ["j/position"]
min = -1
max = 1
vmax = 2
amax = 3
=> 1 100 5
controller c 0 [j/position] [j/position] limiter -1000000 1000000 2000000 3000000

[[controller]]
name = "c"
type = "broadcaster"
reads = "all"
=> 1 100 5
controller c 0 [] [] broadcaster 0

[[controller]]
name = "c"
type = "broadcaster"
reads = "all"
[[component]]
name = "a"
kind = "system"
joint = [{name = "j1", vmax = 1, state = ["effort", "position"]}, {name = "j2", vmax = 1}, {name = "j3", \
vmax = 1, state = ["velocity"]}]
=> 1 100 5
component a system active unconfigured [] []
joint j1 1000000 1000000 0 0 0 [] [effort position]
joint j2 1000000 1000000 0 0 0 [] []
joint j3 1000000 1000000 0 0 0 [] [velocity]
controller c 0 [] [j1/effort j1/position j3/velocity] broadcaster 3"#;
