//! Numbers and counts at the ends of their ranges, and just past them.

/// The numbers of the top table, whatever their order.
pub(crate) const RANGES_OF_THE_TOP: &str = r"version = 1
update_rate = 1
cycles = 0
=> valid

version = 1
update_rate = 10000
cycles = 100000
=> valid

version = 2
update_rate = 1
cycles = 0
=> valid

version = 0
update_rate = 1
cycles = 0
=> bad_range version

cycles = 100001
update_rate = 0
version = 3
=> bad_range version

cycles = 100001
update_rate = 0
version = 1
=> bad_range update_rate

version = 1
update_rate = 10001
cycles = 0
=> bad_range update_rate

version = 1
update_rate = 1
cycles = 100001
=> bad_range cycles";

/// Numbers and counts in components, joints and controllers.
pub(crate) const RANGES: &str = r#"[[component]]
name = "arm"
kind = "actuator"
[[component.joint]]
name = "j1"
vmax = 1
command = ["position"]
state = ["position"]
[[component.joint]]
name = "j2"
vmax = 1
command = ["position"]
state = ["position"]
=> bad_range component[0].joint

[[component]]
name = "arm"
kind = "system"
joint = []
=> bad_range component[0].joint

[[component]]
name = "arm"
kind = "system"
[[component.joint]]
name = "j1"
vmax = 0
command = ["position"]
state = ["position"]
=> valid

[[component]]
name = "arm"
kind = "system"
[[component.joint]]
name = "j1"
vmax = 1
gain = -1
=> bad_range component[0].joint[0].gain

[[component]]
name = "arm"
kind = "system"
[[component.joint]]
name = "j1"
vmax = 1
damping = -1
=> bad_range component[0].joint[0].damping

[[component]]
name = "arm"
kind = "system"
[[component.joint]]
name = "j1"
vmax = 1
gain = 0
damping = 0
=> valid

[[component]]
name = "arm"
kind = "actuator"
joint = []
=> bad_range component[0].joint

[[component]]
name = "arm"
kind = "system"
[[component.joint]]
name = "j1"
vmax = 1
position = -1
velocity = -1
=> valid

[[component]]
name = "eye"
kind = "sensor"
[[component.joint]]
name = "j1"
vmax = 1
command = ["position"]
state = ["position"]
=> bad_range component[0].joint[0].command

[[component]]
name = "eye"
kind = "sensor"
[[component.joint]]
name = "j1"
vmax = 1
state = ["effort"]
=> valid

[[controller]]
name = "m"
type = "mock"
update_rate = 10000
=> valid

[[controller]]
name = "m"
type = "mock"
update_rate = 10001
=> bad_range controller[0].update_rate

[[controller]]
name = "m"
type = "mock"
fallback = ["a", "b", "c", "d", "e", "f", "g", "h", "i"]
=> bad_range controller[0].fallback

[[controller]]
name = "m"
type = "mock"
fallback = ["a", "b", "c", "d", "e", "f", "g", "h"]
=> no_fallback m a

[[controller]]
name = "m"
type = "mock"
claims = []
=> valid"#;

/// The same behind the arm.
pub(crate) const RANGES_OF_AN_ARM: &str = r#"[[component]]
name = "leg"
kind = "sensor"
joint = []
=> bad_range component[1].joint

[[component.joint]]
name = "j2"
vmax = "-0.000001"
command = ["position"]
state = ["position"]
=> bad_range component[0].joint[1].vmax

[[controller]]
name = "f"
type = "forward"
claims = []
=> bad_range controller[0].claims

[[controller]]
name = "f"
type = "passthrough"
claims = []
=> bad_range controller[0].claims

[[controller]]
name = "f"
type = "trajectory"
claims = []
reads = []
=> bad_range controller[0].claims

[[controller]]
name = "p"
type = "pid"
claims = ["j1/position", "j1/velocity"]
reads = ["j1/position"]
=> bad_range controller[0].claims

[[controller]]
name = "p"
type = "pid"
claims = []
reads = ["j1/position"]
=> bad_range controller[0].claims

[[controller]]
name = "p"
type = "pid"
claims = ["j1/position"]
reads = ["j1/position", "j1/velocity"]
=> bad_range controller[0].reads

[[controller]]
name = "p"
type = "pid"
claims = ["j1/position"]
reads = []
=> bad_range controller[0].reads

[[controller]]
name = "t"
type = "trajectory"
claims = ["j1/position"]
reads = []
=> bad_range controller[0].reads

[[controller]]
name = "t"
type = "trajectory"
claims = ["j1/position"]
reads = ["j1/position", "j1/velocity"]
=> bad_range controller[0].reads

[[controller]]
name = "b"
type = "broadcaster"
reads = []
=> valid

[[controller]]
name = "p"
type = "pid"
claims = ["j1/position"]
reads = ["j1/position"]
imax = "-0.000001"
=> bad_range controller[0].imax

[[controller]]
name = "p"
type = "pid"
claims = ["j1/position"]
reads = ["j1/position"]
omax = -1
=> bad_range controller[0].omax

[[controller]]
name = "p"
type = "pid"
claims = ["j1/position"]
reads = ["j1/position"]
kp = -1
ki = -1
kd = -1
omax = 0
=> valid"#;
