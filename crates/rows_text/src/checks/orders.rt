//! Two faults in one description: the order of the checks decides, not that of the text.

/// Two faults in each.
pub(crate) const ORDERS: &str = r#"[[controller]]
name = "p"
type = "passthrough"
claims = ["p/j1/position"]
[[controller]]
name = "f"
type = "forward"
claims = ["j9/effort"]
=> no_interface f j9/effort

[[controller]]
name = "p"
type = "passthrough"
fallback = ["q"]
claims = ["p/j1/position"]
=> no_fallback p q

[[controller]]
name = "f"
type = "forward"
fallback = ["a", "b", "c", "d", "e", "f", "g", "h", "i"]
claims = []
=> bad_range controller[0].fallback

[[controller]]
name = "f"
type = "forward"
claims = ["j9/effort"]
[[controller]]
name = "f"
type = "mock"
=> name_twice f

[[controller]]
name = "p"
type = "passthrough"
claims = ["p/j1/position"]
[[controller]]
name = "m"
type = "mock"
[[controller]]
name = "m"
type = "mock"
=> name_twice m

[[controller]]
name = "p"
type = "passthrough"
claims = ["p/j1/position"]
[[controller]]
name = "m"
type = "mock"
update_rate = 10001
=> bad_range controller[1].update_rate

[[controller]]
name = "m"
type = "mock"
[[controller]]
name = "m"
type = "mock"
[[component]]
name = "arm"
kind = "system"
[[component.joint]]
name = "j1"
vmax = 1
command = ["position"]
state = ["position"]
[[component]]
name = "leg"
kind = "system"
[[component.joint]]
name = "j1"
vmax = 1
command = ["position"]
state = ["position"]
=> name_twice j1

[[component]]
name = "arm"
kind = "system"
[[component.joint]]
name = "j1"
vmax = 1
damping = -1
gain = -1
=> bad_range component[0].joint[0].gain

[[component]]
name = "arm"
kind = "actuator"
[[component.joint]]
name = "j1"
vmax = -1
command = ["position"]
state = ["position"]
[[component.joint]]
name = "j2"
vmax = 1
command = ["position"]
state = ["position"]
=> bad_range component[0].joint

[[controller]]
name = "m"
type = "mock"
update_rate = 10001
[[component]]
name = "arm"
kind = "system"
joint = []
=> bad_range component[0].joint"#;

/// The same behind the arm.
pub(crate) const ORDERS_OF_AN_ARM: &str = r#"[[controller]]
name = "a"
type = "mock"
update_rate = 10001
[[controller]]
name = "a"
type = "mock"
=> name_twice a

[[controller]]
name = "f"
type = "forward"
claims = ["j9/effort"]
[[controller]]
name = "m"
type = "mock"
update_rate = 10001
=> bad_range controller[1].update_rate

[[component]]
name = "leg"
kind = "system"
[[component.joint]]
name = "j1"
vmax = 1
command = ["position"]
state = ["position"]
[[component]]
name = "leg"
kind = "system"
[[component.joint]]
name = "j2"
vmax = 1
command = ["position"]
state = ["position"]
=> name_twice leg

[[controller]]
name = "p"
type = "passthrough"
claims = ["a/j1/position", "b/j1/position"]
[[controller]]
name = "m"
type = "mock"
[[controller]]
name = "m"
type = "mock"
=> name_twice m

[[controller]]
name = "f"
type = "forward"
claims = ["j1/effort", "j1/effort"]
[[controller]]
name = "p"
type = "passthrough"
claims = ["a/j1/position", "b/j1/position"]
=> name_twice p/j1/position

[[controller]]
name = "m"
type = "mock"
reads = ["j1/position", "j1/position"]
claims = ["j1/effort", "j1/effort"]
=> name_twice j1/effort

[[controller]]
name = "m"
type = "mock"
reads = ["j1/position", "j1/position"]
[[controller]]
name = "n"
type = "mock"
claims = ["j1/effort", "j1/effort"]
=> name_twice j1/position

[[controller]]
name = "p"
type = "pid"
claims = []
reads = []
=> bad_range controller[0].claims

[[controller]]
name = "p"
type = "pid"
claims = ["j1/position"]
reads = []
imax = -1
=> bad_range controller[0].reads"#;
