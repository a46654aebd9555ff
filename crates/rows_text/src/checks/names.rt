//! Names that stand twice.

/// Names in each space.
pub(crate) const NAMES: &str = r#"[[component]]
name = "x"
kind = "system"
[[component.joint]]
name = "x"
vmax = 1
command = ["position"]
state = ["position"]
[[controller]]
name = "x"
type = "mock"
=> valid

[[controller]]
name = "b"
type = "mock"
[[controller]]
name = "a"
type = "mock"
[[controller]]
name = "a"
type = "mock"
[[controller]]
name = "b"
type = "mock"
=> name_twice a"#;

/// The same behind the arm.
pub(crate) const NAMES_OF_AN_ARM: &str = r#"[[component]]
name = "arm"
kind = "system"
[[component.joint]]
name = "j2"
vmax = 1
command = ["position"]
state = ["position"]
=> name_twice arm

[[component]]
name = "leg"
kind = "system"
[[component.joint]]
name = "j1"
vmax = 1
command = ["position"]
state = ["position"]
=> name_twice j1

[[component.joint]]
name = "j2"
vmax = 1
command = ["position"]
state = ["position"]
[[component.joint]]
name = "j1"
vmax = 1
command = ["position"]
state = ["position"]
=> name_twice j1

[[controller]]
name = "a"
type = "passthrough"
claims = ["j1/position"]
[[controller]]
name = "b"
type = "passthrough"
claims = ["j1/position"]
[[controller]]
name = "p"
type = "passthrough"
claims = ["a/j1/position", "b/j1/position"]
=> name_twice p/j1/position

[[controller]]
name = "f"
type = "forward"
claims = ["j1/position", "j1/velocity", "j1/position"]
=> name_twice j1/position

[[controller]]
name = "m"
type = "mock"
reads = ["j1/position", "j1/position"]
=> name_twice j1/position

[[controller]]
name = "m"
type = "mock"
fallback = ["k", "k"]
=> name_twice k

[[controller]]
name = "m"
type = "mock"
fallback = ["k", "k"]
reads = ["j1/position", "j1/position"]
=> name_twice j1/position

[[controller]]
name = "f"
type = "forward"
claims = ["j1/position"]
[[controller]]
name = "g"
type = "forward"
claims = ["j1/position"]
=> valid"#;
