//! What controllers claim and read: there or not there, in chains or in loops.

/// Chains and loops, and what is not there.
pub(crate) const LINKS: &str = r#"[[component]]
name = "arm"
kind = "system"
[[component.joint]]
name = "j1"
vmax = 1
state = ["position"]
[[controller]]
name = "f"
type = "forward"
claims = ["j1/position"]
=> no_interface f j1/position

[[component]]
name = "arm"
kind = "system"
[[component.joint]]
name = "j1"
vmax = 1
command = ["position"]
[[controller]]
name = "m"
type = "mock"
reads = ["j1/position"]
=> no_interface m j1/position

[[controller]]
name = "m"
type = "mock"
fallback = ["k"]
[[controller]]
name = "k"
type = "mock"
fallback = ["m", "l"]
=> no_fallback k l

[[controller]]
name = "m"
type = "mock"
fallback = ["m"]
=> no_fallback m m

[[controller]]
name = "m"
type = "mock"
fallback = ["k"]
reads = ["j1/position"]
=> no_interface m j1/position

[[controller]]
name = "p"
type = "passthrough"
claims = ["q/j1/position"]
[[controller]]
name = "q"
type = "passthrough"
claims = ["p/j1/position"]
=> chain_loop p

[[controller]]
name = "p"
type = "passthrough"
claims = ["p/j1/position"]
=> chain_loop p

[[controller]]
name = "a"
type = "passthrough"
claims = ["b/j1/position"]
[[controller]]
name = "b"
type = "passthrough"
claims = ["c/j1/position"]
[[controller]]
name = "c"
type = "passthrough"
claims = ["d/j1/position"]
[[controller]]
name = "d"
type = "passthrough"
claims = ["b/j1/position"]
=> chain_loop b"#;

/// The same behind the arm.
pub(crate) const LINKS_OF_AN_ARM: &str = r#"[[controller]]
name = "f"
type = "forward"
claims = ["p/j1/position"]
=> no_interface f p/j1/position

[[controller]]
name = "f"
type = "forward"
claims = ["j1/position"]
[[controller]]
name = "g"
type = "forward"
claims = ["f/j1/position"]
=> no_interface g f/j1/position

[[controller]]
name = "p"
type = "passthrough"
claims = ["j1/position"]
[[controller]]
name = "g"
type = "forward"
claims = ["p/j1/velocity"]
=> no_interface g p/j1/velocity

[[controller]]
name = "p"
type = "pid"
claims = ["j1/position"]
reads = ["j1/position"]
[[controller]]
name = "t"
type = "trajectory"
claims = ["p/j1/position"]
reads = ["j1/position"]
=> valid

[[controller]]
name = "m"
type = "mock"
claims = ["j9/effort"]
reads = ["j8/effort"]
=> no_interface m j9/effort

[[controller]]
name = "m"
type = "mock"
reads = ["j8/effort"]
[[controller]]
name = "n"
type = "mock"
claims = ["j9/effort"]
=> no_interface m j8/effort

[[controller]]
name = "f"
type = "forward"
claims = ["j1/position", "j9/effort", "j8/effort"]
=> no_interface f j9/effort

[[controller]]
name = "a"
type = "passthrough"
claims = ["b/j1/position"]
[[controller]]
name = "b"
type = "passthrough"
claims = ["c/j1/position"]
[[controller]]
name = "c"
type = "passthrough"
claims = ["d/j1/position"]
[[controller]]
name = "d"
type = "passthrough"
claims = ["e/j1/position"]
[[controller]]
name = "e"
type = "passthrough"
claims = ["j1/position"]
=> valid"#;
