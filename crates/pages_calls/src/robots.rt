//! Robots, as descriptions.

/// One joint with seven controllers round it.
pub const SEVEN: &str = r#"version = 1
update_rate = 100
cycles = 6
[[component]]
name = "arm"
kind = "system"
joint = [{ name = "j1", vmax = 1, command = ["position", "velocity"], state = ["position", "velocity"] }]
[[controller]]
name = "fwd"
type = "forward"
claims = ["j1/position"]
[[controller]]
name = "pid"
type = "pid"
claims = ["j1/velocity"]
reads = ["j1/position"]
kp = 2
omax = 10
[[controller]]
name = "traj"
type = "trajectory"
claims = ["pid/j1/position"]
reads = ["j1/position"]
[[controller]]
name = "traj2"
type = "trajectory"
claims = ["j1/position"]
reads = ["j1/position"]
[[controller]]
name = "jsb"
type = "broadcaster"
reads = "all"
[[controller]]
name = "mk"
type = "mock"
not_ready = [2]
fail_update = [5]
[[controller]]
name = "pt"
type = "passthrough"
claims = ["pid/j1/position"]
"#;

/// An arm for two controllers at odds, and a leg with three, each above the one before.
pub const ARM_AND_LEG: &str = r#"version = 1
update_rate = 100
cycles = 6
[[component]]
name = "arm"
kind = "system"
joint = [{ name = "j1", vmax = 1, command = ["position", "velocity"], state = ["position"] }]
[[component]]
name = "leg"
kind = "system"
joint = [{ name = "j2", vmax = 1, command = ["position"], state = ["velocity"] }]
[[controller]]
name = "fwd"
type = "forward"
claims = ["j1/position"]
[[controller]]
name = "other"
type = "forward"
claims = ["j1/position"]
[[controller]]
name = "speed"
type = "forward"
claims = ["j1/velocity"]
[[controller]]
name = "top"
type = "forward"
claims = ["middle/j2/position"]
[[controller]]
name = "middle"
type = "passthrough"
claims = ["base/j2/position"]
[[controller]]
name = "base"
type = "passthrough"
claims = ["j2/position"]
[[controller]]
name = "watch"
type = "broadcaster"
reads = ["j2/velocity"]
"#;

/// Each controller claims a reference of the one before it.
pub const RISING: &str = r#"version = 1
update_rate = 100
cycles = 1
[[component]]
name = "arm"
kind = "system"
joint = [{ name = "j", vmax = 1, command = ["position"] }]
[[controller]]
name = "c0"
type = "passthrough"
claims = ["j/position"]
<0..63 * [[controller]]
name = "c#'"
type = "passthrough"
claims = ["c#/j/position"]
>"#;

/// Each controller claims a reference of the one behind it.
pub const SINKING: &str = r#"version = 1
update_rate = 100
cycles = 1
[[component]]
name = "arm"
kind = "system"
joint = [{ name = "j", vmax = 1, command = ["position"] }]
<0..63 * [[controller]]
name = "c#"
type = "passthrough"
claims = ["c#'/j/position"]
>[[controller]]
name = "c63"
type = "passthrough"
claims = ["j/position"]
"#;
