//! Lists, some with one bad item.

/// A joint, to which the cases add.
pub(crate) const JOINT: &str = r#"version = 1
update_rate = 100
cycles = 5
[[component]]
name = "arm"
kind = "system"
[[component.joint]]
name = "j1"
vmax = 1
"#;

/// Its lists.
pub(crate) const OF_A_JOINT: &str = r#"command = ["position", "velocity", "effort"]
=> read

command = ["position", "position", "x"]
=> bad_value component[0].joint[0].command[1]

command = ["effort", "x", "effort"]
=> bad_value component[0].joint[0].command[1]

command = ["effort", "position", "effort"]
=> bad_value component[0].joint[0].command[2]

command = ["Effort"]
=> bad_value component[0].joint[0].command[0]

state = ["velocity", 1.5]
=> bad_value component[0].joint[0].state[1]

state = ["velocity", "velocity"]
command = [7]
=> bad_value component[0].joint[0].command[0]

state = "velocity"
=> bad_value component[0].joint[0].state"#;

/// A component.
pub(crate) const COMPONENT: &str = r#"version = 1
update_rate = 100
cycles = 5
[[component]]
name = "arm"
kind = "system"
joint = []
"#;

/// Its lists.
pub(crate) const OF_A_COMPONENT: &str = r#"fail_read = [0, 4294967295, 0]
=> read

fail_read = [1, 4294967296, 2]
=> bad_value component[0].fail_read[1]

fail_read = [-1]
=> bad_value component[0].fail_read[0]

fail_read = [1, 1.5, "x"]
=> float_given component[0].fail_read[1]

fail_read = [1, "x", 1.5]
=> bad_value component[0].fail_read[1]

fail_read = [1, 2, [3]]
=> bad_value component[0].fail_read[2]

fail_write = [nan]
fail_read = [true]
=> bad_value component[0].fail_read[0]

fail_write = [nan]
=> float_given component[0].fail_write[0]"#;

/// A mock.
pub(crate) const MOCK: &str = r#"version = 1
update_rate = 100
cycles = 5
[[controller]]
name = "c"
type = "mock"
"#;

/// Its lists.
pub(crate) const OF_A_MOCK: &str = r#"not_ready = [3, {}]
=> bad_value controller[0].not_ready[1]

fail_update = [1.0]
not_ready = [2.0]
=> float_given controller[0].not_ready[0]

claims = ["j1/position", "j1/position", "c/j1/effort"]
=> read

claims = ["j1/position", "j1", 7]
=> bad_value controller[0].claims[1]

claims = [1.5]
=> bad_value controller[0].claims[0]

claims = ["a/b/c/effort"]
=> bad_value controller[0].claims[0]

claims = ["j1/torque"]
=> bad_value controller[0].claims[0]

claims = "all"
=> bad_value controller[0].claims

reads = ["j1/effort", "c/j1/effort", 7]
=> bad_value controller[0].reads[1]

reads = ["j1/effort", "j1/effort"]
=> read

reads = "all"
=> bad_value controller[0].reads"#;
