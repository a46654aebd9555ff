//! Components whose reads and writes fail, and what is told of it.

/// A component of one joint in a run of five cycles, in the middle of its table.
pub(crate) const ARM: &str = r#"version = 1
update_rate = 100
cycles = 5
[[component]]
name = "arm"
kind = "actuator"
joint = [{ name = "j1", vmax = 1, command = ["position"], state = ["position"] }]
"#;

/// A read or a write fails in the first, a middle and the last cycle. After the first failure neither runs any more, so
/// no cycle that is listed later tells of one; and where the read fails, the write does not run in that cycle.
pub(crate) const OF_ONE_COMPONENT: &str = r#"fail_read = [] => none
fail_read = [0] => 0: fail arm read
fail_read = [2] => 2: fail arm read
fail_read = [4] => 4: fail arm read
fail_read = [5] => none
fail_read = [4294967295] => none
fail_read = [0, 1, 2, 3, 4] => 0: fail arm read
fail_read = [3, 1, 1, 4] => 1: fail arm read
fail_write = [0] => 0: fail arm write
fail_write = [2] => 2: fail arm write
fail_write = [4] => 4: fail arm write
fail_write = [5] => none
fail_write = [4294967295] => none
fail_write = [0, 1, 2, 3, 4] => 0: fail arm write
fail_write = [3, 1, 1, 4] => 1: fail arm write
fail_read = [1]\nfail_write = [1] => 1: fail arm read
fail_read = [3]\nfail_write = [1] => 1: fail arm write
fail_read = [1]\nfail_write = [3] => 1: fail arm read
fail_read = [0, 4]\nfail_write = [0, 4] => 0: fail arm read"#;

/// In both states on error a component is neither read nor written.
pub(crate) const STATES_ON_ERROR: &str =
    r#"on_error = "unconfigured"\nfail_read = [1, 2, 3] => 1: fail arm read
on_error = "finalized"\nfail_read = [1, 2, 3] => 1: fail arm read
on_error = "unconfigured"\nfail_write = [1, 2, 3] => 1: fail arm write
on_error = "finalized"\nfail_write = [1, 2, 3] => 1: fail arm write
on_error = "unconfigured"\nfail_read = [2]\nfail_write = [0, 4] => 0: fail arm write
on_error = "finalized"\nfail_read = [2]\nfail_write = [0, 4] => 0: fail arm write"#;

/// A component is read where it is inactive or active, and written where it is active.
pub(crate) const STATES_AT_START: &str =
    r#"initial = "active"\nfail_read = [2]\nfail_write = [1] => 1: fail arm write
initial = "active"\nfail_read = [2]\nfail_write = [2] => 2: fail arm read
initial = "inactive"\nfail_write = [0, 1, 2, 3, 4] => none
initial = "inactive"\nfail_read = [2]\nfail_write = [1] => 2: fail arm read
initial = "inactive"\nfail_read = [4]\nfail_write = [4] => 4: fail arm read
initial = "unconfigured"\nfail_read = [0, 2, 4]\nfail_write = [0, 2, 4] => none
initial = "finalized"\nfail_read = [0, 2, 4]\nfail_write = [0, 2, 4] => none"#;

/// The keys before the components below.
pub(crate) const TOP: &str = "version = 1\nupdate_rate = 100\ncycles = 5\n";

/// Each component fails for itself, a sensor as the others. In one cycle reads are told before writes, and both as the
/// components are described, whatever their names; at most as many as there are components.
pub(crate) const OF_SEVERAL: &str = r#"component = [
    { name = "arm", kind = "actuator", fail_read = [1], joint = [{ name = "j1", vmax = 1 }] },
    { name = "leg", kind = "actuator", joint = [{ name = "j2", vmax = 1 }] },
]
=> 1: fail arm read

component = [
    { name = "arm", kind = "actuator", fail_write = [3], joint = [{ name = "j1", vmax = 1 }] },
    { name = "leg", kind = "actuator", fail_write = [0, 3], joint = [{ name = "j2", vmax = 1 }] },
]
=> 0: fail leg write | 3: fail arm write

component = [
    { name = "imu", kind = "sensor", fail_write = [2], joint = [{ name = "tilt", vmax = 1, state = ["velocity"] }] },
    { name = "scale", kind = "sensor", fail_read = [4], joint = [{ name = "load", vmax = 1, state = ["effort"] }] },
]
=> 2: fail imu write | 4: fail scale read

component = [
    { name = "hand", kind = "system", fail_read = [3], joint = [{ name = "j1", vmax = 1 }, { name = "j2", vmax = 1 }] },
]
=> 3: fail hand read

component = [
    { name = "d", kind = "sensor", fail_write = [1], joint = [{ name = "j1", vmax = 1 }] },
    { name = "c", kind = "sensor", fail_read = [1], joint = [{ name = "j2", vmax = 1 }] },
    { name = "b", kind = "sensor", fail_write = [1], joint = [{ name = "j3", vmax = 1 }] },
    { name = "a", kind = "sensor", fail_read = [1], fail_write = [1], joint = [{ name = "j4", vmax = 1 }] },
]
=> 1: fail c read | 1: fail a read | 1: fail d write | 1: fail b write

component = [
    { name = "a", kind = "sensor", initial = "inactive", fail_write = [1], joint = [{ name = "j1", vmax = 1 }] },
    { name = "b", kind = "sensor", initial = "finalized", fail_read = [1], joint = [{ name = "j2", vmax = 1 }] },
    { name = "c", kind = "sensor", fail_write = [1], joint = [{ name = "j3", vmax = 1 }] },
]
=> 1: fail c write

component = [
    <0..16 * { name = "c#", kind = "system", fail_read = [4], fail_write = [4], joint = [{ name = "j#", vmax = 1 }] }, >
]
=> 4: fail c0 read<1..16 *  | 4: fail c# read>

component = [
    <0..16 * { name = "c#", kind = "actuator", fail_write = [0], joint = [{ name = "j#", vmax = 1 }] }, >
]
=> 0: fail c0 write<1..16 *  | 0: fail c# write>"#;

/// Failures stand before the joints, and the joints of a component that failed are told as all others.
pub(crate) const WHOLE: &str = r#"version = 1
update_rate = 250
cycles = 3
[[component]]
name = "imu"
kind = "sensor"
on_error = "finalized"
fail_read = [1]
[[component.joint]]
name = "tilt"
vmax = 1
position = "0.125"
state = ["position"]
[[component]]
name = "lift"
kind = "actuator"
fail_write = [1, 2]
[[component.joint]]
name = "fork"
vmax = "0.5"
position = -2
velocity = "0.5"
command = ["velocity"]
state = ["position"]
--- script ---
=> ok
loop begin 0: none
loop end 0: joint tilt 0.125000 0.000000 0.000000; joint fork -2.000000 0.000000 0.000000
loop begin 1: none
loop end 1: fail imu read; fail lift write; \
joint tilt 0.125000 0.000000 0.000000; joint fork -2.000000 0.000000 0.000000
loop begin 2: none
loop end 2: joint tilt 0.125000 0.000000 0.000000; joint fork -2.000000 0.000000 0.000000
loop close: none

version = 1
update_rate = 1
cycles = 1
[[component]]
name = "hand"
kind = "system"
fail_read = [0]
fail_write = [0]
[[component.joint]]
name = "thumb"
vmax = 1
velocity = 1
[[component.joint]]
name = "palm"
vmax = 1
velocity = -1
--- script ---
=> ok
loop begin 0: none
loop end 0: fail hand read; joint thumb 0.000000 0.000000 0.000000; joint palm 0.000000 0.000000 0.000000
loop close: none"#;
