//! Reads and writes that fail: in the first, a middle and the last cycle, in one cycle both, and listed in any order.

pub(crate) const FAILURES: &str = r#"kind = "actuator"
fail_read = [4, 0, 2, 2]
fail_write = [3, 0, 4]
joint = [{ name = "j", vmax = 1, position = 1, command = ["velocity"], state = ["velocity", "position"] }]
claim 0 => ok
read 0 => error unset unset
write 0 1 => error
step => 1.000000 0.000000 0.000000
read 1 => ok 0.000000 1.000000
write 1 1 => ok
step => 1.010000 1.000000 0.000000
read 2 => error 0.000000 1.000000
step => 1.010000 0.000000 0.000000
read 3 => ok 0.000000 1.010000
write 3 1 => error
step => 1.010000 0.000000 0.000000
read 4 => error 0.000000 1.010000
write 4 1 => error
step => 1.010000 0.000000 0.000000
read 5 => ok 0.000000 1.010000
write 5 1 => ok
step => 1.020000 1.000000 0.000000

kind = "actuator"
fail_write = [1]
joint = [{ name = "j", vmax = 1, command = ["velocity"] }]
claim 0 => ok
write 0 1 => ok
write 1 0.5 => error
step => 0.010000 1.000000 0.000000
write 1 0.5 => error
step => 0.010000 0.000000 0.000000

kind = "sensor"
fail_read = [4294967295, 7, 0, 7]
joint = [{ name = "j", vmax = 1, velocity = 2, state = ["velocity"] }]
read 0 => error unset
read 1 => ok 2.000000
read 6 => ok 2.000000
step => 0.000000 0.000000 0.000000
read 7 => error 2.000000
read 8 => ok 0.000000
read 4294967294 => ok 0.000000
read 4294967295 => error 0.000000
read 4294967296 => ok 0.000000"#;
