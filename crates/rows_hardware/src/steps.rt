//! Bodies stepped after a write and without one.

pub(crate) const STEPS: &str = r#"kind = "actuator"
joint = [{ name = "j", vmax = 10, damping = "0.5", command = ["effort"], state = ["position", "velocity", "effort"] }]
claim 0 => ok
write 0 2 => ok
step => 0.000200 0.020000 2.000000
read 1 => ok 0.000200 0.020000 2.000000
write 1 2 => ok
step => 0.000599 0.039900 2.000000
step => 0.000599 0.000000 0.000000
read 2 => ok 0.000599 0.000000 0.000000
write 2 unset => ok
step => 0.000599 0.000000 0.000000

kind = "system"
joint = [{ name = "j", vmax = 1, command = ["position"] },
  { name = "k", vmax = 1, position = 2, velocity = 3, command = ["position"] }]
claim 0 => ok
write 0 0.025 9 => ok
step => 0.010000 1.000000 0.000000; 2.000000 0.000000 0.000000
write 1 0.025 9 => ok
step => 0.020000 1.000000 0.000000; 2.000000 0.000000 0.000000
write 2 0.025 9 => ok
step => 0.025000 0.500000 0.000000; 2.000000 0.000000 0.000000

kind = "sensor"
joint = [{ name = "j", vmax = 1, position = "-0.5", velocity = 1, state = ["velocity", "effort", "position"] }]
read 0 => ok 1.000000 0.000000 -0.500000
write 0 => ok
step => -0.500000 0.000000 0.000000
read 1 => ok 0.000000 0.000000 -0.500000

kind = "system"
fail_read = [<0..520000 * 7,>]
fail_write = [8]
joint = [<0..32 * { name = "j#", vmax = 1, command = ["position", "velocity", "effort"], state = ["velocity"] }, >]
read 7 => error<0..32 *  unset>
read 8 => ok<0..32 *  0.000000>
write 8<0..32 *  1 0 0> => error"#;
