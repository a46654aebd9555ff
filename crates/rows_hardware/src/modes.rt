//! Claims that are at odds, and which of a joint's interfaces is applied.

pub(crate) const MODES: &str = r#"kind = "system"
joint = [{ name = "a", vmax = 10, command = ["position", "velocity"] },
  { name = "b", vmax = 10, command = ["effort", "position", "velocity"] }]
claim 1 0 => mode_refused 0
claim 4 1 2 0 => mode_refused 0
claim 4 1 2 => mode_refused 1
claim 2 1 2 => ok
claim 1 4 => ok
write 0 0.5 1 2 0.5 3 => ok
step => 0.010000 1.000000 0.000000; 0.030000 3.000000 0.000000
claim 0 2 => ok
write 1 0.5 1 2 0.5 3 => ok
step => 0.110000 10.000000 0.000000; 0.060200 3.020000 2.000000
claim 3 => ok
write 2 0.5 1 2 0.5 3 => ok
step => 0.110000 0.000000 0.000000; 0.160200 10.000000 0.000000
claim 0 1 => mode_refused 0
write 3 0.5 1 2 0.5 3 => ok
step => 0.110000 0.000000 0.000000; 0.260200 10.000000 0.000000
claim => ok
write 4 0.5 1 2 0.5 3 => ok
step => 0.110000 0.000000 0.000000; 0.260200 0.000000 0.000000

kind = "system"
joint = [{ name = "a", vmax = 1 },
  { name = "b", vmax = 1, command = ["velocity"] },
  { name = "c", vmax = 1, command = ["position", "velocity"] }]
claim 1 2 => mode_refused 2
claim 0 2 => ok
write 0 1 0.5 -1 => ok
step => 0.000000 0.000000 0.000000; 0.010000 1.000000 0.000000; -0.010000 -1.000000 0.000000"#;
