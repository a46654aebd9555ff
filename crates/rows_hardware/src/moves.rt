//! A component of each kind through every move, and what moves leave of a write.

pub(crate) const MOVES: &str = r#"kind = "sensor"
joint = [{ name = "j", vmax = 1, state = ["position"] }]
life => active
move active => ok active
move inactive => ok inactive
move inactive => ok inactive
move active => ok active
move unconfigured => ok unconfigured
move unconfigured => ok unconfigured
move inactive => ok inactive
move unconfigured => ok unconfigured
move active => ok active
move finalized => ok finalized
move finalized => ok finalized
move unconfigured => no_such_move finalized
move inactive => no_such_move finalized
move active => no_such_move finalized

kind = "actuator"
initial = "unconfigured"
joint = [{ name = "j", vmax = 1, command = ["position"] }]
life => unconfigured
read 0 => not read
write 0 1 => not written
move active => ok active
move unconfigured => ok unconfigured
move inactive => ok inactive
move finalized => ok finalized
move finalized => ok finalized
move active => no_such_move finalized
move inactive => no_such_move finalized
move unconfigured => no_such_move finalized

kind = "system"
initial = "inactive"
joint = [{ name = "j", vmax = 1, command = ["position"], state = ["position"] },
  { name = "k", vmax = 1, position = "0.5", state = ["position"] }]
life => inactive
read 0 => ok 0.000000 0.500000
write 0 1 => not written
move active => ok active
move inactive => ok inactive
move unconfigured => ok unconfigured
read 1 => not read
move finalized => ok finalized
read 1 => not read
move active => no_such_move finalized

kind = "system"
initial = "finalized"
joint = [{ name = "j", vmax = 1 }]
life => finalized
move unconfigured => no_such_move finalized
move finalized => ok finalized
step => 0.000000 0.000000 0.000000

kind = "actuator"
joint = [{ name = "j", vmax = 1, command = ["velocity"] }]
claim 0 => ok
write 0 1 => ok
move inactive => ok inactive
move active => ok active
step => 0.010000 1.000000 0.000000
write 1 1 => ok
move unconfigured => ok unconfigured
move active => ok active
step => 0.010000 0.000000 0.000000
write 2 1 => ok
move inactive => ok inactive
step => 0.010000 0.000000 0.000000
move active => ok active
step => 0.010000 0.000000 0.000000
write 3 1 => ok
step => 0.020000 1.000000 0.000000"#;
