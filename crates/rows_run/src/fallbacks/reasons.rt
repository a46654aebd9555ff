//! Why a controller stops, and whether its fallbacks come.

/// One that uses a component which cannot be read is not updated, so its update does not fail; nor does that of one
/// that leads another. If a write fails in the cycle in which an update fails, that one stops for both, and its
/// fallbacks come.
pub(crate) const REASONS: &str = r#"version = 1
update_rate = 100
cycles = 3
[[component]]
name = "arm"
kind = "actuator"
fail_read = [1]
joint = [{ name = "j1", vmax = 1, command = ["position"] }]
[[controller]]
name = "mk"
type = "mock"
fallback = ["spare"]
claims = ["j1/position"]
fail_update = [1]
[[controller]]
name = "spare"
type = "mock"
--- script ---
session s
load mk
load spare
configure mk
configure spare
switch strict +mk
=> ok
s load mk: ok 0
s load spare: ok 1
s configure mk: ok
s configure spare: ok
s switch strict +mk: queued 0
loop begin 0: 0 done
loop end 0: run mk ok unset; joint j1 0.000000 0.000000 0.000000
s told 0: done
loop begin 1: none
loop end 1: fail arm read; joint j1 0.000000 0.000000 0.000000; stop mk
loop begin 2: none
loop end 2: joint j1 0.000000 0.000000 0.000000
loop close: none

version = 1
update_rate = 100
cycles = 3
[[component]]
name = "arm"
kind = "actuator"
fail_read = [1]
joint = [{ name = "j1", vmax = 1, command = ["velocity"], state = ["position"] }]
[[controller]]
name = "mk"
type = "mock"
fallback = ["spare"]
claims = ["pid/j1/position"]
[[controller]]
name = "pid"
type = "pid"
fallback = ["spare"]
claims = ["j1/velocity"]
reads = ["j1/position"]
kp = 2
omax = 10
[[controller]]
name = "spare"
type = "mock"
--- script ---
session s
load mk
load pid
load spare
configure mk
configure pid
configure spare
switch strict +mk +pid
=> ok
s load mk: ok 0
s load pid: ok 1
s load spare: ok 2
s configure mk: ok
s configure pid: ok
s configure spare: ok
s switch strict +mk +pid: queued 0
loop begin 0: 0 done
loop end 0: run mk ok unset; run pid ok unset; joint j1 0.000000 0.000000 0.000000
s told 0: done
loop begin 1: none
loop end 1: fail arm read; run mk ok unset; joint j1 0.000000 0.000000 0.000000; stop mk; stop pid
loop begin 2: none
loop end 2: joint j1 0.000000 0.000000 0.000000
loop close: none

version = 1
update_rate = 100
cycles = 3
[[component]]
name = "arm"
kind = "actuator"
fail_write = [1]
joint = [{ name = "j1", vmax = 1, command = ["position"] }]
[[controller]]
name = "mk"
type = "mock"
fallback = ["spare"]
claims = ["j1/position"]
fail_update = [1]
[[controller]]
name = "spare"
type = "mock"
--- script ---
session s
load mk
load spare
configure mk
configure spare
switch strict +mk
=> ok
s load mk: ok 0
s load spare: ok 1
s configure mk: ok
s configure spare: ok
s switch strict +mk: queued 0
loop begin 0: 0 done
loop end 0: run mk ok unset; joint j1 0.000000 0.000000 0.000000
s told 0: done
loop begin 1: none
loop end 1: fail arm write; run mk error; joint j1 0.000000 0.000000 0.000000; stop mk
loop begin 2: fallback done
loop end 2: run spare ok; joint j1 0.000000 0.000000 0.000000
loop close: none"#;
