//! Those that stand in want a joint: who is left out and why, and what requests of the same begin come to.

/// A joint that is commanded by its position or by its velocity, and mocks that fail in cycle 1 and name those that
/// command it. A script follows, of a session that has begun.
pub(crate) const ARM: &str = r#"version = 1
update_rate = 100
cycles = 3
[[component]]
name = "arm"
kind = "actuator"
joint = [{ name = "j1", vmax = 1, command = ["position", "velocity"], state = ["position"] }]
[[controller]]
name = "mk"
type = "mock"
fallback = ["other", "fwd"]
fail_update = [1]
[[controller]]
name = "m2"
type = "mock"
fallback = ["traj", "pid"]
fail_update = [1]
[[controller]]
name = "m3"
type = "mock"
fallback = ["fwd", "vel"]
fail_update = [1]
[[controller]]
name = "fwd"
type = "forward"
claims = ["j1/position"]
[[controller]]
name = "other"
type = "forward"
claims = ["j1/position"]
[[controller]]
name = "vel"
type = "forward"
claims = ["j1/velocity"]
[[controller]]
name = "pid"
type = "pid"
claims = ["j1/velocity"]
reads = ["j1/position"]
kp = 2
omax = 10
[[controller]]
name = "traj"
type = "trajectory"
claims = ["pid/j1/position"]
reads = ["j1/position"]
--- script ---
session s
"#;

/// Of two that command one joint the first of the list comes, or the one that is active already. A follower comes
/// before the one that leads it, wherever it stands in the list.
pub(crate) const LEFT_OUT: &str = r"load mk
load fwd
load other
configure mk
configure fwd
configure other
switch strict +mk
=> ok
s load mk: ok 0
s load fwd: ok 1
s load other: ok 2
s configure mk: ok
s configure fwd: ok
s configure other: ok
s switch strict +mk: queued 0
loop begin 0: 0 done
loop end 0: run mk ok; joint j1 0.000000 0.000000 0.000000
s told 0: done
loop begin 1: none
loop end 1: run mk error; joint j1 0.000000 0.000000 0.000000; stop mk
loop begin 2: fallback done dropped fwd conflict j1/position other
loop end 2: run other ok unset; joint j1 0.000000 0.000000 0.000000
loop close: none

load mk
load fwd
load other
configure mk
configure fwd
configure other
switch strict +mk +fwd
=> ok
s load mk: ok 0
s load fwd: ok 1
s load other: ok 2
s configure mk: ok
s configure fwd: ok
s configure other: ok
s switch strict +mk +fwd: queued 0
loop begin 0: 0 done
loop end 0: run mk ok; run fwd ok unset; joint j1 0.000000 0.000000 0.000000
s told 0: done
loop begin 1: none
loop end 1: run mk error; run fwd ok unset; joint j1 0.000000 0.000000 0.000000; stop mk
loop begin 2: fallback done dropped fwd already_active, other conflict j1/position fwd
loop end 2: run fwd ok unset; joint j1 0.000000 0.000000 0.000000
loop close: none

load m3
load fwd
load vel
configure m3
configure fwd
configure vel
switch strict +m3
=> ok
s load m3: ok 0
s load fwd: ok 1
s load vel: ok 2
s configure m3: ok
s configure fwd: ok
s configure vel: ok
s switch strict +m3: queued 0
loop begin 0: 0 done
loop end 0: run m3 ok; joint j1 0.000000 0.000000 0.000000
s told 0: done
loop begin 1: none
loop end 1: run m3 error; joint j1 0.000000 0.000000 0.000000; stop m3
loop begin 2: fallback done dropped vel mode_refused j1
loop end 2: run fwd ok unset; joint j1 0.000000 0.000000 0.000000
loop close: none

load m2
load pid
load traj
configure m2
configure pid
configure traj
switch strict +m2
=> ok
s load m2: ok 0
s load pid: ok 1
s load traj: ok 2
s configure m2: ok
s configure pid: ok
s configure traj: ok
s switch strict +m2: queued 0
loop begin 0: 0 done
loop end 0: run m2 ok; joint j1 0.000000 0.000000 0.000000
s told 0: done
loop begin 1: none
loop end 1: run m2 error; joint j1 0.000000 0.000000 0.000000; stop m2
loop begin 2: fallback done
loop end 2: run traj ok 0.000000; run pid ok 0.000000; joint j1 0.000000 0.000000 0.000000
loop close: none

load m2
load pid
load traj
configure m2
configure traj
switch strict +m2
=> ok
s load m2: ok 0
s load pid: ok 1
s load traj: ok 2
s configure m2: ok
s configure traj: ok
s switch strict +m2: queued 0
loop begin 0: 0 done
loop end 0: run m2 ok; joint j1 0.000000 0.000000 0.000000
s told 0: done
loop begin 1: none
loop end 1: run m2 error; joint j1 0.000000 0.000000 0.000000; stop m2
loop begin 2: fallback done dropped pid not_configured, traj missing_follower pid/j1/position
loop end 2: joint j1 0.000000 0.000000 0.000000
loop close: none";

/// Requests come after those that stand in: a component that one of them uses stays. What an earlier begin has decided
/// comes before: a component that has left brings nobody who uses it.
pub(crate) const WITH_REQUESTS: &str = r"load m3
load fwd
configure m3
configure fwd
switch strict +m3
await 2
hw arm unconfigured
=> ok
s load m3: ok 0
s load fwd: ok 1
s configure m3: ok
s configure fwd: ok
s switch strict +m3: queued 0
loop begin 0: 0 done
loop end 0: run m3 ok; joint j1 0.000000 0.000000 0.000000
s told 0: done
loop begin 1: none
loop end 1: run m3 error; joint j1 0.000000 0.000000 0.000000; stop m3
s await 2: ok
s hw arm unconfigured: queued 1
loop begin 2: fallback done dropped vel unknown; 1 refused arm in_use fwd
loop end 2: run fwd ok unset; joint j1 0.000000 0.000000 0.000000
s told 1: refused arm in_use fwd
loop close: none

load m3
load fwd
configure m3
configure fwd
switch strict +m3
hw arm unconfigured
=> ok
s load m3: ok 0
s load fwd: ok 1
s configure m3: ok
s configure fwd: ok
s switch strict +m3: queued 0
loop begin 0: 0 done
loop end 0: run m3 ok; joint j1 0.000000 0.000000 0.000000
s told 0: done
s hw arm unconfigured: queued 1
loop begin 1: 1 done
loop end 1: run m3 error; joint j1 0.000000 0.000000 0.000000; stop m3
s told 1: done
loop begin 2: fallback done dropped vel unknown, fwd unavailable j1/position
loop end 2: joint j1 0.000000 0.000000 0.000000
loop close: none

load m3
load fwd
load vel
configure m3
configure fwd
configure vel
switch strict +m3
await 2
switch strict -fwd +vel
=> ok
s load m3: ok 0
s load fwd: ok 1
s load vel: ok 2
s configure m3: ok
s configure fwd: ok
s configure vel: ok
s switch strict +m3: queued 0
loop begin 0: 0 done
loop end 0: run m3 ok; joint j1 0.000000 0.000000 0.000000
s told 0: done
loop begin 1: none
loop end 1: run m3 error; joint j1 0.000000 0.000000 0.000000; stop m3
s await 2: ok
s switch strict -fwd +vel: queued 1
loop begin 2: fallback done dropped vel mode_refused j1; 1 done
loop end 2: run vel ok unset; joint j1 0.000000 0.000000 0.000000
s told 1: done
loop close: none";
