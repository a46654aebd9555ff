//! Whole documents of pids and of trajectories: what they compute, cycle by cycle.

/// A read that fails holds off the pid, which reads and commands the joint, and not the passthrough above it; at the
/// end both stop. A pid of a third of the rate counts the longer time, with all three gains: the joint may not move, so
/// its error is what it is sent. Two that claim its reference are refused together; the one that has it keeps it, until
/// one switch hands it over.
pub(crate) const PIDS: &str = r#"version = 1
update_rate = 100
cycles = 6
[[component]]
name = "arm"
kind = "system"
fail_read = [4]
[[component.joint]]
name = "j1"
vmax = 1
command = ["position", "velocity"]
state = ["position", "velocity"]
[[controller]]
name = "pid"
type = "pid"
claims = ["j1/velocity"]
reads = ["j1/position"]
kp = 2
omax = 10
[[controller]]
name = "pt"
type = "passthrough"
claims = ["pid/j1/position"]
--- script ---
session a
load pid
load pt
configure pid
configure pt
switch strict +pid +pt
await 5
list controllers
list components
=> ok
a load pid: ok 0
a load pt: ok 1
a configure pid: ok
a configure pt: ok
a switch strict +pid +pt: queued 0
loop begin 0: 0 done
loop end 0: run pt ok unset; run pid ok unset; joint j1 0.000000 0.000000 0.000000
a told 0: done
<1..4 * loop begin #: none
loop end #: run pt ok unset; run pid ok unset; joint j1 0.000000 0.000000 0.000000
>\
loop begin 4: none
loop end 4: fail arm read; run pt ok unset; joint j1 0.000000 0.000000 0.000000; stop pt; stop pid
a await 5: ok
a list controllers: pid pid inactive 0 every 1; pt passthrough inactive 1 every 1
a list components: arm system unconfigured
loop begin 5: none
loop end 5: joint j1 0.000000 0.000000 0.000000
loop close: none

version = 1
update_rate = 100
cycles = 7
[[component]]
name = "arm"
kind = "actuator"
[[component.joint]]
name = "j1"
vmax = 0
command = ["velocity"]
state = ["position"]
[[controller]]
name = "pid"
type = "pid"
update_rate = 33
claims = ["j1/velocity"]
reads = ["j1/position"]
kp = 2
ki = 1
kd = "0.1"
imax = 10
omax = 10
--- script ---
session a
load pid
configure pid
switch strict +pid
send pid 1
await 4
send pid 0.4
=> ok
a load pid: ok 0
a configure pid: ok
a switch strict +pid: queued 0
loop begin 0: 0 done
loop end 0: run pid ok unset; joint j1 0.000000 0.000000 0.000000
a told 0: done
a send pid 1.000000: ok
<1..3 * loop begin #: none
loop end #: joint j1 0.000000 0.000000 0.000000
>\
loop begin 3: none
loop end 3: run pid ok 2.030000; joint j1 0.000000 0.000000 0.000000
a await 4: ok
a send pid 0.400000: ok
<4..6 * loop begin #: none
loop end #: joint j1 0.000000 0.000000 0.000000
>\
loop begin 6: none
loop end 6: run pid ok -1.158000; joint j1 0.000000 0.000000 0.000000
loop close: none

version = 1
update_rate = 100
cycles = 7
[[component]]
name = "arm"
kind = "actuator"
[[component.joint]]
name = "j1"
vmax = 1
command = ["velocity"]
state = ["position"]
[[controller]]
name = "pid"
type = "pid"
claims = ["j1/velocity"]
reads = ["j1/position"]
kp = 2
omax = 10
[[controller]]
name = "hand"
type = "passthrough"
claims = ["pid/j1/position"]
[[controller]]
name = "plan"
type = "passthrough"
claims = ["pid/j1/position"]
--- script ---
session a
load pid
load hand
load plan
configure pid
configure hand
configure plan
switch strict +pid +hand +plan
switch strict +pid +hand
send hand 0.5
switch strict +plan
switch best +plan
switch strict -hand +plan
send plan 0.25
list controllers
=> ok
a load pid: ok 0
a load hand: ok 1
a load plan: ok 2
a configure pid: ok
a configure hand: ok
a configure plan: ok
a switch strict +pid +hand +plan: queued 0
loop begin 0: 0 refused hand conflict pid/j1/position plan
loop end 0: joint j1 0.000000 0.000000 0.000000
a told 0: refused hand conflict pid/j1/position plan
a switch strict +pid +hand: queued 1
loop begin 1: 1 done
loop end 1: run hand ok unset; run pid ok unset; joint j1 0.000000 0.000000 0.000000
a told 1: done
a send hand 0.500000: ok
a switch strict +plan: queued 2
loop begin 2: 2 refused plan conflict pid/j1/position hand
loop end 2: run hand ok 0.500000; run pid ok 1.000000; joint j1 0.010000 1.000000 0.000000
a told 2: refused plan conflict pid/j1/position hand
a switch best +plan: queued 3
loop begin 3: 3 done dropped plan conflict pid/j1/position hand
loop end 3: run hand ok 0.500000; run pid ok 0.980000; joint j1 0.019800 0.980000 0.000000
a told 3: done dropped plan conflict pid/j1/position hand
a switch strict -hand +plan: queued 4
loop begin 4: 4 done
loop end 4: run plan ok unset; run pid ok unset; joint j1 0.019800 0.000000 0.000000
a told 4: done
a send plan 0.250000: ok
a list controllers: pid pid active 0 every 1 chained; hand passthrough inactive 1 every 1; \
plan passthrough active 2 every 1
loop begin 5: none
loop end 5: run plan ok 0.250000; run pid ok 0.460400; joint j1 0.024404 0.460400 0.000000
loop begin 6: none
loop end 6: run plan ok 0.250000; run pid ok 0.451192; joint j1 0.028915 0.451192 0.000000
loop close: none"#;

/// Points count from the cycle that takes them, and lead from the states of that cycle, also where those before are not
/// finished.
pub(crate) const TRAJECTORIES: &str = r#"version = 1
update_rate = 100
cycles = 7
[[component]]
name = "arm"
kind = "actuator"
[[component.joint]]
name = "j1"
vmax = 10
command = ["position"]
state = ["position"]
[[controller]]
name = "traj"
type = "trajectory"
claims = ["j1/position"]
reads = ["j1/position"]
--- script ---
session a
load traj
configure traj
switch strict +traj
send traj @20000 0.02 @60000 -0.04
await 3
send traj @20000 0.03
=> ok
a load traj: ok 0
a configure traj: ok
a switch strict +traj: queued 0
loop begin 0: 0 done
loop end 0: run traj ok 0.000000; joint j1 0.000000 0.000000 0.000000
a told 0: done
a send traj @20000 0.020000 @60000 -0.040000: ok
loop begin 1: none
loop end 1: run traj ok 0.000000; joint j1 0.000000 0.000000 0.000000
loop begin 2: none
loop end 2: run traj ok 0.010000; joint j1 0.010000 1.000000 0.000000
a await 3: ok
a send traj @20000 0.030000: ok
loop begin 3: none
loop end 3: run traj ok 0.010000; joint j1 0.010000 0.000000 0.000000
loop begin 4: none
loop end 4: run traj ok 0.020000; joint j1 0.020000 1.000000 0.000000
loop begin 5: none
loop end 5: run traj ok 0.030000; joint j1 0.030000 1.000000 0.000000
loop begin 6: none
loop end 6: run traj ok 0.030000; joint j1 0.030000 0.000000 0.000000
loop close: none"#;
