//! Whole runs of pids, trajectories and broadcasters: chains of controllers, and who may command whom.

mod computing;

use computing::{PIDS, TRAJECTORIES};
use pages_calls::robots::SEVEN;
use pages_cases::pages::hold;
use pages_runs::documents::SIX_JOINTS;
use pages_runs::runs::OF_PROGRAM;
use std::test::Fail;

/// A trajectory above a pid needs it, and is updated before it, though it was loaded later. What it gives out the pid
/// takes in the same cycle: half way at 0.05 with the joint at 0, the pid asks for twice that as a velocity. A pid that
/// somebody comes above restarts in chained mode: it forgets what it was sent, and takes nothing more; where that one
/// leaves, it restarts by itself. The pid alone may not leave, and a best effort leaves it out.
const CHAINS: &str = r"--- script ---
session a
load pid
load traj
configure pid
configure traj
switch strict +traj
switch strict +pid +traj
send traj @20000 0.1
=> ok
a load pid: ok 0
a load traj: ok 1
a configure pid: ok
a configure traj: ok
a switch strict +traj: queued 0
loop begin 0: 0 refused traj missing_follower pid/j1/position
loop end 0: joint j1 0.000000 0.000000 0.000000
a told 0: refused traj missing_follower pid/j1/position
a switch strict +pid +traj: queued 1
loop begin 1: 1 done
loop end 1: run traj ok 0.000000; run pid ok 0.000000; joint j1 0.000000 0.000000 0.000000
a told 1: done
a send traj @20000 0.100000: ok
loop begin 2: none
loop end 2: run traj ok 0.000000; run pid ok 0.000000; joint j1 0.000000 0.000000 0.000000
loop begin 3: none
loop end 3: run traj ok 0.050000; run pid ok 0.100000; joint j1 0.001000 0.100000 0.000000
loop begin 4: none
loop end 4: run traj ok 0.100000; run pid ok 0.198000; joint j1 0.002980 0.198000 0.000000
loop begin 5: none
loop end 5: run traj ok 0.100000; run pid ok 0.194040; joint j1 0.004920 0.194040 0.000000
loop close: none

--- script ---
session a
load pid
load traj
configure pid
configure traj
switch strict +pid
list controllers
send pid 0.5
switch strict +traj
send pid 0.5
list controllers
list interfaces
switch strict -traj
list controllers
list interfaces
=> ok
a load pid: ok 0
a load traj: ok 1
a configure pid: ok
a configure traj: ok
a switch strict +pid: queued 0
loop begin 0: 0 done
loop end 0: run pid ok unset; joint j1 0.000000 0.000000 0.000000
a told 0: done
a list controllers: pid pid active 0 every 1; traj trajectory inactive 1 every 1
a send pid 0.500000: ok
a switch strict +traj: queued 1
loop begin 1: 1 done
loop end 1: run traj ok 0.000000; run pid ok 0.000000; joint j1 0.000000 0.000000 0.000000
a told 1: done
a send pid 0.500000: chained
a list controllers: pid pid active 0 every 1 chained; traj trajectory active 1 every 1
a list interfaces: state j1/position 0.000000; state j1/velocity 0.000000; command j1/position unset free; \
command j1/velocity 0.000000 pid; command pid/j1/position 0.000000 traj; command pt/j1/position unavailable
a switch strict -traj: queued 2
loop begin 2: 2 done
loop end 2: run pid ok unset; joint j1 0.000000 0.000000 0.000000
a told 2: done
a list controllers: pid pid active 0 every 1; traj trajectory inactive 1 every 1
a list interfaces: state j1/position 0.000000; state j1/velocity 0.000000; command j1/position unset free; \
command j1/velocity unset pid; command pid/j1/position unset free; command pt/j1/position unavailable
<3..6 * loop begin #: none
loop end #: run pid ok unset; joint j1 0.000000 0.000000 0.000000
>\
loop close: none

--- script ---
session a
load pid
load traj
configure pid
configure traj
switch strict +pid +traj
switch strict -pid
switch best -pid
switch strict -pid -traj
switch best +traj +pid
=> ok
a load pid: ok 0
a load traj: ok 1
a configure pid: ok
a configure traj: ok
a switch strict +pid +traj: queued 0
loop begin 0: 0 done
loop end 0: run traj ok 0.000000; run pid ok 0.000000; joint j1 0.000000 0.000000 0.000000
a told 0: done
a switch strict -pid: queued 1
loop begin 1: 1 refused traj missing_follower pid/j1/position
loop end 1: run traj ok 0.000000; run pid ok 0.000000; joint j1 0.000000 0.000000 0.000000
a told 1: refused traj missing_follower pid/j1/position
a switch best -pid: queued 2
loop begin 2: 2 done dropped pid missing_follower pid/j1/position
loop end 2: run traj ok 0.000000; run pid ok 0.000000; joint j1 0.000000 0.000000 0.000000
a told 2: done dropped pid missing_follower pid/j1/position
a switch strict -pid -traj: queued 3
loop begin 3: 3 done
loop end 3: joint j1 0.000000 0.000000 0.000000
a told 3: done
a switch best +traj +pid: queued 4
loop begin 4: 4 done
loop end 4: run traj ok 0.000000; run pid ok 0.000000; joint j1 0.000000 0.000000 0.000000
a told 4: done
loop begin 5: none
loop end 5: run traj ok 0.000000; run pid ok 0.000000; joint j1 0.000000 0.000000 0.000000
loop close: none";

/// One interface has one owner, and a joint one mode; a broadcaster beside them reads what it likes, and takes nothing.
const OWNERS: &str = r"--- script ---
session a
load fwd
load traj2
load pid
configure fwd
configure traj2
configure pid
switch strict +fwd
switch strict +traj2
switch strict +pid
switch strict -fwd +traj2
=> ok
a load fwd: ok 0
a load traj2: ok 1
a load pid: ok 2
a configure fwd: ok
a configure traj2: ok
a configure pid: ok
a switch strict +fwd: queued 0
loop begin 0: 0 done
loop end 0: run fwd ok unset; joint j1 0.000000 0.000000 0.000000
a told 0: done
a switch strict +traj2: queued 1
loop begin 1: 1 refused traj2 conflict j1/position fwd
loop end 1: run fwd ok unset; joint j1 0.000000 0.000000 0.000000
a told 1: refused traj2 conflict j1/position fwd
a switch strict +pid: queued 2
loop begin 2: 2 refused pid mode_refused j1
loop end 2: run fwd ok unset; joint j1 0.000000 0.000000 0.000000
a told 2: refused pid mode_refused j1
a switch strict -fwd +traj2: queued 3
loop begin 3: 3 done
loop end 3: run traj2 ok 0.000000; joint j1 0.000000 0.000000 0.000000
a told 3: done
<4..6 * loop begin #: none
loop end #: run traj2 ok 0.000000; joint j1 0.000000 0.000000 0.000000
>\
loop close: none

--- script ---
session a
load fwd
load traj2
load jsb
configure fwd
configure traj2
configure jsb
switch strict +fwd
switch best +nosuch +traj2 +jsb
list controllers
send jsb 1
configure jsb
=> ok
a load fwd: ok 0
a load traj2: ok 1
a load jsb: ok 2
a configure fwd: ok
a configure traj2: ok
a configure jsb: ok
a switch strict +fwd: queued 0
loop begin 0: 0 done
loop end 0: run fwd ok unset; joint j1 0.000000 0.000000 0.000000
a told 0: done
a switch best +nosuch +traj2 +jsb: queued 1
loop begin 1: 1 done dropped nosuch unknown, traj2 conflict j1/position fwd
loop end 1: run fwd ok unset; run jsb ok 0.000000 0.000000; joint j1 0.000000 0.000000 0.000000
a told 1: done dropped nosuch unknown, traj2 conflict j1/position fwd
a list controllers: fwd forward active 0 every 1; traj2 trajectory inactive 1 every 1; jsb broadcaster active 2 every 1
a send jsb 1.000000: takes_none
a configure jsb: active
<2..6 * loop begin #: none
loop end #: run fwd ok unset; run jsb ok 0.000000 0.000000; joint j1 0.000000 0.000000 0.000000
>\
loop close: none

--- script ---
session a
load fwd
load jsb
load mk
configure fwd
configure jsb
configure mk
await 2
switch strict +fwd +jsb +mk
switch strict +fwd +jsb +mk
=> ok
a load fwd: ok 0
a load jsb: ok 1
a load mk: ok 2
a configure fwd: ok
a configure jsb: ok
a configure mk: ok
<0..2 * loop begin #: none
loop end #: joint j1 0.000000 0.000000 0.000000
>\
a await 2: ok
a switch strict +fwd +jsb +mk: queued 0
loop begin 2: 0 refused mk not_ready
loop end 2: joint j1 0.000000 0.000000 0.000000
a told 0: refused mk not_ready
a switch strict +fwd +jsb +mk: queued 1
loop begin 3: 1 done
loop end 3: run fwd ok unset; run jsb ok 0.000000 0.000000; run mk ok; joint j1 0.000000 0.000000 0.000000
a told 1: done
loop begin 4: none
loop end 4: run fwd ok unset; run jsb ok 0.000000 0.000000; run mk ok; joint j1 0.000000 0.000000 0.000000
loop begin 5: none
loop end 5: run fwd ok unset; run jsb ok 0.000000 0.000000; run mk error; joint j1 0.000000 0.000000 0.000000; stop mk
loop close: none";

/// Mail fits a controller or not: a pid takes one value, a trajectory points with a value for each claim.
const MAIL: &str = r"--- script ---
session a
load pid
load traj2
configure pid
configure traj2
switch strict +pid
send pid 1 2
send pid @20000 1
send pid 0.5
switch strict -pid +traj2
send pid 0.5
send traj2 1
send traj2 @20000 1 2
send traj2 @20000 0.01
=> ok
a load pid: ok 0
a load traj2: ok 1
a configure pid: ok
a configure traj2: ok
a switch strict +pid: queued 0
loop begin 0: 0 done
loop end 0: run pid ok unset; joint j1 0.000000 0.000000 0.000000
a told 0: done
a send pid 1.000000 2.000000: wrong_count
a send pid @20000 1.000000: wrong_count
a send pid 0.500000: ok
a switch strict -pid +traj2: queued 1
loop begin 1: 1 done
loop end 1: run traj2 ok 0.000000; joint j1 0.000000 0.000000 0.000000
a told 1: done
a send pid 0.500000: not_active
a send traj2 1.000000: wrong_count
a send traj2 @20000 1.000000 2.000000: wrong_count
a send traj2 @20000 0.010000: ok
loop begin 2: none
loop end 2: run traj2 ok 0.000000; joint j1 0.000000 0.000000 0.000000
loop begin 3: none
loop end 3: run traj2 ok 0.005000; joint j1 0.005000 0.500000 0.000000
loop begin 4: none
loop end 4: run traj2 ok 0.010000; joint j1 0.010000 0.500000 0.000000
loop begin 5: none
loop end 5: run traj2 ok 0.010000; joint j1 0.010000 0.000000 0.000000
loop close: none";

#[test]
fn controllers_that_compute_run_in_chains(rt: HostRuntime) -> Result<(), Fail> {
    let alloc = rt.alloc();
    hold(alloc, &OF_PROGRAM, SEVEN, CHAINS)?;
    hold(alloc, &OF_PROGRAM, SEVEN, OWNERS)?;
    hold(alloc, &OF_PROGRAM, SEVEN, MAIL)?;
    hold(alloc, &OF_PROGRAM, "", PIDS)?;
    hold(alloc, &OF_PROGRAM, "", TRAJECTORIES)?;
    hold(alloc, &OF_PROGRAM, "", SIX_JOINTS)
}
