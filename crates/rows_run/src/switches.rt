//! Whole documents whose switches take effect, each with how its run ends and what is printed.

mod plans;
mod stops;

use pages_cases::pages::hold;
use pages_runs::documents::MOVED;
use pages_runs::runs::OF_PROGRAM;
use plans::{CHAINS, FOLLOWER_RESTARTS, REFUSALS, ROBOT, WHILE_ACTIVE};
use std::test::Fail;
use stops::{ARM_AND_LEG, OF_SEVERAL, ONE_OF_TWO};

#[test]
fn switches_take_effect(rt: HostRuntime) -> Result<(), Fail> {
    let alloc = rt.alloc();
    hold(alloc, &OF_PROGRAM, MOVED, OF_MOVED)?;
    hold(alloc, &OF_PROGRAM, "", SWITCHES)?;
    hold(alloc, &OF_PROGRAM, "", REQUESTS)?;
    hold(alloc, &OF_PROGRAM, "", FAILURES)?;
    hold(alloc, &OF_PROGRAM, "", OF_SEVERAL)
}

#[test]
fn a_switch_is_done_refused_or_left_in_part(rt: HostRuntime) -> Result<(), Fail> {
    let alloc = rt.alloc();
    hold(alloc, &OF_PROGRAM, ROBOT, REFUSALS)?;
    hold(alloc, &OF_PROGRAM, ROBOT, CHAINS)?;
    hold(alloc, &OF_PROGRAM, ROBOT, WHILE_ACTIVE)?;
    hold(alloc, &OF_PROGRAM, ROBOT, FOLLOWER_RESTARTS)?;
    hold(alloc, &OF_PROGRAM, ARM_AND_LEG, ONE_OF_TWO)
}

/// The first whole run of one joint.
pub(crate) const OF_MOVED: &str = "=> ok
a load fwd: ok 0
a configure fwd: ok
a switch strict +fwd: queued 0
loop begin 0: 0 done
loop end 0: run fwd ok unset; joint j1 0.000000 0.000000 0.000000
a told 0: done
a send fwd 0.500000: ok
loop begin 1: none
loop end 1: run fwd ok 0.500000; joint j1 0.010000 1.000000 0.000000
loop begin 2: none
loop end 2: run fwd ok 0.500000; joint j1 0.020000 1.000000 0.000000
loop close: none";

/// What becomes of switches: a chain that was loaded in the wrong order; no names, a name twice and a restart by name;
/// and a lower update rate, at which the value is taken in the next cycle that is due.
pub(crate) const SWITCHES: &str = r#"version = 1
update_rate = 100
cycles = 3
[[component]]
name = "arm"
kind = "actuator"
[[component.joint]]
name = "j1"
vmax = 1
command = ["position"]
state = ["position"]
[[controller]]
name = "pt"
type = "passthrough"
claims = ["j1/position"]
[[controller]]
name = "lead"
type = "forward"
claims = ["pt/j1/position"]
--- script ---
session a
load pt
load lead
configure pt
configure lead
switch strict +lead
switch strict +lead +pt
list controllers
send lead 0.5
send pt 0.5
=> ok
a load pt: ok 0
a load lead: ok 1
a configure pt: ok
a configure lead: ok
a switch strict +lead: queued 0
loop begin 0: 0 refused lead missing_follower pt/j1/position
loop end 0: joint j1 0.000000 0.000000 0.000000
a told 0: refused lead missing_follower pt/j1/position
a switch strict +lead +pt: queued 1
loop begin 1: 1 done
loop end 1: run lead ok unset; run pt ok unset; joint j1 0.000000 0.000000 0.000000
a told 1: done
a list controllers: pt passthrough active 0 every 1 chained; lead forward active 1 every 1
a send lead 0.500000: ok
a send pt 0.500000: chained
loop begin 2: none
loop end 2: run lead ok 0.500000; run pt ok 0.500000; joint j1 0.010000 1.000000 0.000000
loop close: none

version = 1
update_rate = 100
cycles = 5
[[component]]
name = "arm"
kind = "actuator"
[[component.joint]]
name = "j1"
vmax = 1
command = ["position"]
state = ["position"]
[[controller]]
name = "fwd"
type = "forward"
claims = ["j1/position"]
--- script ---
session a
load fwd
configure fwd
switch strict
switch strict +fwd +fwd
switch best +fwd +fwd
send fwd 0.5
switch strict -fwd +fwd
=> ok
a load fwd: ok 0
a configure fwd: ok
a switch strict: queued 0
loop begin 0: 0 done
loop end 0: joint j1 0.000000 0.000000 0.000000
a told 0: done
a switch strict +fwd +fwd: queued 1
loop begin 1: 1 refused fwd twice
loop end 1: joint j1 0.000000 0.000000 0.000000
a told 1: refused fwd twice
a switch best +fwd +fwd: queued 2
loop begin 2: 2 done dropped fwd twice
loop end 2: run fwd ok unset; joint j1 0.000000 0.000000 0.000000
a told 2: done dropped fwd twice
a send fwd 0.500000: ok
a switch strict -fwd +fwd: queued 3
loop begin 3: 3 done
loop end 3: run fwd ok unset; joint j1 0.000000 0.000000 0.000000
a told 3: done
loop begin 4: none
loop end 4: run fwd ok unset; joint j1 0.000000 0.000000 0.000000
loop close: none

version = 1
update_rate = 100
cycles = 7
[[component]]
name = "arm"
kind = "actuator"
[[component.joint]]
name = "j1"
vmax = 1
command = ["position"]
state = ["position"]
[[controller]]
name = "fwd"
type = "forward"
claims = ["j1/position"]
update_rate = 33
--- script ---
session a
load fwd
configure fwd
switch strict +fwd
send fwd 0.5
=> ok
a load fwd: ok 0
a configure fwd: ok
a switch strict +fwd: queued 0
loop begin 0: 0 done
loop end 0: run fwd ok unset; joint j1 0.000000 0.000000 0.000000
a told 0: done
a send fwd 0.500000: ok
loop begin 1: none
loop end 1: joint j1 0.000000 0.000000 0.000000
loop begin 2: none
loop end 2: joint j1 0.000000 0.000000 0.000000
loop begin 3: none
loop end 3: run fwd ok 0.500000; joint j1 0.010000 1.000000 0.000000
loop begin 4: none
loop end 4: joint j1 0.020000 1.000000 0.000000
loop begin 5: none
loop end 5: joint j1 0.030000 1.000000 0.000000
loop begin 6: none
loop end 6: run fwd ok 0.500000; joint j1 0.040000 1.000000 0.000000
loop close: none"#;

/// Moves of a component that are asked for, beside a controller that uses it, and what cannot be had while it is down.
pub(crate) const REQUESTS: &str = r#"version = 1
update_rate = 100
cycles = 6
[[component]]
name = "arm"
kind = "actuator"
[[component.joint]]
name = "j1"
vmax = 1
command = ["position"]
state = ["position"]
[[controller]]
name = "fwd"
type = "forward"
claims = ["j1/position"]
--- script ---
session a
load fwd
configure fwd
switch strict +fwd
hw arm unconfigured
hw arm inactive
switch strict -fwd
hw arm finalized
hw arm active
switch strict +fwd
=> ok
a load fwd: ok 0
a configure fwd: ok
a switch strict +fwd: queued 0
loop begin 0: 0 done
loop end 0: run fwd ok unset; joint j1 0.000000 0.000000 0.000000
a told 0: done
a hw arm unconfigured: queued 1
loop begin 1: 1 refused arm in_use fwd
loop end 1: run fwd ok unset; joint j1 0.000000 0.000000 0.000000
a told 1: refused arm in_use fwd
a hw arm inactive: queued 2
loop begin 2: 2 done
loop end 2: run fwd ok unset; joint j1 0.000000 0.000000 0.000000
a told 2: done
a switch strict -fwd: queued 3
loop begin 3: 3 done
loop end 3: joint j1 0.000000 0.000000 0.000000
a told 3: done
a hw arm finalized: queued 4
loop begin 4: 4 done
loop end 4: joint j1 0.000000 0.000000 0.000000
a told 4: done
a hw arm active: queued 5
loop begin 5: 5 refused arm no_such_move
loop end 5: joint j1 0.000000 0.000000 0.000000
a told 5: refused arm no_such_move
a switch strict +fwd: queued 6
loop close: 6 loop_ended
a told 6: loop_ended

version = 1
update_rate = 100
cycles = 5
[[component]]
name = "arm"
kind = "actuator"
[[component.joint]]
name = "j1"
vmax = 1
command = ["position"]
state = ["position"]
[[controller]]
name = "fwd"
type = "forward"
claims = ["j1/position"]
--- script ---
session a
load fwd
configure fwd
hw arm unconfigured
switch strict +fwd
hw arm active
switch strict +fwd
hw nosuch active
=> ok
a load fwd: ok 0
a configure fwd: ok
a hw arm unconfigured: queued 0
loop begin 0: 0 done
loop end 0: joint j1 0.000000 0.000000 0.000000
a told 0: done
a switch strict +fwd: queued 1
loop begin 1: 1 refused fwd unavailable j1/position
loop end 1: joint j1 0.000000 0.000000 0.000000
a told 1: refused fwd unavailable j1/position
a hw arm active: queued 2
loop begin 2: 2 done
loop end 2: joint j1 0.000000 0.000000 0.000000
a told 2: done
a switch strict +fwd: queued 3
loop begin 3: 3 done
loop end 3: run fwd ok unset; joint j1 0.000000 0.000000 0.000000
a told 3: done
a hw nosuch active: queued 4
loop begin 4: 4 refused nosuch unknown
loop end 4: run fwd ok unset; joint j1 0.000000 0.000000 0.000000
a told 4: refused nosuch unknown
loop close: none"#;

/// A controller that is not ready and whose update fails later; a read that fails beneath a chain; a write that fails.
pub(crate) const FAILURES: &str = r#"version = 1
update_rate = 100
cycles = 6
[[component]]
name = "arm"
kind = "actuator"
[[component.joint]]
name = "j1"
vmax = 1
command = ["position"]
state = ["position"]
[[controller]]
name = "fwd"
type = "forward"
claims = ["j1/position"]
[[controller]]
name = "mk"
type = "mock"
not_ready = [2]
fail_update = [5]
--- script ---
session a
load fwd
load mk
configure fwd
configure mk
await 2
switch strict +fwd +mk
switch strict +fwd +mk
=> ok
a load fwd: ok 0
a load mk: ok 1
a configure fwd: ok
a configure mk: ok
loop begin 0: none
loop end 0: joint j1 0.000000 0.000000 0.000000
loop begin 1: none
loop end 1: joint j1 0.000000 0.000000 0.000000
a await 2: ok
a switch strict +fwd +mk: queued 0
loop begin 2: 0 refused mk not_ready
loop end 2: joint j1 0.000000 0.000000 0.000000
a told 0: refused mk not_ready
a switch strict +fwd +mk: queued 1
loop begin 3: 1 done
loop end 3: run fwd ok unset; run mk ok; joint j1 0.000000 0.000000 0.000000
a told 1: done
loop begin 4: none
loop end 4: run fwd ok unset; run mk ok; joint j1 0.000000 0.000000 0.000000
loop begin 5: none
loop end 5: run fwd ok unset; run mk error; joint j1 0.000000 0.000000 0.000000; stop mk
loop close: none

version = 1
update_rate = 100
cycles = 6
[[component]]
name = "arm"
kind = "actuator"
fail_read = [4]
[[component.joint]]
name = "j1"
vmax = 1
command = ["position"]
state = ["position"]
[[controller]]
name = "pt"
type = "passthrough"
claims = ["j1/position"]
[[controller]]
name = "lead"
type = "forward"
claims = ["pt/j1/position"]
--- script ---
session a
load pt
load lead
configure pt
configure lead
switch strict +lead +pt
send lead 0.5
await 5
list controllers
list components
=> ok
a load pt: ok 0
a load lead: ok 1
a configure pt: ok
a configure lead: ok
a switch strict +lead +pt: queued 0
loop begin 0: 0 done
loop end 0: run lead ok unset; run pt ok unset; joint j1 0.000000 0.000000 0.000000
a told 0: done
a send lead 0.500000: ok
loop begin 1: none
loop end 1: run lead ok 0.500000; run pt ok 0.500000; joint j1 0.010000 1.000000 0.000000
loop begin 2: none
loop end 2: run lead ok 0.500000; run pt ok 0.500000; joint j1 0.020000 1.000000 0.000000
loop begin 3: none
loop end 3: run lead ok 0.500000; run pt ok 0.500000; joint j1 0.030000 1.000000 0.000000
loop begin 4: none
loop end 4: fail arm read; run lead ok 0.500000; joint j1 0.030000 0.000000 0.000000; stop lead; stop pt
a await 5: ok
a list controllers: pt passthrough inactive 0 every 1; lead forward inactive 1 every 1
a list components: arm actuator unconfigured
loop begin 5: none
loop end 5: joint j1 0.030000 0.000000 0.000000
loop close: none

version = 1
update_rate = 100
cycles = 5
[[component]]
name = "arm"
kind = "actuator"
fail_write = [3]
[[component.joint]]
name = "j1"
vmax = 1
command = ["position"]
state = ["position"]
[[controller]]
name = "fwd"
type = "forward"
claims = ["j1/position"]
--- script ---
session a
load fwd
configure fwd
switch strict +fwd
send fwd 0.5
=> ok
a load fwd: ok 0
a configure fwd: ok
a switch strict +fwd: queued 0
loop begin 0: 0 done
loop end 0: run fwd ok unset; joint j1 0.000000 0.000000 0.000000
a told 0: done
a send fwd 0.500000: ok
loop begin 1: none
loop end 1: run fwd ok 0.500000; joint j1 0.010000 1.000000 0.000000
loop begin 2: none
loop end 2: run fwd ok 0.500000; joint j1 0.020000 1.000000 0.000000
loop begin 3: none
loop end 3: fail arm write; run fwd ok 0.500000; joint j1 0.020000 0.000000 0.000000; stop fwd
loop begin 4: none
loop end 4: joint j1 0.020000 0.000000 0.000000
loop close: none"#;
