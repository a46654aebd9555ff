//! Two components, and what their failures and moves make of the controllers that use them.

/// Whose arm cannot be read in cycle 2, and is given up then, while the leg goes on. A script follows, of a session
/// that has begun.
pub(crate) const ARM_AND_LEG: &str = r#"version = 1
update_rate = 100
cycles = 5
[[component]]
name = "arm"
kind = "actuator"
on_error = "finalized"
fail_read = [2]
[[component.joint]]
name = "j1"
vmax = 1
command = ["position"]
state = ["position"]
[[component]]
name = "leg"
kind = "actuator"
[[component.joint]]
name = "j2"
vmax = 1
position = 1
command = ["position"]
state = ["position"]
[[controller]]
name = "both"
type = "forward"
claims = ["j1/position", "j2/position"]
[[controller]]
name = "swing"
type = "forward"
claims = ["j2/position"]
--- script ---
session a
"#;

/// A controller of both components is held off where one cannot be read: its mail of that cycle is lost, the leg is
/// still written with what was given out before, and then it stops; it cannot come back, as the arm is not there any
/// more. Beside an inactive leg a controller runs and moves nothing, until the leg is active; from then on the leg
/// cannot be taken from it.
pub(crate) const ONE_OF_TWO: &str = "load both
configure both
switch strict +both
send both 0.5 2
await 2
send both 0.25 0.25
await 3
list components
list interfaces
switch strict +both
hw arm active
=> ok
a load both: ok 0
a configure both: ok
a switch strict +both: queued 0
loop begin 0: 0 done
loop end 0: run both ok unset unset; joint j1 0.000000 0.000000 0.000000; joint j2 1.000000 0.000000 0.000000
a told 0: done
a send both 0.500000 2.000000: ok
loop begin 1: none
loop end 1: run both ok 0.500000 2.000000; joint j1 0.010000 1.000000 0.000000; joint j2 1.010000 1.000000 0.000000
a await 2: ok
a send both 0.250000 0.250000: ok
loop begin 2: none
loop end 2: fail arm read; joint j1 0.010000 0.000000 0.000000; joint j2 1.020000 1.000000 0.000000; stop both
a await 3: ok
a list components: arm actuator finalized; leg actuator active
a list interfaces: state j1/position unavailable; state j2/position 1.010000; command j1/position unavailable; \
command j2/position unset free
a switch strict +both: queued 1
loop begin 3: 1 refused both unavailable j1/position
loop end 3: joint j1 0.010000 0.000000 0.000000; joint j2 1.020000 0.000000 0.000000
a told 1: refused both unavailable j1/position
a hw arm active: queued 2
loop begin 4: 2 refused arm no_such_move
loop end 4: joint j1 0.010000 0.000000 0.000000; joint j2 1.020000 0.000000 0.000000
a told 2: refused arm no_such_move
loop close: none

load swing
configure swing
hw leg inactive
switch strict +swing
send swing 2
await 3
hw leg active
hw leg unconfigured
=> ok
a load swing: ok 0
a configure swing: ok
a hw leg inactive: queued 0
loop begin 0: 0 done
loop end 0: joint j1 0.000000 0.000000 0.000000; joint j2 1.000000 0.000000 0.000000
a told 0: done
a switch strict +swing: queued 1
loop begin 1: 1 done
loop end 1: run swing ok unset; joint j1 0.000000 0.000000 0.000000; joint j2 1.000000 0.000000 0.000000
a told 1: done
a send swing 2.000000: ok
loop begin 2: none
loop end 2: fail arm read; run swing ok 2.000000; joint j1 0.000000 0.000000 0.000000; \
joint j2 1.000000 0.000000 0.000000
a await 3: ok
a hw leg active: queued 2
loop begin 3: 2 done
loop end 3: run swing ok 2.000000; joint j1 0.000000 0.000000 0.000000; joint j2 1.010000 1.000000 0.000000
a told 2: done
a hw leg unconfigured: queued 3
loop begin 4: 3 refused leg in_use swing
loop end 4: run swing ok 2.000000; joint j1 0.000000 0.000000 0.000000; joint j2 1.020000 1.000000 0.000000
a told 3: refused leg in_use swing
loop close: none";

/// Failures of two components in one cycle, a sensor among them, which who reads it misses; a chain of three whose
/// middle loses its component: who leads it stops with it, and its follower goes on, unchained; and requests of which
/// no cycle is left to decide.
pub(crate) const OF_SEVERAL: &str = r#"version = 1
update_rate = 100
cycles = 3
[[component]]
name = "arm"
kind = "actuator"
fail_write = [1]
[[component.joint]]
name = "j1"
vmax = 1
command = ["position"]
[[component]]
name = "imu"
kind = "sensor"
fail_read = [1]
[[component.joint]]
name = "tilt"
vmax = 0
position = "0.02"
state = ["position"]
[[controller]]
name = "watch"
type = "mock"
reads = ["tilt/position"]
[[controller]]
name = "fwd"
type = "forward"
claims = ["j1/position"]
--- script ---
session a
load fwd
load watch
configure fwd
configure watch
switch strict +watch +fwd
send fwd 0.5
await 2
list controllers
list components
switch strict +watch
=> ok
a load fwd: ok 0
a load watch: ok 1
a configure fwd: ok
a configure watch: ok
a switch strict +watch +fwd: queued 0
loop begin 0: 0 done
loop end 0: run fwd ok unset; run watch ok; joint j1 0.000000 0.000000 0.000000; joint tilt 0.020000 0.000000 0.000000
a told 0: done
a send fwd 0.500000: ok
loop begin 1: none
loop end 1: fail imu read; fail arm write; run fwd ok 0.500000; joint j1 0.000000 0.000000 0.000000; \
joint tilt 0.020000 0.000000 0.000000; stop fwd; stop watch
a await 2: ok
a list controllers: fwd forward inactive 0 every 1; watch mock inactive 1 every 1
a list components: arm actuator unconfigured; imu sensor unconfigured
a switch strict +watch: queued 1
loop begin 2: 1 refused watch unavailable tilt/position
loop end 2: joint j1 0.000000 0.000000 0.000000; joint tilt 0.020000 0.000000 0.000000
a told 1: refused watch unavailable tilt/position
loop close: none

version = 1
update_rate = 100
cycles = 4
[[component]]
name = "arm"
kind = "actuator"
[[component.joint]]
name = "j1"
vmax = 1
command = ["position"]
[[component]]
name = "leg"
kind = "actuator"
fail_write = [2]
[[component.joint]]
name = "j2"
vmax = 1
command = ["position"]
[[controller]]
name = "base"
type = "passthrough"
claims = ["j1/position"]
[[controller]]
name = "middle"
type = "passthrough"
claims = ["base/j1/position", "j2/position"]
[[controller]]
name = "top"
type = "forward"
claims = ["middle/j1/position", "middle/j2/position"]
--- script ---
session a
load base
load middle
load top
configure base
configure middle
configure top
switch strict +base +middle +top
send top 0.5 0.25
await 3
list controllers
list interfaces
send base 0.5
=> ok
a load base: ok 0
a load middle: ok 1
a load top: ok 2
a configure base: ok
a configure middle: ok
a configure top: ok
a switch strict +base +middle +top: queued 0
loop begin 0: 0 done
loop end 0: run top ok unset unset; run middle ok unset unset; run base ok unset; joint j1 0.000000 0.000000 0.000000; \
joint j2 0.000000 0.000000 0.000000
a told 0: done
a send top 0.500000 0.250000: ok
loop begin 1: none
loop end 1: run top ok 0.500000 0.250000; run middle ok 0.500000 0.250000; run base ok 0.500000; \
joint j1 0.010000 1.000000 0.000000; joint j2 0.010000 1.000000 0.000000
loop begin 2: none
loop end 2: fail leg write; run top ok 0.500000 0.250000; run middle ok 0.500000 0.250000; run base ok 0.500000; \
joint j1 0.020000 1.000000 0.000000; joint j2 0.010000 0.000000 0.000000; stop top; stop middle
a await 3: ok
a list controllers: base passthrough active 0 every 1; middle passthrough inactive 1 every 1; \
top forward inactive 2 every 1
a list interfaces: command j1/position unset base; command j2/position unavailable; \
command base/j1/position unset free; \
command middle/j1/position unavailable; command middle/j2/position unavailable
a send base 0.500000: ok
loop begin 3: none
loop end 3: run base ok 0.500000; joint j1 0.030000 1.000000 0.000000; joint j2 0.010000 0.000000 0.000000
loop close: none

version = 1
update_rate = 100
cycles = 0
[[controller]]
name = "mk"
type = "mock"
--- script ---
session a
load mk
configure mk
switch strict +mk
list controllers
hw arm active
await 9
switch best
=> ok
a load mk: ok 0
a configure mk: ok
a switch strict +mk: queued 0
loop close: 0 loop_ended
a told 0: loop_ended
a list controllers: mk mock inactive 0 every 1
a hw arm active: loop_ended
a await 9: ok
a switch best: loop_ended"#;
