//! What the lists tell at start, and what the cycles tell after it.

/// Whole documents: joints at rest and one that moved before the start, components without interfaces and none at all,
/// each lifecycle state at start, joints with several kinds, references, and controllers that are loaded.
pub(crate) const LISTS: &str = r#"version = 1
update_rate = 100
cycles = 2
[[component]]
name = "arm"
kind = "actuator"
[[component.joint]]
name = "j1"
vmax = 1
position = "0.25"
command = ["position"]
state = ["position", "velocity"]
--- script ---
session a
list components
list interfaces
=> ok
a list components: arm actuator active
a list interfaces: state j1/position 0.250000; state j1/velocity 0.000000; command j1/position unset free
loop begin 0: none
loop end 0: joint j1 0.250000 0.000000 0.000000
loop begin 1: none
loop end 1: joint j1 0.250000 0.000000 0.000000
loop close: none

version = 1
update_rate = 10
cycles = 2
[[component]]
name = "wheel"
kind = "actuator"
[[component.joint]]
name = "axle"
vmax = 1
damping = "0.5"
position = "-0.5"
velocity = 3
command = ["effort"]
state = ["effort", "velocity", "position"]
--- script ---
session a
list interfaces
=> ok
a list interfaces: state axle/effort 0.000000; state axle/velocity 3.000000; state axle/position -0.500000; \
command axle/effort unset free
loop begin 0: none
loop end 0: joint axle -0.500000 0.000000 0.000000
loop begin 1: none
loop end 1: joint axle -0.500000 0.000000 0.000000
loop close: none

version = 1
update_rate = 100
cycles = 1
[[component]]
name = "pole"
kind = "system"
[[component.joint]]
name = "foot"
vmax = 0
position = 1000000000
velocity = -1000000000
[[component.joint]]
name = "tip"
vmax = 1000000000
position = "-999999999.999999"
velocity = "0.000001"
--- script ---
session a
list interfaces
list components
=> ok
a list interfaces: none
a list components: pole system active
loop begin 0: none
loop end 0: joint foot 1000000000.000000 0.000000 0.000000; joint tip -999999999.999999 0.000000 0.000000
loop close: none

version = 1
update_rate = 100
cycles = 1
component = []
--- script ---
session a
list components
list interfaces
list controllers
=> ok
a list components: none
a list interfaces: none
a list controllers: none
loop begin 0: none
loop end 0: none
loop close: none

version = 1
update_rate = 100
cycles = 1
[[component]]
name = "a"
kind = "sensor"
initial = "unconfigured"
joint = [{ name = "ja", vmax = 1, position = 1, state = ["position"] }]
[[component]]
name = "b"
kind = "actuator"
initial = "inactive"
joint = [{ name = "jb", vmax = 1, position = 2, command = ["position"], state = ["position"] }]
[[component]]
name = "c"
kind = "system"
initial = "finalized"
joint = [{ name = "jc", vmax = 1, position = 3, command = ["position"], state = ["position"] }]
[[component]]
name = "d"
kind = "system"
initial = "active"
joint = [{ name = "jd", vmax = 1, position = 4, command = ["position"], state = ["position"] }]
--- script ---
session a
list components
list interfaces
=> ok
a list components: a sensor unconfigured; b actuator inactive; c system finalized; d system active
a list interfaces: state ja/position unavailable; state jb/position 2.000000; state jc/position unavailable; \
state jd/position 4.000000; command jb/position unset free; command jc/position unavailable; \
command jd/position unset free
loop begin 0: none
loop end 0: joint ja 1.000000 0.000000 0.000000; joint jb 2.000000 0.000000 0.000000; \
joint jc 3.000000 0.000000 0.000000; joint jd 4.000000 0.000000 0.000000
loop close: none

version = 1
update_rate = 100
cycles = 1
[[component]]
name = "leg"
kind = "system"
[[component.joint]]
name = "hip"
vmax = 1
position = "0.1"
velocity = "0.2"
command = ["velocity", "position"]
state = ["velocity", "position"]
[[component.joint]]
name = "knee"
vmax = 1
command = ["effort"]
[[component.joint]]
name = "foot"
vmax = 1
position = "-0.000001"
state = ["effort", "position"]
[[component]]
name = "scale"
kind = "sensor"
[[component.joint]]
name = "load"
vmax = 1
position = "12.5"
state = ["position"]
--- script ---
session a
list interfaces
list components
=> ok
a list interfaces: state hip/velocity 0.200000; state hip/position 0.100000; state foot/effort 0.000000; \
state foot/position -0.000001; state load/position 12.500000; command hip/velocity unset free; \
command hip/position unset free; command knee/effort unset free
a list components: leg system active; scale sensor active
loop begin 0: none
loop end 0: joint hip 0.100000 0.000000 0.000000; joint knee 0.000000 0.000000 0.000000; \
joint foot -0.000001 0.000000 0.000000; joint load 12.500000 0.000000 0.000000
loop close: none

version = 1
update_rate = 100
cycles = 1
[[component]]
name = "arm"
kind = "actuator"
[[component.joint]]
name = "j1"
vmax = 1
command = ["position", "velocity"]
state = ["position"]
[[controller]]
name = "relay"
type = "passthrough"
claims = ["j1/position"]
[[controller]]
name = "servo"
type = "pid"
claims = ["j1/velocity"]
reads = ["j1/position"]
[[controller]]
name = "way"
type = "trajectory"
claims = ["relay/j1/position"]
reads = ["j1/position"]
[[controller]]
name = "mk"
type = "mock"
claims = ["j1/position", "servo/j1/position"]
reads = ["j1/position"]
[[controller]]
name = "eye"
type = "broadcaster"
reads = "all"
--- script ---
session a
load mk
load relay
load servo
load way
load eye
list controllers
list interfaces
=> ok
a load mk: ok 0
a load relay: ok 1
a load servo: ok 2
a load way: ok 3
a load eye: ok 4
a list controllers: mk mock unconfigured 0; relay passthrough unconfigured 1; servo pid unconfigured 2; \
way trajectory unconfigured 3; eye broadcaster unconfigured 4
a list interfaces: state j1/position 0.000000; command j1/position unset free; command j1/velocity unset free; \
command relay/j1/position unavailable; command servo/j1/position unavailable
loop begin 0: none
loop end 0: joint j1 0.000000 0.000000 0.000000
loop close: none"#;
