//! Whole documents whose session calls for controllers, each with what is printed of its run.

/// A controller from its load to its unload; as many loads as there are blanks of a kind, and one more; all blanks of
/// two kinds at once; and calls before cycles, which go on as if they had not been made: an inactive controller
/// commands nothing, is not updated, and stays where its hardware fails.
pub(crate) const DOCUMENTS: &str = r#"version = 1
update_rate = 100
cycles = 0
[[component]]
name = "arm"
kind = "actuator"
[[component.joint]]
name = "j1"
vmax = 1
command = ["position"]
state = ["position"]
[[controller]]
name = "fwd"
type = "forward"
claims = ["j1/position"]
--- script ---
session a
load fwd
configure fwd
rate fwd 25
configure fwd
list controllers
cleanup fwd
list controllers
send fwd 1
unload fwd
unload fwd
=> ok
a load fwd: ok 0
a configure fwd: ok
a rate fwd 25: ok
a configure fwd: ok
a list controllers: fwd forward inactive 0 every 4
a cleanup fwd: ok
a list controllers: fwd forward unconfigured 0
a send fwd 1.000000: not_active
a unload fwd: ok
a unload fwd: not_loaded
loop close: none

version = 1
update_rate = 100
cycles = 0
[[component]]
name = "arm"
kind = "actuator"
[[component.joint]]
name = "j1"
vmax = 1
command = ["position"]
state = ["position"]
[[controller]]
name = "fwd"
type = "forward"
claims = ["j1/position"]
[[controller]]
name = "relay"
type = "passthrough"
claims = ["j1/position"]
--- script ---
session a
<0..32 * load fwd
unload fwd
>\
load fwd
load relay
=> ok
<0..32 * a load fwd: ok #
a unload fwd: ok
>a load fwd: stock_empty
a load relay: ok 32
loop close: none

version = 1
update_rate = 100
cycles = 0
[[component]]
name = "arm"
kind = "actuator"
[[component.joint]]
name = "j1"
vmax = 1
command = ["position"]
<0..33 * [[controller]]
name = "f#"
type = "forward"
claims = ["j1/position"]
>\
<32..63 * [[controller]]
name = "p#"
type = "passthrough"
claims = ["j1/position"]
>\
--- script ---
session a
<0..33 * load f#
configure f#
>\
<32..63 * load p#
>\
load f31
load f32
list controllers
=> ok
<0..32 * a load f#: ok #
a configure f#: ok
>a load f32: stock_empty
a configure f32: not_loaded
<32..63 * a load p#: ok #
>a load f31: loaded
a load f32: stock_empty
a list controllers: f0 forward inactive 0 every 1<1..32 * ; f# forward inactive # every 1>\
<32..63 * ; p# passthrough unconfigured #>
loop close: none

version = 1
update_rate = 100
cycles = 0
[[component]]
name = "arm"
kind = "actuator"
[[component.joint]]
name = "j1"
vmax = 1
command = ["position"]
state = ["position"]
[[controller]]
name = "servo"
type = "pid"
claims = ["j1/position"]
reads = ["j1/position"]
[[controller]]
name = "way"
type = "trajectory"
claims = ["j1/position"]
reads = ["j1/position"]
[[controller]]
name = "eye"
type = "broadcaster"
reads = "all"
--- script ---
session a
<0..32 * load servo
unload servo
>\
<0..32 * load way
unload way
>\
<0..32 * load eye
unload eye
>\
load servo
load way
load eye
=> ok
<0..32 * a load servo: ok #
a unload servo: ok
>\
<32..64 * a load way: ok #
a unload way: ok
>\
<64..96 * a load eye: ok #
a unload eye: ok
>\
a load servo: stock_empty
a load way: stock_empty
a load eye: stock_empty
loop close: none

version = 1
update_rate = 100
cycles = 2
[[component]]
name = "arm"
kind = "system"
fail_write = [1]
[[component.joint]]
name = "j1"
vmax = 1
position = "0.25"
velocity = "0.5"
command = ["position", "velocity"]
state = ["position"]
[[controller]]
name = "fwd"
type = "forward"
claims = ["j1/position"]
[[controller]]
name = "relay"
type = "passthrough"
update_rate = 50
claims = ["j1/velocity"]
[[controller]]
name = "above"
type = "forward"
claims = ["relay/j1/velocity"]
[[controller]]
name = "mk"
type = "mock"
reads = ["j1/position"]
fail_update = [0, 1]
--- script ---
session operator
list interfaces
load above
load relay
load mk
configure above
configure relay
configure mk
send above 1
list controllers
list interfaces
list components
load fwd
=> ok
operator list interfaces: state j1/position 0.250000; command j1/position unset free; command j1/velocity unset free; \
command relay/j1/velocity unavailable
operator load above: ok 0
operator load relay: ok 1
operator load mk: ok 2
operator configure above: ok
operator configure relay: ok
operator configure mk: ok
operator send above 1.000000: not_active
operator list controllers: above forward inactive 0 every 1; relay passthrough inactive 1 every 2; \
mk mock inactive 2 every 1
operator list interfaces: state j1/position 0.250000; command j1/position unset free; command j1/velocity unset free; \
command relay/j1/velocity unavailable
operator list components: arm system active
operator load fwd: ok 3
loop begin 0: none
loop end 0: joint j1 0.250000 0.000000 0.000000
loop begin 1: none
loop end 1: fail arm write; joint j1 0.250000 0.000000 0.000000
loop close: none

version = 1
update_rate = 100
cycles = 1
[[component]]
name = "arm"
kind = "actuator"
initial = "unconfigured"
[[component.joint]]
name = "j1"
vmax = 1
command = ["position"]
state = ["position"]
[[controller]]
name = "fwd"
type = "forward"
claims = ["j1/position"]
--- script ---
session a
load fwd
configure fwd
list controllers
list interfaces
=> ok
a load fwd: ok 0
a configure fwd: ok
a list controllers: fwd forward inactive 0 every 1
a list interfaces: state j1/position unavailable; command j1/position unavailable
loop begin 0: none
loop end 0: joint j1 0.000000 0.000000 0.000000
loop close: none

version = 1
update_rate = 100
cycles = 1
[[controller]]
name = "mk"
type = "mock"
--- script ---
session a
load mk
configure mk
session a
=> script: bad_line 11

version = 1
update_rate = 100
cycles = 1
[[controller]]
name = "mk"
type = "mock"
--- script ---
session a
rate mk 10001
configure mk
=> script: bad_line 9

version = 1
update_rate = 100
cycles = 1
[[controller]]
name = "mk"
type = "mock"
--- script ---
configure mk
session a
=> script: no_session 8"#;
