//! Documents of several operators, whose sessions settle in order before each cycle; and the same by the turns of a
//! schedule.

/// Several sessions without a robot: one has no lines, eight are as many as there may be, and five ask for a switch at
/// once, so that the last finds a full queue; its await and its other switch come after the close.
pub(crate) const OPERATORS: &str = r#"version = 1
update_rate = 100
cycles = 1
[[controller]]
name = "mk"
type = "mock"
--- script ---
session a
load mk
configure mk
session b
session c
load mk
list controllers
=> ok
a load mk: ok 0
a configure mk: ok
c load mk: loaded
c list controllers: mk mock inactive 0 every 1
loop begin 0: none
loop end 0: none
loop close: none

version = 1
update_rate = 100
cycles = 0
[[controller]]
name = "mk"
type = "mock"
--- script ---
<0..8 * session s#
load mk
>\
=> ok
s0 load mk: ok 0
<1..8 * s# load mk: loaded
>\
loop close: none

version = 1
update_rate = 100
cycles = 1
--- script ---
session a
switch strict
session b
switch strict
session c
switch strict
session d
switch strict
session e
switch strict
await 9
switch strict
=> ok
a switch strict: queued 0
b switch strict: queued 1
c switch strict: queued 2
d switch strict: queued 3
e switch strict: queue_full
loop begin 0: 0 done; 1 done; 2 done; 3 done
loop end 0: none
a told 0: done
b told 1: done
c told 2: done
d told 3: done
loop close: none
e await 9: ok
e switch strict: loop_ended"#;

/// Two operators of `ROBOT`: one waits for its request while the other goes on, one takes the joint over from the
/// other, and a schedule is passed over where no turns are asked for.
pub(crate) const TWO_OPERATORS: &str = r"cycles = 3
--- script ---
session left
load fwd
configure fwd
switch strict +fwd
await 2
send fwd 0.5
session right
load traj2
configure traj2
await 1
switch strict -fwd +traj2
list controllers
=> ok
left load fwd: ok 0
left configure fwd: ok
left switch strict +fwd: queued 0
right load traj2: ok 1
right configure traj2: ok
loop begin 0: 0 done
loop end 0: run fwd ok unset; joint j1 0.000000 0.000000 0.000000
left told 0: done
right await 1: ok
right switch strict -fwd +traj2: queued 1
loop begin 1: 1 done
loop end 1: run traj2 ok 0.000000; joint j1 0.000000 0.000000 0.000000
left await 2: ok
left send fwd 0.500000: not_active
right told 1: done
right list controllers: fwd forward inactive 0 every 1; traj2 trajectory active 1 every 1
loop begin 2: none
loop end 2: run traj2 ok 0.000000; joint j1 0.000000 0.000000 0.000000
loop close: none

cycles = 1
--- script ---
session a
load fwd
configure fwd
switch strict +fwd
unload fwd
session b
load traj2
configure traj2
unload traj2
schedule
step a
step a
step a
step b
step b
begin
step a
step a
step b
end
=> ok
a load fwd: ok 0
a configure fwd: ok
a switch strict +fwd: queued 0
b load traj2: ok 1
b configure traj2: ok
b unload traj2: ok
loop begin 0: 0 done
loop end 0: run fwd ok unset; joint j1 0.000000 0.000000 0.000000
a told 0: done
a unload fwd: active
loop close: none";
