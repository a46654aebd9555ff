//! Documents whose schedule says who is next, and what is printed of their turns and of the rest, which goes as without
//! a schedule.

/// The turns of two operators of one robot. In the first case a switch is decided where the cycle begins, and told
/// while it is aloft: there the active controller is not unloaded, and the other is.
pub(crate) const TURNS: &str = r"cycles = 1
--- script ---
session a
load fwd
configure fwd
switch strict +fwd
unload fwd
session b
load traj2
configure traj2
unload traj2
schedule
step a
step a
step a
step b
step b
begin
step a
step a
step b
end
=> ok
a load fwd: ok 0
a configure fwd: ok
a switch strict +fwd: queued 0
b load traj2: ok 1
b configure traj2: ok
loop begin 0: 0 done
a told 0: done
a unload fwd: active
b unload traj2: ok
loop end 0: run fwd ok unset; joint j1 0.000000 0.000000 0.000000
loop close: none

cycles = 2
--- script ---
session a
load fwd
configure fwd
switch strict +fwd
session b
load traj2
configure traj2
switch strict +traj2
schedule
step b
step b
step b
step a
step a
step a
begin
step a
step b
end
=> ok
b load traj2: ok 0
b configure traj2: ok
b switch strict +traj2: queued 0
a load fwd: ok 1
a configure fwd: ok
a switch strict +fwd: queued 1
loop begin 0: 0 done; 1 refused fwd conflict j1/position traj2
a told 1: refused fwd conflict j1/position traj2
b told 0: done
loop end 0: run traj2 ok 0.000000; joint j1 0.000000 0.000000 0.000000
loop begin 1: none
loop end 1: run traj2 ok 0.000000; joint j1 0.000000 0.000000 0.000000
loop close: none

cycles = 2
--- script ---
session a
load fwd
configure fwd
switch strict +fwd
send fwd 0.5
list interfaces
session b
send fwd 0.25
list interfaces
schedule
step a
step a
step a
begin
step a
step a
step a
step b
end
step b
=> ok
a load fwd: ok 0
a configure fwd: ok
a switch strict +fwd: queued 0
loop begin 0: 0 done
a told 0: done
a send fwd 0.500000: ok
a list interfaces: state j1/position 0.000000; state j1/velocity 0.000000; command j1/position unset fwd; \
command j1/velocity unset free
b send fwd 0.250000: ok
loop end 0: run fwd ok unset; joint j1 0.000000 0.000000 0.000000
b list interfaces: state j1/position 0.000000; state j1/velocity 0.000000; command j1/position unset fwd; \
command j1/velocity unset free
loop begin 1: none
loop end 1: run fwd ok 0.250000; joint j1 0.010000 1.000000 0.000000
loop close: none";

/// Turns that cannot be made do nothing: to end what is not aloft, to begin what is or what is not left, to go on
/// without a line or before the ticket is decided or the cycle has ended.
pub(crate) const IDLE_TURNS: &str = r"cycles = 1
--- script ---
session a
switch strict
load mk
await 1
session b
schedule
end
step b
step a
step a
begin
begin
step a
step a
step a
end
end
begin
step a
step a
=> ok
a switch strict: queued 0
loop begin 0: 0 done
a told 0: done
a load mk: ok 0
loop end 0: joint j1 0.000000 0.000000 0.000000
a await 1: ok
loop close: none

cycles = 0
--- script ---
session a
load mk
schedule
begin
step a
end
=> ok
a load mk: ok 0
loop close: none";

/// What comes after the turns: a cycle that is aloft ends, the cycles that are left follow, and the sessions settle as
/// without turns.
pub(crate) const AFTER_TURNS: &str = r"cycles = 2
--- script ---
session a
load mk
list controllers
session b
load fwd
schedule
step b
begin
step a
=> ok
b load fwd: ok 0
loop begin 0: none
a load mk: ok 1
loop end 0: joint j1 0.000000 0.000000 0.000000
a list controllers: fwd forward unconfigured 0; mk mock unconfigured 1
loop begin 1: none
loop end 1: joint j1 0.000000 0.000000 0.000000
loop close: none

cycles = 1
--- script ---
session a
switch strict
list components
schedule
begin
step a
=> ok
loop begin 0: none
a switch strict: queued 0
loop end 0: joint j1 0.000000 0.000000 0.000000
loop close: 0 loop_ended
a told 0: loop_ended
a list components: arm system active

cycles = 1
--- script ---
session a
load mk
session b
list controllers
=> ok
a load mk: ok 0
b list controllers: mk mock unconfigured 0
loop begin 0: none
loop end 0: joint j1 0.000000 0.000000 0.000000
loop close: none

cycles = 1
--- script ---
session a
load mk
session b
list controllers
schedule
=> ok
a load mk: ok 0
b list controllers: mk mock unconfigured 0
loop begin 0: none
loop end 0: joint j1 0.000000 0.000000 0.000000
loop close: none";
