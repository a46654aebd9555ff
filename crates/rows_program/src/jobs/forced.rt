//! Live runs whose threads are held in an order, so that what they print is known.

use crate::jobs::running::hold;
use std::test::Fail;

/// How often a case is run whose order leaves a run one way to go.
const TIMES: u32 = 200;

#[test]
fn a_session_calls_while_a_cycle_is_aloft(rt: HostRuntime) -> Result<(), Fail> {
    hold(&rt, rt.alloc(), ALOFT, TIMES)
}

#[test]
fn two_sessions_call_in_either_order(rt: HostRuntime) -> Result<(), Fail> {
    hold(&rt, rt.alloc(), EITHER, TIMES)
}

#[test]
fn a_session_calls_between_a_failure_and_who_stands_in(rt: HostRuntime) -> Result<(), Fail> {
    hold(&rt, rt.alloc(), STAND_INS, TIMES)
}

/// The loop waits for the session before it computes the flight, or after. The session waits for the loop, so neither
/// one thread alone nor a loop that keeps its turn until the landing comes through.
const ALOFT: &str = "cycles = 1
--- script ---
session a
load fwd
order: begun 0, before 0 0, answered 0 0, computing 0
=> ok
loop begin 0: none
a load fwd: ok 0
loop end 0: joint j1 0.000000 0.000000 0.000000
loop close: none

cycles = 1
--- script ---
session a
load fwd
order: computing 0, before 0 0, answered 0 0, computed 0
=> ok
loop begin 0: none
a load fwd: ok 0
loop end 0: joint j1 0.000000 0.000000 0.000000
loop close: none";

/// Sessions that were run one after the other would come through one of the two alone.
const EITHER: &str = "cycles = 1
--- script ---
session a
load fwd
session b
load fwd
order: begun 0, before 0 0, answered 0 0, before 1 0, answered 1 0, computed 0
=> ok
loop begin 0: none
a load fwd: ok 0
b load fwd: loaded
loop end 0: joint j1 0.000000 0.000000 0.000000
loop close: none

cycles = 1
--- script ---
session a
load fwd
session b
load fwd
order: begun 0, before 1 0, answered 1 0, before 0 0, answered 0 0, computed 0
=> ok
loop begin 0: none
b load fwd: ok 0
a load fwd: loaded
loop end 0: joint j1 0.000000 0.000000 0.000000
loop close: none";

/// A mock fails in cycle 1. The session calls while the cycle is aloft in which another one stands in for it; or in the
/// pause before that, where it takes away who is to stand in, or asks for it too late.
const STAND_INS: &str = "cycles = 3
--- script ---
session a
load mk
load fwd
configure mk
configure fwd
switch strict +mk
list components
unload fwd
order: begun 0, before 0 0, answered 0 4, computed 0, begun 1, before 0 5, answered 0 5, computed 1, \
begun 2, before 0 6, answered 0 6, computed 2
=> ok
loop begin 0: none
a load mk: ok 0
a load fwd: ok 1
a configure mk: ok
a configure fwd: ok
a switch strict +mk: queued 0
loop end 0: joint j1 0.000000 0.000000 0.000000
loop begin 1: 0 done
a told 0: done
a list components: arm actuator active
loop end 1: run mk error; joint j1 0.000000 0.000000 0.000000; stop mk
loop begin 2: fallback done
a unload fwd: active
loop end 2: run fwd ok unset; joint j1 0.000000 0.000000 0.000000
loop close: none

cycles = 3
--- script ---
session a
load mk
load fwd
configure mk
configure fwd
switch strict +mk
list components
unload fwd
order: begun 0, before 0 0, answered 0 4, computed 0, begun 1, before 0 5, answered 0 5, computed 1, \
landed 1, before 0 6, answered 0 6, paused 1, begun 2
=> ok
loop begin 0: none
a load mk: ok 0
a load fwd: ok 1
a configure mk: ok
a configure fwd: ok
a switch strict +mk: queued 0
loop end 0: joint j1 0.000000 0.000000 0.000000
loop begin 1: 0 done
a told 0: done
a list components: arm actuator active
loop end 1: run mk error; joint j1 0.000000 0.000000 0.000000; stop mk
a unload fwd: ok
loop begin 2: fallback done dropped fwd unknown
loop end 2: joint j1 0.000000 0.000000 0.000000
loop close: none

cycles = 3
--- script ---
session a
load mk
load fwd
configure mk
configure fwd
switch strict +mk
list components
switch strict +fwd
list components
order: begun 0, before 0 0, answered 0 4, computed 0, begun 1, before 0 5, answered 0 5, computed 1, \
landed 1, before 0 6, answered 0 6, paused 1, begun 2, before 0 7, answered 0 7, computed 2
=> ok
loop begin 0: none
a load mk: ok 0
a load fwd: ok 1
a configure mk: ok
a configure fwd: ok
a switch strict +mk: queued 0
loop end 0: joint j1 0.000000 0.000000 0.000000
loop begin 1: 0 done
a told 0: done
a list components: arm actuator active
loop end 1: run mk error; joint j1 0.000000 0.000000 0.000000; stop mk
a switch strict +fwd: queued 1
loop begin 2: fallback done; 1 refused fwd already_active
a told 1: refused fwd already_active
a list components: arm actuator active
loop end 2: run fwd ok unset; joint j1 0.000000 0.000000 0.000000
loop close: none";
