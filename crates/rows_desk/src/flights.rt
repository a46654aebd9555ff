//! Flights: what is called while a cycle is aloft, a flight that another thread computes, and one that is dropped.

use crate::lines::hold_calls;
use pages_calls::robots::SEVEN;
use pages_cases::pages::joined;
use std::alloc::Global;
use std::test::Fail;
use std::thread::Threads;

/// How many sessions the desk has.
const SESSIONS: u32 = 2;

#[test]
fn what_is_unloaded_while_a_cycle_is_aloft_keeps_its_parameters(
    rt: HostRuntime,
) -> Result<(), Fail> {
    let robot = SEVEN.replace(rt.alloc(), "cycles = 6", "cycles = 1")?;
    hold_calls(&rt, rt.alloc(), robot.as_str(), SESSIONS, UNLOADED_ALOFT)
}

#[test]
fn another_thread_computes_a_flight(rt: HostRuntime) -> Result<(), Fail> {
    hold_calls(&rt, rt.alloc(), SEVEN, SESSIONS, COMPUTED_ASIDE)
}

#[test]
fn a_desk_whose_flight_is_dropped_stays_aloft(rt: HostRuntime) -> Result<(), Fail> {
    hold_calls(&rt, rt.alloc(), SEVEN, SESSIONS, DROPPED)
}

#[test]
fn a_console_is_told_the_same_while_a_cycle_is_aloft(rt: HostRuntime) -> Result<(), Fail> {
    hold_around(&rt, rt.alloc(), "", OF_THE_NEXT_CYCLE)?;
    hold_around(&rt, rt.alloc(), ALOFT, ALOFT_THEN)?;
    hold_around(&rt, rt.alloc(), COMPUTED, COMPUTED_THEN)
}

/// The calls of a console, with these lines before and behind them.
fn hold_around<R: Threads>(rt: &R, alloc: Global, before: &str, behind: &str) -> Result<(), Fail> {
    let page = joined(alloc, AT_FIRST, before)?;
    let page = joined(alloc, page.as_str(), AT_ANY_TIME)?;
    let page = joined(alloc, page.as_str(), behind)?;
    hold_calls(rt, alloc, SEVEN, SESSIONS, page.as_str())
}

/// A controller that is not active is unloaded between a begin and its landing, once before the flight is computed and
/// once after it. Its box has the parameters that it was given and does not run, and the history is the same.
const UNLOADED_ALOFT: &str = "\
0 load fwd => ok 0
0 configure fwd => ok
0 switch strict +fwd => queued 0
1 load traj2 => ok 1
1 configure traj2 => ok
begin => 0 done
0 told 0 => done
0 unload fwd => active
1 unload traj2 => ok, a trajectory for 1
land => cannot
compute => run 0 unset
land => run 0 unset
begin => cannot
close => none
history => 0 load fwd: ok 0 / 0 configure fwd: ok / 0 switch strict +fwd: queued 0 / 1 load traj2: ok 1 / \
1 configure traj2: ok / 2 begin 0: 0 done / 0 told 0: done / 0 unload fwd: active / 1 unload traj2: ok / \
2 end 0: run 0 unset; joint 0.000000 0.000000 0.000000 / 2 close: none

0 load fwd => ok 0
0 configure fwd => ok
0 switch strict +fwd => queued 0
1 load traj2 => ok 1
1 configure traj2 => ok
begin => 0 done
0 told 0 => done
0 unload fwd => active
compute => run 0 unset
1 unload traj2 => ok, a trajectory for 1
compute => cannot
land => run 0 unset
land => cannot
close => none
history => 0 load fwd: ok 0 / 0 configure fwd: ok / 0 switch strict +fwd: queued 0 / 1 load traj2: ok 1 / \
1 configure traj2: ok / 2 begin 0: 0 done / 0 told 0: done / 0 unload fwd: active / 1 unload traj2: ok / \
2 end 0: run 0 unset; joint 0.000000 0.000000 0.000000 / 2 close: none";

/// A flight is moved to another thread, computed there, and lands: of a cycle before the first value is sent, and of
/// one that takes it, which is 10 ms at a speed of 1 a second.
const COMPUTED_ASIDE: &str = "\
0 load fwd => ok 0
0 configure fwd => ok
0 switch strict +fwd => queued 0
begin => 0 done
compute aside => run 0 unset
compute aside => cannot
land => run 0 unset
compute aside => cannot
0 send fwd 0.5 => ok
begin => none
0 send fwd 0.25 => ok
compute aside => run 0 0.500000
1 unload fwd => active
land => run 0 0.500000
begin => none
compute => run 0 0.250000
land => run 0 0.250000
history => 0 load fwd: ok 0 / 0 configure fwd: ok / 0 switch strict +fwd: queued 0 / 2 begin 0: 0 done / \
2 end 0: run 0 unset; joint 0.000000 0.000000 0.000000 / 0 send fwd 0.500000: ok / 2 begin 1: none / \
0 send fwd 0.250000: ok / 1 unload fwd: active / 2 end 1: run 0 0.500000; joint 0.010000 1.000000 0.000000 / \
2 begin 2: none / 2 end 2: run 0 0.250000; joint 0.020000 1.000000 0.000000";

/// A flight is dropped, before it is computed and after. No cycle begins any more and the loop does not close, while
/// sessions are answered: what they ask for waits for good.
const DROPPED: &str = "\
0 load fwd => ok 0
0 configure fwd => ok
0 switch strict +fwd => queued 0
begin => 0 done
drop => ok
drop => cannot
compute => cannot
compute aside => cannot
land => cannot
begin => cannot
close => cannot
0 told 0 => done
1 load traj2 => ok 1
1 configure traj2 => ok
0 send fwd 0.5 => ok
0 switch strict -fwd => queued 1
0 told 1 => not yet
0 await 1 => not yet
0 unload fwd => active
1 unload traj2 => ok, a trajectory for 1
0 list controllers => fwd forward active 0 every 1
begin => cannot
close => cannot

0 load fwd => ok 0
0 configure fwd => ok
0 switch strict +fwd => queued 0
begin => 0 done
compute => run 0 unset
drop => ok
land => cannot
begin => cannot
close => cannot
0 told 0 => done
0 cleanup fwd => not_inactive
0 await 0 => ok
0 await 1 => not yet";

/// One controller is active and holds a value, so that its joint moves from now on: what is read of it in the next
/// cycle is not what was read in the last. Two others are loaded, of which one is configured.
const AT_FIRST: &str = "\
0 load fwd => ok 0
0 configure fwd => ok
0 load traj2 => ok 1
0 configure traj2 => ok
0 load mk => ok 2
0 switch strict +fwd => queued 0
begin => 0 done
end => run 0 unset
0 send fwd 0.5 => ok
begin => none
end => run 0 0.500000
";

/// The next cycle is aloft.
const ALOFT: &str = "begin => none\n";

/// The next cycle is aloft, and its flight is computed.
const COMPUTED: &str = "begin => none\ncompute => run 0 0.500000\n";

/// A call of each kind, done and refused. What is told of each is the same before a begin and after it, and before the
/// flight is computed and after it: the interfaces hold what they held, also where the flight has read others.
const AT_ANY_TIME: &str = "\
0 list controllers => fwd forward active 0 every 1; traj2 trajectory inactive 1 every 1; mk mock unconfigured 2
0 list interfaces => state 0.000000; state 0.000000; command 0.500000 0; command unset free; \
command unavailable; command unavailable
0 list components => active
0 load nosuch => not_described
0 load fwd => loaded
1 load jsb => ok 3
1 configure nosuch => not_loaded
1 configure fwd => active
1 configure jsb => ok
0 cleanup nosuch => not_loaded
0 cleanup fwd => not_inactive
0 cleanup mk => not_inactive
0 cleanup traj2 => ok
0 rate nosuch 25 => not_loaded
0 rate fwd 25 => active
0 rate traj2 25 => ok
0 configure traj2 => ok
0 send nosuch 1 => not_loaded
0 send traj2 1 => not_active
0 send fwd 0.25 => ok
0 switch strict -fwd +traj2 => queued 1
1 hw arm inactive => queued 2
0 told 0 => done
0 told 1 => not yet
0 await 2 => ok
0 await 3 => not yet
0 list controllers => fwd forward active 0 every 1; traj2 trajectory inactive 1 every 4; mk mock unconfigured 2; \
jsb broadcaster inactive 3 every 1
1 unload nosuch => not_loaded
1 unload fwd => active
1 unload jsb => ok, a broadcaster for 0
1 unload mk => ok, a mock, blank
1 load mk => stock_empty
0 list controllers => fwd forward active 0 every 1; traj2 trajectory inactive 1 every 4
0 list interfaces => state 0.000000; state 0.000000; command 0.500000 0; command unset free; \
command unavailable; command unavailable
0 list components => active
";

/// What was asked for is decided where the next cycle begins. A controller of every fourth cycle does not run in the
/// third.
const OF_THE_NEXT_CYCLE: &str = "\
begin => 1 done; 2 done
0 list interfaces => state 0.000000; state 0.000000; command unset 1; command unset free; \
command unavailable; command unavailable
end => none";

/// The same, after the cycle that is aloft: the value that was sent meanwhile is not taken in it, and with the switch
/// it is gone.
const ALOFT_THEN: &str = "\
compute => run 0 0.500000
0 list interfaces => state 0.000000; state 0.000000; command 0.500000 0; command unset free; \
command unavailable; command unavailable
land => run 0 0.500000
0 list interfaces => state 0.010000; state 1.000000; command 0.500000 0; command unset free; \
command unavailable; command unavailable
begin => 1 done; 2 done
end => none";

/// The same, where the flight is computed already.
const COMPUTED_THEN: &str = "\
land => run 0 0.500000
0 list interfaces => state 0.010000; state 1.000000; command 0.500000 0; command unset free; \
command unavailable; command unavailable
begin => 1 done; 2 done
end => none";
