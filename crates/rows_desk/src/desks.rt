//! The desk, call by call: several sessions whose requests wait together, and calls while a cycle is aloft.

use crate::lines::hold_calls;
use std::test::Fail;

#[test]
fn a_desk_answers_several_sessions(rt: HostRuntime) -> Result<(), Fail> {
    hold_calls(&rt, rt.alloc(), ROBOT, SESSIONS, CALLS)
}

/// How many sessions the desk has.
const SESSIONS: u32 = 5;

/// A joint whose write fails in cycle 2, two controllers that may command it, and one that claims nothing.
const ROBOT: &str = r#"version = 1
update_rate = 100
cycles = 3
[[component]]
name = "arm"
kind = "actuator"
fail_write = [2]
[[component.joint]]
name = "j1"
vmax = 1
command = ["position"]
[[controller]]
name = "fwd"
type = "forward"
claims = ["j1/position"]
[[controller]]
name = "pt"
type = "passthrough"
claims = ["j1/position"]
[[controller]]
name = "mk"
type = "mock"
"#;

/// Four requests wait together and a fifth does not; they are decided where the cycle begins, each in the state that
/// the one before it left, and told from then on. What waits at the close ends with the loop. While a cycle is aloft
/// controllers that are not active come and go, and what is sent waits for the next cycle; what was sent to a
/// controller that the end stops is gone.
const CALLS: &str = "\
0 load fwd => ok 0
0 configure fwd => ok
1 load mk => ok 1
0 switch strict +fwd => queued 0
1 switch strict +mk => queued 1
2 switch strict -fwd => queued 2
3 hw arm inactive => queued 3
4 switch strict => queue_full
4 hw arm active => queue_full
0 told 0 => not yet
0 await 0 => ok
0 await 1 => not yet
begin => 0 done; 1 refused mk not_configured; 2 done; 3 done
0 told 0 => done
1 told 1 => refused mk not_configured
2 told 2 => done
3 told 3 => done
4 told 4 => not yet
4 switch strict +nosuch => queued 4
4 told 4 => not yet
0 await 1 => not yet
end => none
0 await 1 => ok
4 told 4 => not yet
0 await 9 => not yet
close => 4 loop_ended
4 told 4 => loop_ended
0 await 9 => ok
0 switch strict +fwd => loop_ended
0 hw arm active => loop_ended

0 load fwd => ok 0
0 configure fwd => ok
0 switch strict +fwd => queued 0
0 send fwd 0.125 => not_active
1 load pt => ok 1
1 configure pt => ok
begin => 0 done
0 unload fwd => active
1 unload pt => ok, a passthrough for 1
1 load mk => ok 2
1 configure mk => ok
1 switch strict +mk => queued 1
0 send fwd 0.25 => ok
end => run 0 unset
begin => 1 done
0 send fwd 0.5 => ok
0 switch strict -fwd +fwd => queued 2
1 unload mk => active
end => run 0 0.250000; run 2
begin => 2 done
0 send fwd 0.75 => ok
end => run 0 unset; run 2; stop 0
0 send fwd 0.5 => not_active
0 unload fwd => ok, a forward for 1
1 unload mk => active
close => none
1 unload mk => active";
