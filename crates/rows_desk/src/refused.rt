//! A desk to whose calls memory may be refused: `scripts/replay memory` refuses each allocation of the test in turn.

use crate::lines::hold_calls;
use pages_calls::robots::SEVEN;
use std::test::Fail;

/// Fails if a call that was refused memory has changed the history, or if it has another answer when it is made again.
#[test]
fn a_call_that_was_refused_memory_is_made_again(rt: HostRuntime) -> Result<(), Fail> {
    let alloc = rt.alloc();
    hold_calls(&rt, alloc, SEVEN, 2, CALLS)
}

/// A forward, a broadcaster and a mock are switched on together. The mock is not ready in cycle 2, and its update fails
/// in cycle 5. Every call that may want memory is there.
const CALLS: &str = "\
0 load fwd => ok 0
0 load jsb => ok 1
0 load mk => ok 2
0 load pt => ok 3
0 configure fwd => ok
0 configure jsb => ok
0 configure mk => ok
0 configure pt => ok
0 rate pt 50 => ok
0 cleanup pt => ok
0 unload pt => ok, a passthrough, blank
begin => none
end => none
begin => none
0 await 2 => not yet
end => none
0 await 2 => ok
0 switch strict +fwd +jsb +mk => queued 0
0 told 0 => not yet
begin => 0 refused mk not_ready
0 told 0 => refused mk not_ready
0 switch strict +fwd +jsb +mk => queued 1
1 hw arm active => queued 2
end => none
begin => 1 done; 2 done
0 told 1 => done
1 told 2 => done
1 list controllers => fwd forward active 0 every 1; jsb broadcaster active 1 every 1; mk mock active 2 every 1
1 list interfaces => state 0.000000; state 0.000000; command unset 0; command unset free; command unavailable; \
command unavailable
1 list components => active
end => run 0 unset; run 1; run 2
begin => none
1 send fwd 0.5 => ok
end => run 0 unset; run 1; run 2
begin => none
1 switch best -fwd +nosuch => queued 3
end => run 0 0.500000; run 1; run 2; stop 2
close => 3 loop_ended
1 told 3 => loop_ended
history => 0 load fwd: ok 0 / 0 load jsb: ok 1 / 0 load mk: ok 2 / 0 load pt: ok 3 / 0 configure fwd: ok / \
0 configure jsb: ok / 0 configure mk: ok / 0 configure pt: ok / 0 rate pt 50: ok / 0 cleanup pt: ok / \
0 unload pt: ok / 2 begin 0: none / 2 end 0: none; joint 0.000000 0.000000 0.000000 / 2 begin 1: none / \
2 end 1: none; joint 0.000000 0.000000 0.000000 / 0 await 2: ok / 0 switch strict +fwd +jsb +mk: queued 0 / \
2 begin 2: 0 refused mk not_ready / 0 told 0: refused mk not_ready / 0 switch strict +fwd +jsb +mk: queued 1 / \
1 hw arm active: queued 2 / 2 end 2: none; joint 0.000000 0.000000 0.000000 / 2 begin 3: 1 done; 2 done / \
0 told 1: done / 1 told 2: done / \
1 list controllers: fwd forward active 0 every 1; jsb broadcaster active 1 every 1; mk mock active 2 every 1 / \
1 list interfaces: state 0.000000; state 0.000000; command unset 0; command unset free; command unavailable; \
command unavailable / 1 list components: active / \
2 end 3: run 0 unset; run 1; run 2; joint 0.000000 0.000000 0.000000 / 2 begin 4: none / 1 send fwd 0.500000: ok / \
2 end 4: run 0 unset; run 1; run 2; joint 0.000000 0.000000 0.000000 / 2 begin 5: none / \
1 switch best -fwd +nosuch: queued 3 / \
2 end 5: run 0 0.500000; run 1; run 2; stop 2; joint 0.010000 1.000000 0.000000 / 2 close: 3 loop_ended / \
1 told 3: loop_ended";
