//! Two sessions and the loop at a shared desk, call by call.

use crate::shared::lines::hold_calls;
use pages_calls::robots::SEVEN;
use std::test::Fail;

/// One controller, and no hardware.
const ONE: &str = r#"version = 1
update_rate = 100
cycles = 2
[[controller]]
name = "mk"
type = "mock"
"#;

#[test]
fn sessions_are_answered_while_a_flight_is_out(rt: HostRuntime) -> Result<(), Fail> {
    hold_calls(&rt, rt.alloc(), ONE, WHILE_ALOFT)
}

/// A session loads while the flight is out and not computed. The published number of cycles rises when the flight
/// lands, that of requests when a begin or the close decides them. What comes too early leaves no entry.
const WHILE_ALOFT: &str = "\
loop begin => ok
0 load mk => ok 0
1 cycles seen => 0
loop compute => ok
loop land => ok
1 cycles seen => 1
loop close => ok
finish => 2 begin 0: none / 0 load mk: ok 0 / 2 end 0: none / 2 close: none

0 load mk => ok 0
0 configure mk => ok
0 switch strict +mk => queued 0
0 told 0 => not yet
1 tickets seen => 0
0 await 0 => ok
0 await 1 => not yet
loop begin => ok
1 tickets seen => 1
0 told 0 => done
loop begin => cannot
loop land => cannot
loop close => cannot
loop compute => ok
loop compute => cannot
0 await 1 => not yet
1 cycles seen => 0
loop land => ok
1 cycles seen => 1
0 await 1 => ok
1 unload mk => active
loop close => ok
loop close => cannot
loop begin => cannot
0 await 9 => ok
0 switch strict -mk => loop_ended
finish => 0 load mk: ok 0 / 0 configure mk: ok / 0 switch strict +mk: queued 0 / 0 await 0: ok / 2 begin 0: 0 done / \
0 told 0: done / 2 end 0: run 0 / 0 await 1: ok / 1 unload mk: active / 2 close: none / 0 await 9: ok / \
0 switch strict -mk: loop_ended

1 switch strict +nosuch => queued 0
0 tickets seen => 0
loop close => ok
0 tickets seen => 1
0 cycles seen => 0
1 told 0 => loop_ended
finish => 1 switch strict +nosuch: queued 0 / 2 close: 0 loop_ended / 1 told 0: loop_ended

0 load nosuch => not_described
finish => cannot";

#[test]
fn each_call_is_answered_at_each_lifecycle_state(rt: HostRuntime) -> Result<(), Fail> {
    hold_calls(&rt, rt.alloc(), SEVEN, AT_EACH_STATE)
}

/// A controller is not loaded, then unconfigured, inactive, active, and inactive again. Another is asked for before it
/// is configured. The component is active, then inactive, unconfigured and finalized.
const AT_EACH_STATE: &str = "\
0 configure fwd => not_loaded
0 cleanup fwd => not_loaded
0 unload fwd => not_loaded
0 rate fwd 50 => not_loaded
0 send fwd 0.5 => not_loaded
0 list controllers => none
0 load fwd => ok 0
1 load fwd => loaded
1 cleanup fwd => not_inactive
1 rate fwd 50 => ok
1 send fwd 0.5 => not_active
1 list controllers => fwd forward unconfigured 0
1 load mk => ok 1
1 unload mk => ok, with its box
1 load mk => stock_empty
0 configure fwd => ok
0 load fwd => loaded
0 rate fwd 100 => ok
0 send fwd 0.5 => not_active
0 list controllers => fwd forward inactive 0 every 2
0 configure fwd => ok
0 list controllers => fwd forward inactive 0 every 1
0 cleanup fwd => ok
0 configure fwd => ok
1 load traj2 => ok 2
1 configure traj2 => ok
1 unload traj2 => ok, with its box
0 switch strict +fwd => queued 0
loop begin => ok
0 told 0 => done
1 load fwd => loaded
1 configure fwd => active
1 cleanup fwd => not_inactive
1 unload fwd => active
1 rate fwd 50 => active
1 send fwd 0.5 => ok
1 list controllers => fwd forward active 0 every 1
1 list components => active
loop compute => ok
1 list interfaces => state 0.000000; state 0.000000; command unset 0; command unset free; command unavailable; \
command unavailable
loop land => ok
0 switch strict -fwd => queued 1
1 hw arm inactive => queued 2
loop begin => ok
0 told 1 => done
1 told 2 => done
0 list controllers => fwd forward inactive 0 every 1
0 list components => inactive
1 hw arm unconfigured => queued 3
1 hw nosuch active => queued 4
loop compute => ok
loop land => ok
loop begin => ok
1 told 3 => done
1 told 4 => refused nosuch unknown
0 list components => unconfigured
0 list interfaces => state unavailable; state unavailable; command unavailable; command unavailable; \
command unavailable; command unavailable
1 hw arm finalized => queued 5
1 hw arm active => queued 6
0 switch strict +fwd => queued 7
loop compute => ok
loop land => ok
loop begin => ok
1 told 5 => done
1 told 6 => refused arm no_such_move
0 told 7 => refused fwd unavailable j1/position
0 list components => finalized
0 unload fwd => ok, with its box
0 list controllers => none
loop compute => ok
loop land => ok
0 switch strict +fwd => queued 8
1 load pid => ok 3
1 switch strict +pid => queued 9
loop begin => ok
0 told 8 => refused fwd unknown
1 told 9 => refused pid not_configured
loop compute => ok
loop land => ok
loop close => ok
finish => 0 configure fwd: not_loaded / 0 cleanup fwd: not_loaded / 0 unload fwd: not_loaded / \
0 rate fwd 50: not_loaded / 0 send fwd 0.500000: not_loaded / 0 list controllers: none / 0 load fwd: ok 0 / \
1 load fwd: loaded / 1 cleanup fwd: not_inactive / 1 rate fwd 50: ok / 1 send fwd 0.500000: not_active / \
1 list controllers: fwd forward unconfigured 0 / 1 load mk: ok 1 / 1 unload mk: ok / 1 load mk: stock_empty / \
0 configure fwd: ok / 0 load fwd: loaded / 0 rate fwd 100: ok / 0 send fwd 0.500000: not_active / \
0 list controllers: fwd forward inactive 0 every 2 / 0 configure fwd: ok / \
0 list controllers: fwd forward inactive 0 every 1 / 0 cleanup fwd: ok / 0 configure fwd: ok / 1 load traj2: ok 2 / \
1 configure traj2: ok / 1 unload traj2: ok / 0 switch strict +fwd: queued 0 / 2 begin 0: 0 done / 0 told 0: done / \
1 load fwd: loaded / 1 configure fwd: active / 1 cleanup fwd: not_inactive / 1 unload fwd: active / \
1 rate fwd 50: active / 1 send fwd 0.500000: ok / 1 list controllers: fwd forward active 0 every 1 / \
1 list components: active / \
1 list interfaces: state 0.000000; state 0.000000; command unset 0; command unset free; command unavailable; \
command unavailable / \
2 end 0: run 0 unset / 0 switch strict -fwd: queued 1 / 1 hw arm inactive: queued 2 / 2 begin 1: 1 done; 2 done / \
0 told 1: done / 1 told 2: done / 0 list controllers: fwd forward inactive 0 every 1 / 0 list components: inactive / \
1 hw arm unconfigured: queued 3 / 1 hw nosuch active: queued 4 / 2 end 1: none / \
2 begin 2: 3 done; 4 refused nosuch unknown / 1 told 3: done / 1 told 4: refused nosuch unknown / \
0 list components: unconfigured / \
0 list interfaces: state unavailable; state unavailable; command unavailable; command unavailable; \
command unavailable; command unavailable / \
1 hw arm finalized: queued 5 / 1 hw arm active: queued 6 / 0 switch strict +fwd: queued 7 / 2 end 2: none / \
2 begin 3: 5 done; 6 refused arm no_such_move; 7 refused fwd unavailable j1/position / 1 told 5: done / \
1 told 6: refused arm no_such_move / 0 told 7: refused fwd unavailable j1/position / 0 list components: finalized / \
0 unload fwd: ok / 0 list controllers: none / 2 end 3: none / 0 switch strict +fwd: queued 8 / 1 load pid: ok 3 / \
1 switch strict +pid: queued 9 / 2 begin 4: 8 refused fwd unknown; 9 refused pid not_configured / \
0 told 8: refused fwd unknown / 1 told 9: refused pid not_configured / 2 end 4: none / 2 close: none";
