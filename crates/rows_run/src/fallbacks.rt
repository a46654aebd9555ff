//! Runs in which the update of a controller fails that has fallbacks, and what is printed of who stands in.

mod joints;
mod lists;
mod reasons;

use joints::{ARM, LEFT_OUT, WITH_REQUESTS};
use lists::{EACH_OTHER, LIST_BY_LIST, LISTS_BY_TURNS, MOCKS};
use pages_cases::pages::hold;
use pages_runs::runs::{BY_TURNS, OF_PROGRAM};
use reasons::REASONS;
use std::test::Fail;

/// A mock whose update fails in cycle 1, and the forward that stands in for it, both ready.
pub(crate) const ROBOT: &str = r#"version = 1
update_rate = 100
cycles = 4
[[component]]
name = "arm"
kind = "actuator"
joint = [{ name = "j1", vmax = 1, command = ["position"] }]
[[controller]]
name = "mk"
type = "mock"
fallback = ["fwd"]
fail_update = [1]
[[controller]]
name = "fwd"
type = "forward"
claims = ["j1/position"]
--- script ---
session s
load mk
load fwd
configure mk
configure fwd
"#;

/// It comes at the begin after the failure, before the requests, unless something keeps it; and only once.
pub(crate) const STAND_INS: &str = r"switch strict +mk
await 4
list controllers
=> ok
s load mk: ok 0
s load fwd: ok 1
s configure mk: ok
s configure fwd: ok
s switch strict +mk: queued 0
loop begin 0: 0 done
loop end 0: run mk ok; joint j1 0.000000 0.000000 0.000000
s told 0: done
loop begin 1: none
loop end 1: run mk error; joint j1 0.000000 0.000000 0.000000; stop mk
loop begin 2: fallback done
loop end 2: run fwd ok unset; joint j1 0.000000 0.000000 0.000000
loop begin 3: none
loop end 3: run fwd ok unset; joint j1 0.000000 0.000000 0.000000
s await 4: ok
s list controllers: mk mock inactive 0 every 1; fwd forward active 1 every 1
loop close: none

switch strict +mk +fwd
=> ok
s load mk: ok 0
s load fwd: ok 1
s configure mk: ok
s configure fwd: ok
s switch strict +mk +fwd: queued 0
loop begin 0: 0 done
loop end 0: run mk ok; run fwd ok unset; joint j1 0.000000 0.000000 0.000000
s told 0: done
loop begin 1: none
loop end 1: run mk error; run fwd ok unset; joint j1 0.000000 0.000000 0.000000; stop mk
loop begin 2: fallback done dropped fwd already_active
loop end 2: run fwd ok unset; joint j1 0.000000 0.000000 0.000000
loop begin 3: none
loop end 3: run fwd ok unset; joint j1 0.000000 0.000000 0.000000
loop close: none

switch strict +mk
await 2
switch strict -fwd
=> ok
s load mk: ok 0
s load fwd: ok 1
s configure mk: ok
s configure fwd: ok
s switch strict +mk: queued 0
loop begin 0: 0 done
loop end 0: run mk ok; joint j1 0.000000 0.000000 0.000000
s told 0: done
loop begin 1: none
loop end 1: run mk error; joint j1 0.000000 0.000000 0.000000; stop mk
s await 2: ok
s switch strict -fwd: queued 1
loop begin 2: fallback done; 1 done
loop end 2: joint j1 0.000000 0.000000 0.000000
s told 1: done
loop begin 3: none
loop end 3: joint j1 0.000000 0.000000 0.000000
loop close: none

switch strict +mk
unload fwd
=> ok
s load mk: ok 0
s load fwd: ok 1
s configure mk: ok
s configure fwd: ok
s switch strict +mk: queued 0
loop begin 0: 0 done
loop end 0: run mk ok; joint j1 0.000000 0.000000 0.000000
s told 0: done
s unload fwd: ok
loop begin 1: none
loop end 1: run mk error; joint j1 0.000000 0.000000 0.000000; stop mk
loop begin 2: fallback done dropped fwd unknown
loop end 2: joint j1 0.000000 0.000000 0.000000
loop begin 3: none
loop end 3: joint j1 0.000000 0.000000 0.000000
loop close: none";

/// Calls while cycles are aloft and between them. The failed one is unloaded, and who stands in comes for all that; who
/// is made anew has no parameters; and a strict switch finds active who stood in before it.
const CALLS_BETWEEN: &str = r"switch strict +mk
unload mk
unload fwd
unload fwd
switch strict +fwd
schedule
step s
step s
step s
step s
step s
begin
step s
end
begin
end
step s
begin
step s
end
begin
end
=> ok
s load mk: ok 0
s load fwd: ok 1
s configure mk: ok
s configure fwd: ok
s switch strict +mk: queued 0
loop begin 0: 0 done
s told 0: done
loop end 0: run mk ok; joint j1 0.000000 0.000000 0.000000
loop begin 1: none
loop end 1: run mk error; joint j1 0.000000 0.000000 0.000000; stop mk
s unload mk: ok
loop begin 2: fallback done
s unload fwd: active
loop end 2: run fwd ok unset; joint j1 0.000000 0.000000 0.000000
loop begin 3: none
loop end 3: run fwd ok unset; joint j1 0.000000 0.000000 0.000000
s unload fwd: active
s switch strict +fwd: queued 1
loop close: 1 loop_ended
s told 1: loop_ended

switch strict +mk
unload fwd
load fwd
schedule
step s
step s
step s
step s
step s
begin
step s
end
begin
step s
step s
end
begin
=> ok
s load mk: ok 0
s load fwd: ok 1
s configure mk: ok
s configure fwd: ok
s switch strict +mk: queued 0
loop begin 0: 0 done
s told 0: done
loop end 0: run mk ok; joint j1 0.000000 0.000000 0.000000
loop begin 1: none
s unload fwd: ok
s load fwd: ok 2
loop end 1: run mk error; joint j1 0.000000 0.000000 0.000000; stop mk
loop begin 2: fallback done dropped fwd not_configured
loop end 2: joint j1 0.000000 0.000000 0.000000
loop begin 3: none
loop end 3: joint j1 0.000000 0.000000 0.000000
loop close: none

switch strict +mk
session t
switch strict +fwd
cleanup fwd
schedule
step s
step s
step s
step s
step s
begin
end
begin
step t
end
begin
step t
step t
end
=> ok
s load mk: ok 0
s load fwd: ok 1
s configure mk: ok
s configure fwd: ok
s switch strict +mk: queued 0
loop begin 0: 0 done
loop end 0: run mk ok; joint j1 0.000000 0.000000 0.000000
loop begin 1: none
t switch strict +fwd: queued 1
loop end 1: run mk error; joint j1 0.000000 0.000000 0.000000; stop mk
loop begin 2: fallback done; 1 refused fwd already_active
t told 1: refused fwd already_active
t cleanup fwd: not_inactive
loop end 2: run fwd ok unset; joint j1 0.000000 0.000000 0.000000
s told 0: done
loop begin 3: none
loop end 3: run fwd ok unset; joint j1 0.000000 0.000000 0.000000
loop close: none";

/// A close asks for nobody, and a controller that stops for another reason brings nobody.
const NOBODY: &str = r#"version = 1
update_rate = 100
cycles = 2
[[controller]]
name = "mk"
type = "mock"
fallback = ["spare"]
fail_update = [1]
[[controller]]
name = "spare"
type = "mock"
--- script ---
session s
load mk
load spare
configure mk
configure spare
switch strict +mk
=> ok
s load mk: ok 0
s load spare: ok 1
s configure mk: ok
s configure spare: ok
s switch strict +mk: queued 0
loop begin 0: 0 done
loop end 0: run mk ok
s told 0: done
loop begin 1: none
loop end 1: run mk error; stop mk
loop close: none

version = 1
update_rate = 100
cycles = 3
[[component]]
name = "arm"
kind = "actuator"
fail_read = [1]
joint = [{ name = "j1", vmax = 1, command = ["position"] }]
[[controller]]
name = "fwd"
type = "forward"
fallback = ["spare"]
claims = ["j1/position"]
[[controller]]
name = "spare"
type = "mock"
--- script ---
session s
load fwd
load spare
configure fwd
configure spare
switch strict +fwd
=> ok
s load fwd: ok 0
s load spare: ok 1
s configure fwd: ok
s configure spare: ok
s switch strict +fwd: queued 0
loop begin 0: 0 done
loop end 0: run fwd ok unset; joint j1 0.000000 0.000000 0.000000
s told 0: done
loop begin 1: none
loop end 1: fail arm read; joint j1 0.000000 0.000000 0.000000; stop fwd
loop begin 2: none
loop end 2: joint j1 0.000000 0.000000 0.000000
loop close: none

version = 1
update_rate = 100
cycles = 2
[[controller]]
name = "mk"
type = "mock"
fallback = ["spare"]
fail_update = [1]
[[controller]]
name = "spare"
type = "mock"
--- script ---
session s
load mk
load spare
configure mk
configure spare
switch strict +mk
await 2
switch strict +spare
list controllers
=> ok
s load mk: ok 0
s load spare: ok 1
s configure mk: ok
s configure spare: ok
s switch strict +mk: queued 0
loop begin 0: 0 done
loop end 0: run mk ok
s told 0: done
loop begin 1: none
loop end 1: run mk error; stop mk
s await 2: ok
s switch strict +spare: queued 1
loop close: 1 loop_ended
s told 1: loop_ended
s list controllers: mk mock inactive 0 every 1; spare mock inactive 1 every 1"#;

#[test]
fn fallbacks_stand_in_for_a_controller_whose_update_failed(rt: HostRuntime) -> Result<(), Fail> {
    let alloc = rt.alloc();
    hold(alloc, &OF_PROGRAM, ROBOT, STAND_INS)?;
    hold(alloc, &BY_TURNS, ROBOT, CALLS_BETWEEN)?;
    hold(alloc, &OF_PROGRAM, "", NOBODY)?;
    hold(alloc, &OF_PROGRAM, "", REASONS)
}

#[test]
fn the_lists_of_several_are_asked_for_as_one(rt: HostRuntime) -> Result<(), Fail> {
    let alloc = rt.alloc();
    hold(alloc, &OF_PROGRAM, MOCKS, LIST_BY_LIST)?;
    hold(alloc, &BY_TURNS, MOCKS, LISTS_BY_TURNS)?;
    hold(alloc, &OF_PROGRAM, "", EACH_OTHER)
}

#[test]
fn a_fallback_is_left_out_for_what_stands_in_its_way(rt: HostRuntime) -> Result<(), Fail> {
    let alloc = rt.alloc();
    hold(alloc, &OF_PROGRAM, ARM, LEFT_OUT)?;
    hold(alloc, &OF_PROGRAM, ARM, WITH_REQUESTS)
}
