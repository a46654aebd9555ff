//! One robot, and what its switches come to: refusals, what a best effort leaves out, chains, restarts, and calls on a
//! controller that is active.

/// A joint that is commanded by its position or by its velocity; forwards, a passthrough with one that leads it, and
/// mocks, one of which leads the passthrough too. A script follows, of a session that has begun.
pub(crate) const ROBOT: &str = r#"version = 1
update_rate = 100
cycles = 6
[[component]]
name = "arm"
kind = "system"
[[component.joint]]
name = "j1"
vmax = 1
command = ["position", "velocity"]
state = ["position"]
[[controller]]
name = "fwd"
type = "forward"
claims = ["j1/position"]
[[controller]]
name = "other"
type = "forward"
claims = ["j1/position"]
[[controller]]
name = "speed"
type = "forward"
claims = ["j1/velocity"]
[[controller]]
name = "pt"
type = "passthrough"
claims = ["j1/position"]
[[controller]]
name = "lead"
type = "forward"
claims = ["pt/j1/position"]
[[controller]]
name = "mk"
type = "mock"
not_ready = [2]
fail_update = [5]
[[controller]]
name = "nudge"
type = "mock"
claims = ["pt/j1/position"]
fail_update = [2]
--- script ---
session a
"#;

/// Who claims what another has is refused, and takes its place in one switch. Then best efforts: what each leaves out,
/// in the order of its parts; a restart that is not ready leaves; and lists with a name that stands twice.
pub(crate) const REFUSALS: &str = "load fwd
load other
load speed
configure fwd
configure other
configure speed
switch strict +fwd
switch strict +other
switch strict +speed
switch strict -fwd +other
switch strict -other +speed
send speed 0.5
list interfaces
=> ok
a load fwd: ok 0
a load other: ok 1
a load speed: ok 2
a configure fwd: ok
a configure other: ok
a configure speed: ok
a switch strict +fwd: queued 0
loop begin 0: 0 done
loop end 0: run fwd ok unset; joint j1 0.000000 0.000000 0.000000
a told 0: done
a switch strict +other: queued 1
loop begin 1: 1 refused other conflict j1/position fwd
loop end 1: run fwd ok unset; joint j1 0.000000 0.000000 0.000000
a told 1: refused other conflict j1/position fwd
a switch strict +speed: queued 2
loop begin 2: 2 refused speed mode_refused j1
loop end 2: run fwd ok unset; joint j1 0.000000 0.000000 0.000000
a told 2: refused speed mode_refused j1
a switch strict -fwd +other: queued 3
loop begin 3: 3 done
loop end 3: run other ok unset; joint j1 0.000000 0.000000 0.000000
a told 3: done
a switch strict -other +speed: queued 4
loop begin 4: 4 done
loop end 4: run speed ok unset; joint j1 0.000000 0.000000 0.000000
a told 4: done
a send speed 0.500000: ok
a list interfaces: state j1/position 0.000000; command j1/position unset free; command j1/velocity unset speed; \
command pt/j1/position unavailable
loop begin 5: none
loop end 5: run speed ok 0.500000; joint j1 0.005000 0.500000 0.000000
loop close: none

load fwd
load other
load mk
configure fwd
configure mk
switch best -lead +nosuch +nosuch +fwd +other +mk
switch strict +fwd
switch best -mk +mk
list controllers
switch strict -other
switch strict -fwd -fwd +other
switch best -fwd -fwd +fwd
=> ok
a load fwd: ok 0
a load other: ok 1
a load mk: ok 2
a configure fwd: ok
a configure mk: ok
a switch best -lead +nosuch +nosuch +fwd +other +mk: queued 0
loop begin 0: 0 done dropped lead unknown, nosuch unknown, nosuch unknown, other not_configured
loop end 0: run fwd ok unset; run mk ok; joint j1 0.000000 0.000000 0.000000
a told 0: done dropped lead unknown, nosuch unknown, nosuch unknown, other not_configured
a switch strict +fwd: queued 1
loop begin 1: 1 refused fwd already_active
loop end 1: run fwd ok unset; run mk ok; joint j1 0.000000 0.000000 0.000000
a told 1: refused fwd already_active
a switch best -mk +mk: queued 2
loop begin 2: 2 done dropped mk not_ready
loop end 2: run fwd ok unset; joint j1 0.000000 0.000000 0.000000
a told 2: done dropped mk not_ready
a list controllers: fwd forward active 0 every 1; other forward unconfigured 1; mk mock inactive 2 every 1
a switch strict -other: queued 3
loop begin 3: 3 refused other not_active
loop end 3: run fwd ok unset; joint j1 0.000000 0.000000 0.000000
a told 3: refused other not_active
a switch strict -fwd -fwd +other: queued 4
loop begin 4: 4 refused fwd twice
loop end 4: run fwd ok unset; joint j1 0.000000 0.000000 0.000000
a told 4: refused fwd twice
a switch best -fwd -fwd +fwd: queued 5
loop begin 5: 5 done dropped fwd twice
loop end 5: run fwd ok unset; joint j1 0.000000 0.000000 0.000000
a told 5: done dropped fwd twice
loop close: none";

/// A passthrough that is active restarts where one comes that leads it: its mail is gone, and from then on it takes
/// none. It cannot leave while it is led; both leave together, and both come, the follower first. Then a restart by
/// name of one that is led: as a best effort it does not leave, and so is active already; strictly it restarts alone,
/// and what its leader gave it last is gone, until that one is due.
pub(crate) const CHAINS: &str = "load pt
load lead
configure pt
configure lead
switch strict +pt
send pt 0.5
switch strict +lead
send pt 0.5
list interfaces
switch strict -pt
switch best -pt
switch strict -pt -lead
switch best +lead +pt
=> ok
a load pt: ok 0
a load lead: ok 1
a configure pt: ok
a configure lead: ok
a switch strict +pt: queued 0
loop begin 0: 0 done
loop end 0: run pt ok unset; joint j1 0.000000 0.000000 0.000000
a told 0: done
a send pt 0.500000: ok
a switch strict +lead: queued 1
loop begin 1: 1 done
loop end 1: run lead ok unset; run pt ok unset; joint j1 0.000000 0.000000 0.000000
a told 1: done
a send pt 0.500000: chained
a list interfaces: state j1/position 0.000000; command j1/position unset pt; command j1/velocity unset free; \
command pt/j1/position unset lead
a switch strict -pt: queued 2
loop begin 2: 2 refused lead missing_follower pt/j1/position
loop end 2: run lead ok unset; run pt ok unset; joint j1 0.000000 0.000000 0.000000
a told 2: refused lead missing_follower pt/j1/position
a switch best -pt: queued 3
loop begin 3: 3 done dropped pt missing_follower pt/j1/position
loop end 3: run lead ok unset; run pt ok unset; joint j1 0.000000 0.000000 0.000000
a told 3: done dropped pt missing_follower pt/j1/position
a switch strict -pt -lead: queued 4
loop begin 4: 4 done
loop end 4: joint j1 0.000000 0.000000 0.000000
a told 4: done
a switch best +lead +pt: queued 5
loop begin 5: 5 done
loop end 5: run lead ok unset; run pt ok unset; joint j1 0.000000 0.000000 0.000000
a told 5: done
loop close: none

load pt
load lead
rate lead 33
configure pt
configure lead
switch strict +pt +lead
send lead 0.5
switch best -pt +pt
await 4
switch strict -pt +pt
list interfaces
=> ok
a load pt: ok 0
a load lead: ok 1
a rate lead 33: ok
a configure pt: ok
a configure lead: ok
a switch strict +pt +lead: queued 0
loop begin 0: 0 done
loop end 0: run lead ok unset; run pt ok unset; joint j1 0.000000 0.000000 0.000000
a told 0: done
a send lead 0.500000: ok
a switch best -pt +pt: queued 1
loop begin 1: 1 done dropped pt missing_follower pt/j1/position, pt already_active
loop end 1: run pt ok unset; joint j1 0.000000 0.000000 0.000000
a told 1: done dropped pt missing_follower pt/j1/position, pt already_active
loop begin 2: none
loop end 2: run pt ok unset; joint j1 0.000000 0.000000 0.000000
loop begin 3: none
loop end 3: run lead ok 0.500000; run pt ok 0.500000; joint j1 0.010000 1.000000 0.000000
a await 4: ok
a switch strict -pt +pt: queued 2
loop begin 4: 2 done
loop end 4: run pt ok unset; joint j1 0.010000 0.000000 0.000000
a told 2: done
a list interfaces: state j1/position 0.010000; command j1/position unset pt; command j1/velocity unset free; \
command pt/j1/position unset lead
loop begin 5: none
loop end 5: run pt ok unset; joint j1 0.010000 0.000000 0.000000
loop close: none";

/// What is asked of an active controller is refused with its cause, and mail that does not fit; once it is inactive it
/// can be unloaded, and loaded again it has a new serial, behind which it is updated.
pub(crate) const WHILE_ACTIVE: &str = "load fwd
load mk
configure fwd
configure mk
send fwd 1
switch strict +fwd +mk
send fwd 1 2
send fwd @10 1
send mk 1
rate fwd 25
configure fwd
cleanup fwd
unload fwd
load fwd
list controllers
switch strict -fwd
unload fwd
load fwd
switch strict +fwd
configure fwd
switch strict +fwd
list controllers
=> ok
a load fwd: ok 0
a load mk: ok 1
a configure fwd: ok
a configure mk: ok
a send fwd 1.000000: not_active
a switch strict +fwd +mk: queued 0
loop begin 0: 0 done
loop end 0: run fwd ok unset; run mk ok; joint j1 0.000000 0.000000 0.000000
a told 0: done
a send fwd 1.000000 2.000000: wrong_count
a send fwd @10 1.000000: wrong_count
a send mk 1.000000: takes_none
a rate fwd 25: active
a configure fwd: active
a cleanup fwd: not_inactive
a unload fwd: active
a load fwd: loaded
a list controllers: fwd forward active 0 every 1; mk mock active 1 every 1
a switch strict -fwd: queued 1
loop begin 1: 1 done
loop end 1: run mk ok; joint j1 0.000000 0.000000 0.000000
a told 1: done
a unload fwd: ok
a load fwd: ok 2
a switch strict +fwd: queued 2
loop begin 2: 2 refused fwd not_configured
loop end 2: run mk ok; joint j1 0.000000 0.000000 0.000000
a told 2: refused fwd not_configured
a configure fwd: ok
a switch strict +fwd: queued 3
loop begin 3: 3 done
loop end 3: run mk ok; run fwd ok unset; joint j1 0.000000 0.000000 0.000000
a told 3: done
a list controllers: mk mock active 1 every 1; fwd forward active 2 every 1
loop begin 4: none
loop end 4: run mk ok; run fwd ok unset; joint j1 0.000000 0.000000 0.000000
loop begin 5: none
loop end 5: run mk error; run fwd ok unset; joint j1 0.000000 0.000000 0.000000; stop mk
loop close: none";

/// An update that fails leaves what it gave out before, for that cycle. Its controller stops alone, and the one that it
/// led restarts: it is not chained any more, nothing stands where it was told what to do, and mail reaches it again.
pub(crate) const FOLLOWER_RESTARTS: &str = "load pt
load nudge
configure pt
configure nudge
switch strict +pt +nudge
send nudge 0.5
await 3
list controllers
list interfaces
send pt 0.25
=> ok
a load pt: ok 0
a load nudge: ok 1
a configure pt: ok
a configure nudge: ok
a switch strict +pt +nudge: queued 0
loop begin 0: 0 done
loop end 0: run nudge ok unset; run pt ok unset; joint j1 0.000000 0.000000 0.000000
a told 0: done
a send nudge 0.500000: ok
loop begin 1: none
loop end 1: run nudge ok 0.500000; run pt ok 0.500000; joint j1 0.010000 1.000000 0.000000
loop begin 2: none
loop end 2: run nudge error; run pt ok 0.500000; joint j1 0.020000 1.000000 0.000000; stop nudge
a await 3: ok
a list controllers: pt passthrough active 0 every 1; nudge mock inactive 1 every 1
a list interfaces: state j1/position 0.010000; command j1/position unset pt; command j1/velocity unset free; \
command pt/j1/position unset free
a send pt 0.250000: ok
loop begin 3: none
loop end 3: run pt ok 0.250000; joint j1 0.030000 1.000000 0.000000
loop begin 4: none
loop end 4: run pt ok 0.250000; joint j1 0.040000 1.000000 0.000000
loop begin 5: none
loop end 5: run pt ok 0.250000; joint j1 0.050000 1.000000 0.000000
loop close: none";
