//! What is told of each call, in each lifecycle state of its controller but active; what is told while it is active
//! stands with the switches.

/// A forward of two joints, a passthrough with a rate of its own, a forward above it, a pid, a trajectory, a
/// broadcaster, a mock that is never ready and fails always, and one that refuses to be configured.
pub(crate) const ARM: &str = r#"version = 1
update_rate = 100
cycles = 0
[[component]]
name = "arm"
kind = "system"
[[component.joint]]
name = "j1"
vmax = 1
command = ["position", "velocity"]
state = ["position"]
[[component.joint]]
name = "j2"
vmax = 1
command = ["position"]
[[controller]]
name = "fwd"
type = "forward"
claims = ["j1/position", "j2/position"]
[[controller]]
name = "relay"
type = "passthrough"
update_rate = 33
claims = ["j1/velocity"]
[[controller]]
name = "above"
type = "forward"
claims = ["relay/j1/velocity"]
[[controller]]
name = "servo"
type = "pid"
claims = ["j1/velocity"]
reads = ["j1/position"]
[[controller]]
name = "way"
type = "trajectory"
claims = ["j1/position"]
reads = ["j1/position"]
[[controller]]
name = "eye"
type = "broadcaster"
reads = "all"
[[controller]]
name = "mk"
type = "mock"
not_ready = [0, 1]
fail_update = [0, 1]
[[controller]]
name = "stiff"
type = "mock"
claims = ["j1/position"]
refuse_config = true
"#;

/// A controller from its load to its unload, once with a rate of 25 hertz at 100 hertz, which is every fourth cycle.
pub(crate) const WORKED: &str = r"load fwd => ok 0
configure fwd => ok
rate fwd 25 => ok
configure fwd => ok
list controllers => fwd forward inactive 0 every 4
cleanup fwd => ok
list controllers => fwd forward unconfigured 0
send fwd 1 => not_active
unload fwd => ok
unload fwd => not_loaded";

/// Not described; described and not loaded; unconfigured; inactive; and one that cannot be configured. Where several
/// refusals apply the first is told: of one that is not loaded, that alone, whatever its kind and parameters say; of
/// one that is not active, that alone, whatever it is sent.
pub(crate) const BY_LIFECYCLE: &str = r"list controllers => none
load nosuch => not_described
configure nosuch => not_loaded
cleanup nosuch => not_loaded
unload nosuch => not_loaded
rate nosuch 25 => not_loaded
send nosuch 1 => not_loaded
load nosuch => not_described
list controllers => none

configure fwd => not_loaded
cleanup fwd => not_loaded
unload fwd => not_loaded
rate fwd 25 => not_loaded
send fwd 1 2 => not_loaded
send fwd 1 => not_loaded
configure stiff => not_loaded
send eye 1 => not_loaded
send mk 1 => not_loaded
send servo 1 2 => not_loaded
list controllers => none

load fwd => ok 0
list controllers => fwd forward unconfigured 0
load fwd => loaded
cleanup fwd => not_inactive
send fwd 1 2 => not_active
send fwd 1 => not_active
send fwd @20000 1 2 => not_active
rate fwd 50 => ok
list controllers => fwd forward unconfigured 0
configure fwd => ok
list controllers => fwd forward inactive 0 every 2

load fwd => ok 0
unload fwd => ok
list controllers => none
configure fwd => not_loaded
cleanup fwd => not_loaded
unload fwd => not_loaded
rate fwd 25 => not_loaded
send fwd 1 2 => not_loaded

load fwd => ok 0
configure fwd => ok
list controllers => fwd forward inactive 0 every 1
load fwd => loaded
configure fwd => ok
list controllers => fwd forward inactive 0 every 1
send fwd 1 2 => not_active
send fwd 1 => not_active
send fwd @20000 1 2 => not_active
rate fwd 50 => ok
list controllers => fwd forward inactive 0 every 1
cleanup fwd => ok
list controllers => fwd forward unconfigured 0
cleanup fwd => not_inactive
send fwd 1 2 => not_active
load fwd => loaded
configure fwd => ok
list controllers => fwd forward inactive 0 every 2
unload fwd => ok
list controllers => none
cleanup fwd => not_loaded

load mk => ok 0
send mk 1 => not_active
configure mk => ok
list controllers => mk mock inactive 0 every 1
send mk 1 => not_active
send mk @1 1 => not_active
cleanup mk => ok
unload mk => ok

load stiff => ok 0
configure stiff => refused
list controllers => stiff mock unconfigured 0
cleanup stiff => not_inactive
send stiff 1 2 => not_active
rate stiff 25 => ok
configure stiff => refused
list controllers => stiff mock unconfigured 0
load stiff => loaded
unload stiff => ok
configure stiff => not_loaded";

/// Controllers stand by serial, in whatever order they are described. None is chained, since none is active. A serial
/// is not used again, and only a load that is done takes one.
pub(crate) const BY_SERIAL: &str = r"load mk => ok 0
load nosuch => not_described
load mk => loaded
load above => ok 1
load nosuch => not_described
load relay => ok 2
load fwd => ok 3
list controllers => mk mock unconfigured 0; above forward unconfigured 1; relay passthrough unconfigured 2; \
fwd forward unconfigured 3
configure relay => ok
configure mk => ok
list controllers => mk mock inactive 0 every 1; above forward unconfigured 1; relay passthrough inactive 2 every 3; \
fwd forward unconfigured 3
unload above => ok
list controllers => mk mock inactive 0 every 1; relay passthrough inactive 2 every 3; fwd forward unconfigured 3
load above => ok 4
configure above => ok
list controllers => mk mock inactive 0 every 1; relay passthrough inactive 2 every 3; fwd forward unconfigured 3; \
above forward inactive 4 every 1
unload mk => ok
unload fwd => ok
cleanup relay => ok
list controllers => relay passthrough unconfigured 2; above forward inactive 4 every 1
load fwd => ok 5
list controllers => relay passthrough unconfigured 2; above forward inactive 4 every 1; fwd forward unconfigured 5
unload relay => ok
unload above => ok
unload fwd => ok
list controllers => none
load relay => ok 6";

/// In how many cycles a controller is updated once, at 100 hertz. A rate counts at the next configure; a cleanup keeps
/// it, and a load begins with the described one.
pub(crate) const BY_RATE: &str = r"load relay => ok 0
configure relay => ok
list controllers => relay passthrough inactive 0 every 3
rate relay 10 => ok
list controllers => relay passthrough inactive 0 every 3
configure relay => ok
list controllers => relay passthrough inactive 0 every 10
cleanup relay => ok
configure relay => ok
list controllers => relay passthrough inactive 0 every 10
rate relay 1 => ok
rate relay 20 => ok
configure relay => ok
list controllers => relay passthrough inactive 0 every 5
unload relay => ok
load relay => ok 1
configure relay => ok
list controllers => relay passthrough inactive 1 every 3

load fwd => ok 0
rate fwd 0 => ok
configure fwd => ok
list controllers => fwd forward inactive 0 every 1
rate fwd 10000 => ok
configure fwd => ok
list controllers => fwd forward inactive 0 every 1
rate fwd 101 => ok
configure fwd => ok
list controllers => fwd forward inactive 0 every 1
rate fwd 100 => ok
configure fwd => ok
list controllers => fwd forward inactive 0 every 1
rate fwd 99 => ok
configure fwd => ok
list controllers => fwd forward inactive 0 every 1
rate fwd 51 => ok
configure fwd => ok
list controllers => fwd forward inactive 0 every 1
rate fwd 50 => ok
configure fwd => ok
list controllers => fwd forward inactive 0 every 2
rate fwd 34 => ok
configure fwd => ok
list controllers => fwd forward inactive 0 every 2
rate fwd 33 => ok
configure fwd => ok
list controllers => fwd forward inactive 0 every 3
rate fwd 7 => ok
configure fwd => ok
list controllers => fwd forward inactive 0 every 14
rate fwd 1 => ok
configure fwd => ok
list controllers => fwd forward inactive 0 every 100";

/// A pid, a trajectory and a broadcaster go through their lifecycle as the others do. Of a broadcaster that is not
/// active it is not told that it takes nothing.
pub(crate) const BY_KIND: &str = r"load servo => ok 0
load way => ok 1
load eye => ok 2
list controllers => servo pid unconfigured 0; way trajectory unconfigured 1; eye broadcaster unconfigured 2
configure servo => ok
rate way 20 => ok
configure way => ok
configure eye => ok
list controllers => servo pid inactive 0 every 1; way trajectory inactive 1 every 5; eye broadcaster inactive 2 every 1
send servo 1 => not_active
send servo 1 2 => not_active
send way @1 1 => not_active
send eye 1 => not_active
configure servo => ok
cleanup way => ok
cleanup way => not_inactive
load eye => loaded
list controllers => servo pid inactive 0 every 1; way trajectory unconfigured 1; eye broadcaster inactive 2 every 1
unload eye => ok
unload servo => ok
unload way => ok
load way => ok 3
list controllers => way trajectory unconfigured 3";
