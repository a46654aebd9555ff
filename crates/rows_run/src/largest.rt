//! Each call that allocates, once at the largest size that the limits allow: a call that gives up with a want of memory
//! above some size meets its contract. Answers are compared by how many bytes they have and by their checksum
//! Adler-32, which `scripts/largest_answers` makes from the rules, without this program.

use cm_words::JobKind;
use pages_cases::largest::{AT_ALL_LIMITS, Summed};
use pages_cases::pages::hold;
use pages_runs::runs::Runs;
use std::test::Fail;

/// Tells how long what a run prints is.
const RUNS: Summed<Runs> = Summed {
    teller: Runs {
        kind: JobKind::Run,
        step: 4096,
        in_stock: 64,
    },
};

#[test]
fn the_largest_run(rt: HostRuntime) -> Result<(), Fail> {
    hold(rt.alloc(), &RUNS, "", RUN)
}

#[test]
fn a_run_of_the_largest_description(rt: HostRuntime) -> Result<(), Fail> {
    let alloc = rt.alloc();
    let description = AT_ALL_LIMITS.replace(alloc, "cycles = 100000", "cycles = 10000")?;
    hold(alloc, &RUNS, description.as_str(), SCRIPT)
}

#[test]
fn a_run_in_which_many_controllers_run(rt: HostRuntime) -> Result<(), Fail> {
    let alloc = rt.alloc();
    let description = AT_ALL_LIMITS.replace(alloc, "cycles = 100000", "cycles = 2000")?;
    hold(alloc, &RUNS, description.as_str(), SWITCHED)
}

#[test]
fn a_run_of_the_largest_description_of_the_second_version(rt: HostRuntime) -> Result<(), Fail> {
    hold(rt.alloc(), &RUNS, OF_SECOND, CHAINED)
}

/// 64 mocks with names as long as names may be; a session of 10,000 calls, which loads each of them, lists them 936
/// times and asks 9,000 times for one that is loaded; 100,000 cycles; and a comment that makes up the longest document.
const RUN: &str = r#"version = 1
update_rate = 10000
cycles = 100000
<10..74 * [[controller]]
name = "a_name_as_long_as_names_may_be_with_only_its_number_behind_it_#"
type = "mock"
>\
--- script ---
session a
<10..74 * load a_name_as_long_as_names_may_be_with_only_its_number_behind_it_#
>\
<0..936 * list controllers
>\
<0..9000 * load a_name_as_long_as_names_may_be_with_only_its_number_behind_it_10
>\
#<0..391517 * x>
=> 1048576 bytes: 10322917 e9af76b6"#;

/// Behind the description at all limits, but for its cycles: its 50 mocks are loaded, its passthroughs and forwards are
/// loaded and configured with 32 claims each, and each list is asked for; then 10,000 cycles tell of 32 joints each,
/// which make a trace longer than that of the longest document above.
const SCRIPT: &str = r"--- script ---
session a
<0..50 * load m#
>\
<0..3 * load p#
configure p#
load f#
configure f#
>\
list controllers
list components
<0..100 * list interfaces
>\
=> 20855 bytes: 13242110 9fd4f7c6";

/// Behind the description at all limits, but for its cycles: its 50 mocks, its passthroughs and its forwards are loaded
/// and configured, and a best effort of 128 names brings on the mocks and one passthrough of 32 claims, which is sent
/// 32 values; then 2,000 cycles tell of 51 updates and of 32 joints that move.
const SWITCHED: &str = r"--- script ---
session a
<0..50 * load m#
configure m#
>\
<0..3 * load p#
configure p#
load f#
configure f#
>\
switch best<0..72 *  -n#> +p0<0..50 *  +m#><0..3 *  +f#> +p1 +p2
send p0<0..32 *  0.5>
list interfaces
=> 20689 bytes: 4254010 a39bf168";

/// All limits of the second version at once: 16 components of four joints each, with every kind of command and state;
/// and 64 controllers, which export 192 references, claim 384 interfaces and read 512, and of which each has 8
/// fallbacks. Eight groups have the first 32 mocks as members, and eight the other controllers that run, and some of
/// the mocks.
const OF_SECOND: &str = r#"version = 2
update_rate = 10000
cycles = 1000
<0..16 * [[component]]
name = "c#"
kind = "system"
[[component.joint]]
name = "h#"
vmax = 1
command = ["position", "velocity", "effort"]
state = ["position", "velocity", "effort"]
[[component.joint]]
name = "k#"
vmax = 1
command = ["position", "velocity", "effort"]
state = ["position", "velocity", "effort"]
[[component.joint]]
name = "l#"
vmax = 1
command = ["position", "velocity", "effort"]
state = ["position", "velocity", "effort"]
[[component.joint]]
name = "r#"
vmax = 1
command = ["position", "velocity", "effort"]
state = ["position", "velocity", "effort"]
>\
<0..3 * [[controller]]
name = "p#"
type = "passthrough"
fallback = [(0..8 * "b#", )]
claims = [(0..16 * "l#/position", "r#/position", )]
[[controller]]
name = "f#"
type = "forward"
fallback = [(0..8 * "b#", )]
claims = [(0..16 * "p0/l#/position", "p0/r#/position", )]
[[controller]]
name = "q#"
type = "passthrough"
fallback = [(0..8 * "b#", )]
claims = [(0..16 * "h#/position", "k#/position", )]
[[controller]]
name = "g#"
type = "forward"
fallback = [(0..8 * "b#", )]
claims = [(0..16 * "q0/h#/position", "q0/k#/position", )]
>\
<0..16 * [[controller]]
name = "b#"
type = "broadcaster"
fallback = [(0..8 * "m#", )]
reads = [(0..16 * "l#/position", "k#/position", )]
>\
<0..36 * [[controller]]
name = "m#"
type = "mock"
fallback = [(0..8 * "b#", )]
>\
<0..8 * [[group]]
name = "s#"
members = [(0..32 * "m#", )]
[[group]]
name = "t#"
members = [(0..16 * "b#", )(24..36 * "m#", )"p0", "f0", "q0", "g0"]
>\
"#;

/// All 64 are loaded and configured. A best effort of 128 words asks eight times for all groups, which are 4,096 names:
/// it brings on the mocks, the broadcasters, and two forwards, each above a passthrough. Each forward is sent 32
/// values, so all 64 joints move for the 1,000 cycles.
const CHAINED: &str = r"--- script ---
session a
<0..36 * load m#
configure m#
>\
<0..16 * load b#
configure b#
>\
<0..3 * load p#
configure p#
load f#
configure f#
load q#
configure q#
load g#
configure g#
>\
switch best<0..8 * (0..8 *  +@s# +@t#)>
send f0<0..32 *  0.5>
send g0<0..32 *  -0.5>
list controllers
list components
list interfaces
=> 36846 bytes: 9326695 c98cc45e";
