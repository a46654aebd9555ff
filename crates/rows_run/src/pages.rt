//! Whole documents, each with how its run ends and what is printed.

/// Faults of the text, then of the checks, with components and without, and all of them before those of the script.
pub(crate) const DESCRIPTIONS: &str = r#"=> description: bad_key version

version = 1
update_rate = 100
=> description: bad_key cycles

version =\
=> description: not_toml

version = 1
update_rate = 100
cycles = 3
[[component]]
name = "arm"
kind = "actuator"
[[component.joint]]
name = "j1"
vmax = 1.5
--- script ---
jump
=> description: float_given component[0].joint[0].vmax

version = 1
update_rate = 100
cycles = 2
[[controller]]
name = "p"
type = "passthrough"
claims = ["q/j1/position"]
[[controller]]
name = "q"
type = "passthrough"
claims = ["p/j1/position"]
--- script ---
jump
=> description: chain_loop p

version = 1
update_rate = 100
cycles = 0
[[controller]]
name = "mk"
type = "mock"
rate = 5
--- script ---
=> description: bad_key controller[0].rate

version = 1
update_rate = 100
cycles = 0
[[controller]]
name = "f"
type = "forward"
claims = ["j1/effort"]
--- script ---
=> description: no_interface f j1/effort

version = 1
update_rate = 100
cycles = 0
[[component]]
name = "arm"
kind = "actuator"
[[component.joint]]
name = "j1"
vmax = 1
--- script ---
jump
=> script: bad_line 11

version = 1
update_rate = 100
cycles = 0
[[component]]
name = "arm"
kind = "actuator"
[[component.joint]]
name = "j1"
vmax = -1
--- script ---
=> description: bad_range component[0].joint[0].vmax

version = 1
update_rate = 100
cycles = 0
component = []
--- script ---
=> ok
loop close: none"#;

/// Where the script begins, behind three lines of description.
pub(crate) const SEPARATORS: &str = r"version = 1
update_rate = 100
cycles = 0
=> script: bad_line 4

version = 1
update_rate = 100
cycles = 0\
=> script: bad_line 4

version = 1
update_rate = 100
cycles = 0
--- script ---\
=> ok
loop close: none

version = 1
update_rate = 100
cycles = 0
--- script ---\r
session a
=> ok
loop close: none

version = 1
update_rate = 100
cycles = 0
--- script ---
session a
--- script ---
=> script: bad_line 6

version = 1
update_rate = 100
cycles = 0
--- script ---\r\r
session a
=> description: not_toml

version = 1
update_rate = 100
cycles = 0
#\s
--- script ---\s
session a
=> description: not_toml

version = 1
update_rate = 100
cycles = 0
\n\
\n\
--- script ---
jump
=> script: bad_line 7";

/// Mocks or another controller, and scripts.
pub(crate) const SCRIPTS: &str = r#"version = 1
update_rate = 100
cycles = 0
[[controller]]
name = "mk"
type = "broadcaster"
reads = "all"
--- script ---
session a
load mk
=> ok
a load mk: ok 0
loop close: none

version = 1
update_rate = 100
cycles = 2
[[controller]]
name = "mk"
type = "mock"
=> script: bad_line 7

version = 1
update_rate = 100
cycles = 2
[[controller]]
name = "mk"
type = "mock"
--- script ---
load mk
load mk
=> script: no_session 8

version = 1
update_rate = 100
cycles = 2
[[controller]]
name = "mk"
type = "mock"
--- script ---
session a
load mk
list controllers
load nosuch
jump mk
=> script: bad_line 12

version = 1
update_rate = 100
cycles = 2
[[controller]]
name = "mk"
type = "mock"
--- script ---
session a
\n\
# x
session a
=> script: bad_line 11

version = 1
update_rate = 100
cycles = 2
[[controller]]
name = "mk"
type = "mock"
--- script ---
begin
=> script: bad_line 8

version = 1
update_rate = 100
cycles = 2
--- script ---
session a
schedule
step a
begin
load mk
=> script: bad_line 9

version = 1
update_rate = 100
cycles = 2
--- script ---
session a
schedule
end
step b
=> script: no_session 8

version = 1
update_rate = 100
cycles = 2
--- script ---
<0..9 * session s#
>\
=> script: too_many 13

version = 1
update_rate = 100
cycles = 0
[[controller]]
name = "mk"
type = "mock"
--- script ---\r
\tsession \t a\r
load  mk\t\
=> ok
a load mk: ok 0
loop close: none

version = 1
update_rate = 100
cycles = 0
<0..33 * [[controller]]
name = "c#"
type = "mock"
>\
--- script ---
session a
<0..33 * load c#
>\
=> ok
<0..32 * a load c#: ok #
>a load c32: stock_empty
loop close: none"#;

/// As long as documents may be, and one byte longer.
pub(crate) const LENGTHS: &str = r"#<0..1048575 * x>\
=> description: bad_key version

#<0..1048576 * x>\
=> document longer than 1048576 bytes";

/// What is told of a run of `FIRST`, which stands before it.
pub(crate) const OF_FIRST: &str = "=> ok
a load mk: ok 0
a list controllers: mk mock unconfigured 0
a load nosuch: not_described
a load mk: loaded
loop begin 0: none
loop end 0: none
loop begin 1: none
loop end 1: none
loop close: none";

/// No cycles, and nothing that is described or asked for.
pub(crate) const NOTHING: &str = "version = 1
update_rate = 100
cycles = 0
--- script ---
=> ok
loop close: none";
