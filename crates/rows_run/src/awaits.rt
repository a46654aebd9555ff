//! Sessions of ten thousand lines that wait, and what their runs print.

use pages_cases::pages::hold;
use pages_runs::runs::OF_PROGRAM;
use std::test::Fail;

#[test]
fn as_many_awaits_as_a_script_may_have(rt: HostRuntime) -> Result<(), Fail> {
    hold(rt.alloc(), &OF_PROGRAM, "", AWAITS)
}

/// One session that waits for each cycle; one that waits for the fifth with all its lines, and goes on with all of them
/// when that has ended; one that waits for more cycles than there are, until the close; and eight that wait for each
/// cycle, in turns.
const AWAITS: &str = r"version = 1
update_rate = 100
cycles = 10000
--- script ---
session a
<1..10001 * await #
>\
=> ok
<0..10000 * loop begin #: none
loop end #: none
a await #': ok
>\
loop close: none

version = 1
update_rate = 100
cycles = 6
--- script ---
session a
<0..10000 * await 5
>\
=> ok
<0..5 * loop begin #: none
loop end #: none
>\
<0..10000 * a await 5: ok
>\
loop begin 5: none
loop end 5: none
loop close: none

version = 1
update_rate = 100
cycles = 2
--- script ---
session a
<0..10000 * await 9
>\
=> ok
<0..2 * loop begin #: none
loop end #: none
>\
loop close: none
<0..9999 * a await 9: ok
>\
a await 9: ok

version = 1
update_rate = 100
cycles = 1250
--- script ---
<0..8 * session s#
(1..1251 * await #
)>\
=> ok
<0..1250 * loop begin #: none
loop end #: none
s0 await #': ok
s1 await #': ok
s2 await #': ok
s3 await #': ok
s4 await #': ok
s5 await #': ok
s6 await #': ok
s7 await #': ok
>\
loop close: none";
