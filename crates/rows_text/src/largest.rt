//! Each call that reads, checks or prints a text, once at the largest size that the limits allow: a call that gives up
//! with a want of memory above some size meets its contract. `scripts/largest_answers` makes the lengths and checksums
//! that are compared from the rules, without this program.

use crate::checks::Checks;
use crate::descriptions::Shows;
use crate::pages::hold;
use crate::scripts::Prints;
use pages_cases::largest::{AT_ALL_LIMITS, Summed};
use std::test::Fail;

#[test]
fn the_largest_texts(rt: HostRuntime) -> Result<(), Fail> {
    let alloc = rt.alloc();
    hold(alloc, &Summed { teller: Shows }, "", DESCRIPTION)?;
    hold(alloc, &Checks, AT_ALL_LIMITS, "=> valid")
}

#[test]
fn the_largest_script(rt: HostRuntime) -> Result<(), Fail> {
    hold(rt.alloc(), &Summed { teller: Prints }, "", SCRIPT)
}

/// A component of 5,000 joints and 28,000 cycles in which its read fails; 8,000 mocks, and one that claims and reads
/// 3,000 interfaces; and a comment that makes up the longest document.
const DESCRIPTION: &str = r#"version = 1
update_rate = 100
cycles = 5
[[component]]
name = "c"
kind = "system"
fail_read = [<0..28000 * #, >]
<0..5000 * [[component.joint]]
name = "j#"
vmax = 1
state = ["effort", "position"]
>\
<0..8000 * [[controller]]
name = "m#"
type = "mock"
>\
[[controller]]
name = "l"
type = "mock"
claims = [<0..3000 * "j#/position", >]
reads = [<0..3000 * "j#/position", >]
#<0..32964 * x>
=> 1048576 bytes: 869542 38ffa619"#;

/// 8 sessions of 1,250 calls: values, a switch of as many names as there may be, and points of as many values.
const SCRIPT: &str = r"<0..8 * session s#
(0..1248 * send c 1 1 1 1 1 1 1 1 1 1 1 1 1 1 1 1 1 1 1 1 1 1 1 1 1 1 1 1 1 1 1 1
)switch strict(10..74 *  -off_name_# +on_name_#)
send c(1..65 *  @# 1 1 1 1 1 1 1 1 1 1 1 1 1 1 1 1 1 1 1 1 1 1 1 1 1 1 1 1 1 1 1 1)
>\
=> 756664 bytes: 3107767 b8c31bc3";
