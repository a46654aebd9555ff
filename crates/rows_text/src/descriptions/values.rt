//! Values at the ends of their ranges, and just past them.

use crate::checks::in_words;
use crate::pages::Teller;
use cm_document::Description;
use desc_text::read_description;
use fixed_num::Fx;
use std::alloc::Global;
use std::test::Fail;

/// Tells the micro-units of the first joint's `vmax`, or the first fault.
#[derive(Clone, Copy)]
pub(crate) struct Vmax;

impl Teller for Vmax {
    fn told(&self, alloc: Global, text: &str) -> Result<String, Fail> {
        match read_description(alloc, text.as_bytes()) {
            Ok(description) => {
                let told = vmax_in_words(alloc, &description);
                drop(description);
                told
            }
            Err(fault) => in_words(alloc, fault),
        }
    }
}

fn vmax_in_words(alloc: Global, description: &Description) -> Result<String, Fail> {
    let vmax = vmax_of(description)?.micro();
    Ok(format!(in alloc; "{vmax}")?)
}

/// The `vmax` of the first joint.
fn vmax_of(description: &Description) -> Result<Fx, Fail> {
    let component = description.components.as_slice().first();
    let joints = component.ok_or("no component")?.joints.as_slice();
    Ok(joints.first().ok_or("no joint")?.vmax)
}

/// Values of `vmax`, with the micro-units that they are.
pub(crate) const QUANTITIES: &str = r#"0 => 0
-0 => 0
7 => 7000000
-7 => -7000000
0x10 => 16000000
1_000 => 1000000000
1000000000 => 1000000000000000
-1000000000 => -1000000000000000
1000000001 => bad_value component[0].joint[0].vmax
-1000000001 => bad_value component[0].joint[0].vmax
9223372036854775807 => bad_value component[0].joint[0].vmax
-9223372036854775808 => bad_value component[0].joint[0].vmax
9223372036854775808 => not_toml
"0.5" => 500000
"-0.5" => -500000
'3.15' => 3150000
"007" => 7000000
"1000000000.000000" => 1000000000000000
"1000000000.000001" => bad_value component[0].joint[0].vmax
"-1000000000.000001" => bad_value component[0].joint[0].vmax
"1.0000000" => bad_value component[0].joint[0].vmax
"" => bad_value component[0].joint[0].vmax
"-" => bad_value component[0].joint[0].vmax
"+5" => bad_value component[0].joint[0].vmax
".5" => bad_value component[0].joint[0].vmax
"1." => bad_value component[0].joint[0].vmax
"1e3" => bad_value component[0].joint[0].vmax
" 1" => bad_value component[0].joint[0].vmax
1e3 => float_given component[0].joint[0].vmax
1.0 => float_given component[0].joint[0].vmax
nan => float_given component[0].joint[0].vmax
-inf => float_given component[0].joint[0].vmax"#;

/// Update rates.
pub(crate) const UPDATE_RATES: &str = r#"update_rate = 0 => read
update_rate = 4294967295 => read
update_rate = 4294967296 => bad_value update_rate
update_rate = -1 => bad_value update_rate
update_rate = 0b11 => read
update_rate = 9223372036854775808 => not_toml
update_rate = inf => float_given update_rate
update_rate = "1" => bad_value update_rate"#;

/// Names of a controller; the last ones have 64 and 65 bytes.
pub(crate) const NAMES: &str = r#"name = "a" => read
name = "a_9Z" => read
name = "" => bad_value controller[0].name
name = "9a" => bad_value controller[0].name
name = "_a" => bad_value controller[0].name
name = "a b" => bad_value controller[0].name
name = "a/b" => bad_value controller[0].name
name = "\u00e9" => bad_value controller[0].name
name = "c234567890123456789012345678901234567890123456789012345678901234" => read
name = "c2345678901234567890123456789012345678901234567890123456789012345" => bad_value controller[0].name"#;

/// Types of a controller that has all lists which some types need.
pub(crate) const TYPES: &str = r#"type = "trajectory" => read
type = "pid" => read
type = "mock" => read
type = "forward" => bad_key controller[0].reads
type = "passthrough" => bad_key controller[0].reads
type = "broadcaster" => bad_key controller[0].claims
type = "Pid" => bad_value controller[0].type
type = "transmission" => bad_key controller[0].reads
type = "differential" => bad_key controller[0].reads
type = "limiter" => bad_key controller[0].min
type = "servo" => bad_value controller[0].type
type = "" => bad_value controller[0].type"#;

/// States of a component.
pub(crate) const STATES: &str = r#"initial = "unconfigured" => read
initial = "inactive" => read
initial = "active" => read
initial = "finalized" => read
initial = "Active" => bad_value component[0].initial
on_error = "unconfigured" => read
on_error = "finalized" => read
on_error = "inactive" => bad_value component[0].on_error
on_error = "active" => bad_value component[0].on_error"#;
