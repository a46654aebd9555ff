//! Descriptions in their text, each with what is read of it or with its first fault.

mod documents;
mod faults;
mod keys;
mod lists;
mod read;
mod syntax;
mod values;

use crate::checks::in_words;
use crate::pages::{Teller, hold, hold_lines};
use cm_document::DescFault;
use desc_text::read_description;
use documents::{DEFAULTS, WHOLE};
use faults::{AT_THE_TOP, OF_COMPONENTS, OF_CONTROLLERS};
use lists::{COMPONENT, JOINT, MOCK, OF_A_COMPONENT, OF_A_JOINT, OF_A_MOCK};
pub(crate) use read::Shows;
use std::alloc::Global;
use std::test::Fail;
use syntax::TEXTS;
use values::{NAMES, QUANTITIES, STATES, TYPES, UPDATE_RATES, Vmax};

/// The keys that the top table must have.
pub(crate) const TOP: &str = "version = 1\nupdate_rate = 100\ncycles = 5\n";

/// Tells that a description is read, or its first fault.
#[derive(Clone, Copy)]
pub(crate) struct Reads;

impl Teller for Reads {
    fn told(&self, alloc: Global, text: &str) -> Result<String, Fail> {
        match read_description(alloc, text.as_bytes()) {
            Ok(description) => {
                drop(description);
                Ok(String::from_str(alloc, "read")?)
            }
            Err(fault) => in_words(alloc, fault),
        }
    }
}

#[test]
fn descriptions_are_read_or_told_by_their_first_fault(rt: HostRuntime) -> Result<(), Fail> {
    let alloc = rt.alloc();
    hold(alloc, &Reads, "", TEXTS)?;
    hold(alloc, &Reads, "", AT_THE_TOP)?;
    hold(alloc, &Reads, TOP, OF_COMPONENTS)?;
    hold(alloc, &Reads, TOP, OF_CONTROLLERS)?;
    hold(alloc, &Reads, JOINT, OF_A_JOINT)?;
    hold(alloc, &Reads, COMPONENT, OF_A_COMPONENT)?;
    hold(alloc, &Reads, MOCK, OF_A_MOCK)
}

#[test]
fn values_are_read_within_their_bounds(rt: HostRuntime) -> Result<(), Fail> {
    let alloc = rt.alloc();
    hold_lines(alloc, &Reads, WITHOUT_A_RATE, UPDATE_RATES)?;
    hold_lines(alloc, &Reads, WITHOUT_A_NAME, NAMES)?;
    hold_lines(alloc, &Reads, WITHOUT_A_TYPE, TYPES)?;
    hold_lines(alloc, &Reads, WITHOUT_STATES, STATES)?;
    hold_lines(alloc, &Vmax, WITHOUT_VMAX, QUANTITIES)
}

#[test]
fn all_of_a_description_is_read(rt: HostRuntime) -> Result<(), Fail> {
    hold(rt.alloc(), &Shows, "", WHOLE)?;
    hold(rt.alloc(), &Shows, TOP, DEFAULTS)
}

#[test]
fn bytes_that_are_no_text_are_no_description(rt: HostRuntime) {
    assert!(rt; is_no_toml(rt.alloc(), b"\xff"));
    assert!(rt; is_no_toml(rt.alloc(), b"version = 1 # \xc3"));
}

fn is_no_toml(alloc: Global, bytes: &[u8]) -> bool {
    match read_description(alloc, bytes) {
        Err(DescFault::NotToml) => true,
        _ => false,
    }
}

/// The top table without its rate.
const WITHOUT_A_RATE: &str = "version = 1\ncycles = 5\n";

/// A joint without its `vmax`.
const WITHOUT_VMAX: &str = r#"version = 1
update_rate = 9
cycles = 5
[[component]]
name = "arm"
kind = "system"
[[component.joint]]
name = "j1"
vmax = "#;

/// A controller without a name.
const WITHOUT_A_NAME: &str = r#"version = 1
update_rate = 9
cycles = 5
[[controller]]
type = "mock"
"#;

/// A controller without a type, with all lists that some types need.
const WITHOUT_A_TYPE: &str = r#"version = 1
update_rate = 9
cycles = 5
[[controller]]
name = "c"
claims = []
reads = []
"#;

/// A component without states.
const WITHOUT_STATES: &str = r#"version = 1
update_rate = 9
cycles = 5
[[component]]
name = "c"
joint = []
kind = "actuator"
"#;
