//! Descriptions in their text, read and checked: valid, or told by their first fault.

ghost use Rattle.cm_document.specs.Valid.{IsDescribed};

mod chains;
mod counts;
mod groups;
mod links;
mod names;
mod orders;
mod ranges;
mod shaping;

use crate::descriptions::TOP;
use crate::pages::{Teller, hold};
use chains::{CHAINS, Loops};
use cm_document::{DescProblem, Description};
use counts::{CLAIMS, JOINTS, PARTS, SHARES};
use desc_check::check;
use desc_text::read_description;
use groups::{GROUPS, SECOND};
use links::{LINKS, LINKS_OF_AN_ARM};
use names::{NAMES, NAMES_OF_AN_ARM};
use orders::{ORDERS, ORDERS_OF_AN_ARM};
use ranges::{RANGES, RANGES_OF_AN_ARM, RANGES_OF_THE_TOP};
use shaping::{LIMITERS, TRANSMISSIONS};
use std::alloc::Global;
use std::fmt::Display;
use std::test::Fail;

/// Tells that a description is valid, or its first fault.
#[derive(Clone, Copy)]
pub(crate) struct Checks;

impl Teller for Checks {
    fn told(&self, alloc: Global, text: &str) -> Result<String, Fail> {
        match accepted(alloc, text) {
            Ok(()) => Ok(String::from_str(alloc, "valid")?),
            Err(problem) => in_words(alloc, problem),
        }
    }
}

/// How a fault prints. A fault has many parts, and is dropped at this one place.
pub(crate) fn in_words<F: Display + Drop>(alloc: Global, fault: F) -> Result<String, Fail> {
    let told = format!(in alloc; "{fault}");
    drop(fault);
    Ok(told?)
}

fn accepted(alloc: Global, text: &str) -> Result<(), DescProblem> {
    match read_description(alloc, text.as_bytes()) {
        Ok(description) => valid(alloc, description),
        Err(fault) => Err(DescProblem::Text(fault)),
    }
}

fn valid(alloc: Global, description: Description) -> Result<(), DescProblem>
    requires described { IsDescribed description }
{
    match check(alloc, description) {
        Ok(checked) => {
            drop(checked);
            Ok(())
        }
        Err(fault) => Err(DescProblem::Check(fault)),
    }
}

#[test]
fn names_and_ranges(rt: HostRuntime) -> Result<(), Fail> {
    let alloc = rt.alloc();
    hold(alloc, &Checks, "", RANGES_OF_THE_TOP)?;
    hold(alloc, &Checks, TOP, NAMES)?;
    hold(alloc, &Checks, ARM, NAMES_OF_AN_ARM)?;
    hold(alloc, &Checks, TOP, RANGES)?;
    hold(alloc, &Checks, ARM, RANGES_OF_AN_ARM)?;
    hold(alloc, &Checks, ARM, TRANSMISSIONS)?;
    hold(alloc, &Checks, ARM, LIMITERS)
}

#[test]
fn links_and_orders(rt: HostRuntime) -> Result<(), Fail> {
    let alloc = rt.alloc();
    hold(alloc, &Checks, TOP, LINKS)?;
    hold(alloc, &Checks, ARM, LINKS_OF_AN_ARM)?;
    hold(alloc, &Checks, TOP, ORDERS)?;
    hold(alloc, &Checks, ARM, ORDERS_OF_AN_ARM)?;
    hold(alloc, &Loops, TOP, CHAINS)
}

#[test]
fn groups_of_the_second_version(rt: HostRuntime) -> Result<(), Fail> {
    hold(rt.alloc(), &Checks, SECOND, GROUPS)
}

#[test]
fn counts_at_their_limits(rt: HostRuntime) -> Result<(), Fail> {
    let alloc = rt.alloc();
    hold(alloc, &Checks, TOP, PARTS)?;
    hold(alloc, &Checks, JOINTS, SHARES)?;
    hold(alloc, &Checks, JOINTS, CLAIMS)
}

/// A component of one joint, which is commanded and measured by position.
const ARM: &str = r#"version = 1
update_rate = 100
cycles = 5
[[component]]
name = "arm"
kind = "system"
[[component.joint]]
name = "j1"
vmax = 1
command = ["position"]
state = ["position"]
"#;
