//! How each fault of numbers, names and places prints.

use fixed_num::{FxFault, Memory};
use iface_names::{NameFault, RegFault};
use std::alloc::AllocError;
use std::fmt::Display;
use std::test::Fail;

/// A line for each fault below, in their order.
const PRINTED: &str = "\
no number
not a number at byte 3
more than six decimals
number out of range
not a name
out of memory
taken, at place 7
full
out of memory
out of memory
";

#[test]
fn each_fault_prints_as_its_line(rt: HostRuntime) -> Result<(), Fail> {
    let mut printed = String::new(rt.alloc());
    push_of_numbers(&mut printed)?;
    push_of_names(&mut printed)?;
    assert!(rt; printed.as_str() == PRINTED);
    Ok(())
}

fn push_of_numbers(printed: &mut String) -> Result<(), AllocError> {
    push(printed, FxFault::Empty)?;
    push(printed, FxFault::BadByte(3))?;
    push(printed, FxFault::TooManyDecimals)?;
    push(printed, FxFault::TooLarge)
}

fn push_of_names(printed: &mut String) -> Result<(), AllocError> {
    push(printed, NameFault::BadName)?;
    push(printed, NameFault::Memory)?;
    push(printed, RegFault::Taken(7))?;
    push(printed, RegFault::Full)?;
    push(printed, RegFault::Memory)?;
    push(printed, Memory)
}

/// Appends the line of a fault.
fn push<F: Display + Drop>(printed: &mut String, fault: F) -> Result<(), AllocError> {
    write!(printed, "{fault}\n")
}
