//! Numbers as the picture prints them: without the zeros behind their last decimal.

use fixed_num::{DECIMALS, MICRO, Memory};
use std::alloc::Global;

/// How many micro-units a unit is.
const UNIT: u64 = MICRO as u64;

/// A number of micro-units, in units.
pub fn short(alloc: Global, micro: i64) -> Result<String, Memory> {
    let size = micro.unsigned_abs();
    let sign = if micro < 0 { "-" } else { "" };
    let whole = size / UNIT;
    let mut text = format!(in alloc; "{sign}{whole}")?;
    push_decimals(&mut text, size % UNIT)?;
    Ok(text)
}

/// Appends so many micro-units as decimals, up to the last that is not zero.
fn push_decimals(text: &mut String, micro: u64) -> Result<(), Memory> {
    if micro > 0 {
        text.push_str(".")?;
    }
    let mut left = micro;
    for _decimal in 0..DECIMALS {
        if left > 0 {
            let shifted = left.saturating_mul(10);
            let digit = shifted / UNIT;
            write!(text, "{digit}")?;
            left = shifted % UNIT;
        }
    }
    Ok(())
}

/// Appends which cycles these are.
pub fn push_cycles(text: &mut String, first: u64, last: u64) -> Result<(), Memory> {
    if first == last {
        write!(text, "cycle {first}")?;
    } else {
        write!(text, "cycles {first} to {last}")?;
    }
    Ok(())
}
