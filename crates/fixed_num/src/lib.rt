//! Numbers with six decimals, kept exactly as whole micro-units, and the one answer for want of memory.
//! Everything that measures, commands or reports a quantity of the robot speaks in `Fx`.
#![tactic(auto)]

pub use fx::{Fx, floor, wide_floor};
pub use memory::Memory;
pub use read::FxFault;
pub use stored::StoredValue;
pub use value::{BodyState, JointMode, Value};

mod cut;
mod fx;
pub mod laws;
mod memory;
mod read;
mod stored;
mod text;
mod value;

/// How many decimals a number has.
pub const DECIMALS: usize = 6;

/// How many micro-units are a unit: as many as six decimals can tell apart.
pub const MICRO: u32 = 1_000_000;

/// How many units the largest number has, and the smallest has below zero: a thousand million.
pub const MOST_UNITS: u32 = 1_000_000_000;

/// How many micro-units these are.
pub const LARGEST: u64 = MOST_UNITS as u64 * MICRO as u64;

/// How many digits the whole part of a number's text has at most: those of the most units.
pub const MOST_DIGITS_OF_UNITS: usize = 10;
