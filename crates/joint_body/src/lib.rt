//! The body of a joint: how its position, velocity and effort go on from step to step, commanded or not.
//! A simulated plant in exact arithmetic, so that the same commands move it in the same way on every machine.
#![tactic(auto)]

pub use body::Body;

mod body;
mod exact;
pub mod laws;

/// The longest step in microseconds: one second, the period at the lowest update rate.
pub const LONGEST_STEP: u32 = 1_000_000;
