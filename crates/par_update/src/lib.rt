//! The controllers of one depth are updated by several workers, and the cycle is the same.
#![tactic(auto)]

pub use workers::compute_by;

mod steps;
mod workers;
