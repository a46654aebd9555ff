//! Laws of starts: what a planned script does, and what can never be. Each is the contract of a function that does
//! nothing.
#![tactic(auto)]

pub mod nevers;
pub mod starts;
pub mod written;
