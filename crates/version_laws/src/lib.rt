//! Laws of the two versions of a description. Each is the contract of a function that does nothing.
#![tactic(auto)]

pub mod versions;
