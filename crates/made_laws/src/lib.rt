//! What the runs of made documents come to. Each law is the contract of a function that does nothing.
#![tactic(auto)]

pub mod runs;
