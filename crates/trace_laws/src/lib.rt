//! Laws of traces: which texts are the trace of a run, and what a text that is none goes wrong at. Each is the contract
//! of a function that does nothing.
#![tactic(auto)]

pub mod judging;
pub mod lines;
pub mod stocks;
pub mod ways;
