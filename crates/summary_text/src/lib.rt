//! The summary of a history: what is counted of it, in one pass over its entries, and where each joint is at its end.
#![tactic(auto)]

pub use summary::write_summary;

mod lines;
mod summary;
mod tally;
