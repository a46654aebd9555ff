//! Who stops and who restarts at the end of a cycle: exactly those of the written rules, found by one pass over the
//! active controllers against the order of their updates. Nothing here takes memory but the sets when they are made.
#![tactic(auto)]

pub use ending::Ending;
pub use report::Report;

mod ending;
pub mod laws;
mod report;
mod sets;
