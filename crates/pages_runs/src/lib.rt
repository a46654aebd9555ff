//! Runs of documents over a source and a sink in memory, over a stock of as many controllers of each kind as the
//! program has, without boxes, for the crates of tests.
#![tactic(auto)]

pub mod books;
pub mod documents;
pub mod runs;
