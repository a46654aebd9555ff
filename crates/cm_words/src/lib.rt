//! The words of the command line: which are accepted, and the job that they ask for.
#![tactic(auto)]

pub use job::{Job, JobKind, MOST_ROUNDS, MOST_WORKERS, WordsFault};
pub use words::asked;

mod job;
pub mod laws;
mod words;
