//! The controller that tells what it reads: a broadcaster of states.
//! Each call does to the data what the table of controllers says.
#![tactic(auto)]

pub use broadcaster::Broadcaster;

mod broadcaster;
pub mod laws;
