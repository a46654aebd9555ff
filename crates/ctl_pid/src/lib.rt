//! The controller that closes a loop: it brings what it reads to what is wanted.
//! Each call does to the data what the table of controllers says.
#![tactic(auto)]

pub use pid::PidCtl;

pub mod laws;
mod pid;
mod tuning;
