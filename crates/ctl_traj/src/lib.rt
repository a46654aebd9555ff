//! The controller that leads its claims through points in time.
//! Each call does to the data what the table of controllers says.
#![tactic(auto)]

pub use trajectory::TrajCtl;

pub mod laws;
mod lead;
mod segment;
mod trajectory;
