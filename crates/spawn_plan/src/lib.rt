//! A planner of starts: the script that brings exactly the wanted controllers to active, or why there is none. It runs
//! nothing.
#![tactic(auto)]

pub use fault::SpawnFault;
pub use plan::spawn;

mod fault;
mod fitting;
mod never;
mod plan;
mod spans;
mod starting;
mod wanted;
