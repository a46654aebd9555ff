//! One cycle that has left the desk: it owns what it works on, is computed wherever it is moved to, and comes back.
#![tactic(auto)]

pub use cell::Cell;
pub use context::CycleContext;
pub use flight::{Flight, Landing, Payload};
pub use robot::Robot;
pub use steps::step_in_turn;
pub use workspace::Workspace;

mod cell;
mod cells;
mod compute;
mod context;
mod depths;
mod flight;
pub mod laws;
mod layer;
mod robot;
mod round;
mod running;
mod steps;
mod telling;
mod workspace;
