//! Shapes between what is commanded and what a joint is told: transmissions, and limits on speed and acceleration.
//! Plain parts, which are formulas on whole micro-units and take no memory, and a controller over each.
#![tactic(auto)]

pub use controllers::{DifferentialCtl, LimiterCtl, TransmissionCtl};
pub use differential::Differential;
pub use limiter::Limiter;
pub use limits::Limits;
pub use run::limit_run;
pub use simple::Simple;

mod controllers;
mod differential;
mod exact;
pub mod laws;
mod limiter;
mod limits;
mod run;
mod simple;
mod way;

/// The longest time between two updates of a run in microseconds: a thousand seconds.
pub const LONGEST_TIME: u32 = 1_000_000_000;
