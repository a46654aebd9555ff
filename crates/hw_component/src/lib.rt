//! One hardware component: it is read and written in cycles, steps the bodies of its joints, and moves between its
//! lifecycle states. It is simulated, and fails in the cycles that its description lists.
#![tactic(auto)]

pub use component::Component;
pub use faults::{HwFault, ModeFault};

mod claims;
mod component;
mod faults;
mod joints;
pub mod laws;
mod make;
