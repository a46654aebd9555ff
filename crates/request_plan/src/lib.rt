//! Requests that wait: what becomes of each is planned where a cycle begins, one after the other, each in the state
//! that the one before it left. Planning takes memory and changes nothing; what is planned is then done without memory.
#![tactic(auto)]

pub use acts::{Act, Conclusion, Switched};
pub use plans::Plan;
pub use requests::Requests;
pub use situation::Situation;

mod acts;
mod components;
mod moves;
mod plans;
mod requests;
mod situation;
mod switches;
