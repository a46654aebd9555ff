//! Laws of soundness: what each step keeps of a state, and what that says of histories, up to the law that every legal
//! history of a valid description is sound. Each is the contract of a function that does nothing.
#![tactic(auto)]

pub mod cycles;
pub mod histories;
pub mod loans;
pub mod opening;
pub mod requests;
pub mod tickets;
