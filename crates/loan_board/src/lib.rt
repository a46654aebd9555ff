//! The loan board: what each interface of a description holds, whether it is available, and who claims it.
//! An interface is named by its place, so that all of this is read and changed in one step.
#![tactic(auto)]

pub use board::{Board, Loan};

mod board;
pub mod laws;
mod make;
