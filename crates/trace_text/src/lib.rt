//! The trace of a history, line by line, into a sink.
//! Each line is made in the room of one before it, and is offered to the sink as one piece.
#![tactic(auto)]

pub use one_by_one::Lines;
pub use trace::{OutFault, write_trace};

mod interfaces;
mod items;
mod line;
mod names;
mod numbers;
mod one_by_one;
mod place;
mod quiet;
mod records;
mod standing;
mod trace;
