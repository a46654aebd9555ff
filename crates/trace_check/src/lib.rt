//! A checker of traces: whether a stored trace is that of a run of a document, and else the first line that is wrong.
#![tactic(auto)]

pub use check::check_trace;
pub use fault::{TraceFault, WrongLine};
pub use replay::{Replayed, replay_over};

mod callers;
mod check;
mod fault;
mod printing;
mod replay;
