//! One desk for many threads: each caller has a pass, and all meet under the turn lock. What a pass has seen begins
//! with what it had seen before, is legal and sound, and has of its own number just its own entries.
#![tactic(auto)]

pub use kept::{KeptDesk, Opening};
pub use passes::{LoopPass, Pass};
pub use ports::{LoopEnd, SessionPort};
pub use shared::SharedDesk;

mod kept;
mod looks;
mod looping;
mod passes;
mod ports;
mod sessions;
mod shared;
mod waiting;
