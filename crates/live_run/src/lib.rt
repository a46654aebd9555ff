//! A live run: the loop and its sessions beside one another, each on a thread of its own, over any consoles.
#![tactic(auto)]

pub use run::{live, live_alone, live_by};

mod looping;
mod run;
mod sessions;
