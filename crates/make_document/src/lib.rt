//! The made document: a robot of eight joints with a controller for each, and a script that in each round sends to one
//! of the controllers and starts another one anew. Its size is the number of rounds.
#![tactic(auto)]

pub use document::make_document;

mod document;
pub mod laws;

/// How many joints a made robot has; each has a controller.
pub const JOINTS: u64 = 8;

/// How many cycles a round of a made script lasts.
pub const CYCLES_A_ROUND: u64 = 10;

/// By how many hundredths of a unit the value that is sent goes on from round to round.
pub const VALUE_STEP: u64 = 37;
