//! Where the interfaces of each described controller stand on the board, worked out of a description once: a cycle or a
//! commit then looks up no name of an interface.
#![tactic(auto)]

pub use places::CtlPlaces;

pub mod laws;
mod listed;
mod names;
mod places;
mod rows;
