//! The part of the picture of a run that tells who claims and reads what.
#![tactic(auto)]

pub use boxes::mark;
pub use picture::draw_links;

mod boxes;
mod edges;
mod levels;
mod picture;
mod ports;
