//! Components at work over the board of their interfaces.
#![tactic(auto)]

pub use lists::Lists;
pub use manager::ResourceManager;

mod commit;
mod cycle;
mod hardware;
pub mod laws;
mod lists;
mod manager;
mod moves;
mod start;
