//! The blanks that are left to be loaded.
#![tactic(auto)]

pub use stock::{Stock, add};

mod stock;
