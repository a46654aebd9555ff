//! The program but for its `main`: its words run over its stock between a source and a sink, and its status told.
#![tactic(auto)]

mod status;
pub mod stock;
mod words;

pub use status::report;
pub use stock::BLANKS;
pub use words::{given_words, run_words};
