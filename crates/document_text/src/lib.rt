//! What a document is as bytes: its parts, its description and script or its first fault, and what further parts say.
#![tactic(auto)]

pub use document::{Traced, read_document, read_traced};
pub use wish::{read_wish, wanted_in};

mod document;
pub mod laws;
mod parts;
mod wish;
