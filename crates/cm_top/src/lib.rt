//! From words and bytes to bytes: a document is read, the job of the words is run, the trace is written, and the book
//! of the run is handed out.
#![tactic(auto)]

pub use accepted::run_document;
pub use status::Status;
pub use top::{run, run_alone};

mod accepted;
mod answer;
mod check;
pub mod laws;
mod plan;
mod reading;
mod status;
mod top;
mod upgrade;
