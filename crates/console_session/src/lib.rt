//! One operator's session: its lines, each once and in order, behind each request the Told of its ticket.
//! It goes on over any console, which a trait stands for, as another does for the loop's.
#![tactic(auto)]

pub use session::{Progress, Session};

mod session;
