//! Controllers that pass values on: a forward gives what it was sent, a passthrough its references if it is chained.
//! Both are one controller over set values, which asks its kind for what differs.
//! Each call does to the data what the table of controllers says.
#![tactic(auto)]

pub use forward::{Forward, ForwardKind};
pub use passthrough::{Passthrough, PassthroughKind};
pub use set_ctl::{SetCtl, SetKind};

mod forward;
mod passthrough;
mod set_ctl;
