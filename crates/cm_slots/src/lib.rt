//! The loaded controllers: one in its slot, all with their boxes, and what becomes of them at a commit, and when a
//! cycle takes off and comes home.
#![tactic(auto)]

pub use mails::{MailAloft, take_mail};
pub use room::Room;
pub use slot::Slot;
pub use slots::Slots;

mod commits;
pub mod laws;
mod lent;
mod mails;
mod room;
mod slot;
mod slots;
