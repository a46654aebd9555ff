//! `Seq`, the list that plain types hold, and the words that readers' and steps' contracts share.
//! Contracts see a `Seq` as the list of its items and nothing else: no capacity, no address.
#![tactic(auto)]

pub use boxed::Boxed;
pub use rare::Rare;
pub use room::ListRoom;
pub use seq::Seq;
pub use shared::Shared;
pub use shared_list::SharedList;

mod boxed;
mod rare;
mod room;
mod seq;
mod shared;
mod shared_list;
