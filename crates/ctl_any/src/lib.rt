//! A controller of any kind, in a box and without one, and stocks of all kinds: so many blanks of each.
#![tactic(auto)]

pub use any_kind::AnyKind;
pub use in_box::{BoxedKind, boxed_blanks};
pub use stock::{blanks, counted};

mod any_kind;
mod in_box;
mod stock;
