//! Plans of switches: what becomes of a request, and which controllers are deactivated and activated for it, in which
//! order. A plan is exactly the one of the written rules; nothing is done here.
#![tactic(auto)]

pub use relations::Relations;
pub use requests::{plan, plan_with};
pub use view::View;

mod best;
mod changes;
mod clear;
mod faults;
mod interfaces;
pub mod laws;
mod lists;
mod members;
mod relations;
mod requests;
mod setting;
mod strict;
mod view;
