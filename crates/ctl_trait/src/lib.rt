//! What a controller is to its manager: the calls that it answers, each with what it does to the controller's data.
//! The data, and what each kind of controller makes of them, are the table of `cm_model`; the trait's clauses cite it.
#![tactic(auto)]

pub use controller::Controller;
pub use fault::CfgFault;
pub use items::{both, only};
pub use kinds::{publishes, takes, takes_none};
pub use set_part::{SetPart, set_numbers};

mod controller;
mod fault;
mod in_box;
mod items;
mod kinds;
mod set_part;
