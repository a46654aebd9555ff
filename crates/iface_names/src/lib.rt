//! Names of controllers, joints and sessions, the interfaces that are named with them, and a registry that numbers
//! interfaces. Each reading is exact: a text is refused only where the rule is broken, and what was read prints as the
//! text that it came from.
#![tactic(auto)]

pub use interface::IfaceName;
pub use kind::Kind;
pub use name::{Name, NameFault};
pub use registry::{RegFault, Registry};

mod interface;
mod kind;
pub mod laws;
mod name;
mod registry;

/// The longest name, in bytes.
pub const LONGEST_NAME: usize = 64;
