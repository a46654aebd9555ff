//! The written manager: what calls, replies and histories are, and what each means.
//! Nothing here runs a manager. Read `specs/` first, in the order of `specs/Lib.antt`.
#![tactic(auto)]

pub use blanks::Blanks;
pub use cause::{Cause, Decision, Dropped, Outcome};
pub use component::JointInterface;
pub use data::{CtlData, RunData};
pub use entry::Entry;
pub use fault_kind::{FAULT_KINDS, FaultKind};
pub use lines::{CompLine, CtlLine, IfaceLine};
pub use member::Member;
pub use planned::Planned;
pub use ports::{LoopPort, Port};
pub use reply::{Reply, Why};
pub use request::Request;
pub use seen::Seen;
pub use tick::{LONGEST_PERIOD, Tick};

mod blanks;
mod cause;
mod component;
mod data;
mod display;
mod entry;
mod fault_kind;
pub mod laws;
mod lines;
mod member;
mod planned;
mod ports;
mod reply;
mod request;
mod seen;
pub mod steady;
mod tick;

/// How many requests wait at most.
pub const MOST_WAITING: usize = 4;

/// A second, in microseconds.
pub const SECOND_US: u32 = 1_000_000;
