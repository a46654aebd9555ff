//! The turn lock: threads take turns at one value, in the order in which they asked for it, each with a pass of its
//! own. Of one list of entries, which the turns make longer, each pass has seen a prefix, and knows its own entries
//! whole.
#![tactic(auto)]

pub use kept::{Kept, Shown};
pub use lock::TurnLock;
pub use pass::TurnPass;

mod finish;
mod kept;
mod lock;
mod make;
mod pass;
mod steps;
mod table;
mod turn;
mod view;
mod wait;

/// The most passes that a lock has, so that no two of them ever wait with one ticket modulo 2^64.
pub const MOST_SEATS: u32 = 64;

/// The counted list always has fewer entries than this, so that its length is a word.
pub const TOO_MANY_ENTRIES: u64 = 1 << 32;
