//! What a history keeps of a cycle and of a call, in few bytes, and the same while it is filled within reserved room.
//! What is kept tells the plain values that the written manager speaks of: read `specs/` first.
#![tactic(auto)]

pub use append::{push_number, push_numbered};
pub use bodies::are_same;
pub use kept_call::{CycleCall, KeptCall};
pub use ran::{Done, RanList, RanRef, Rans};
pub use ran_room::RanRoom;
pub use record::{CycleParts, CycleRecord, FailedPart};
pub use record_room::{RecordRoom, RecordSize};
pub use standing::Standing;

mod append;
mod bodies;
mod kept_call;
mod ran;
mod ran_room;
mod record;
mod record_room;
mod standing;
