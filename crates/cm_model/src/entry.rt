//! Entries: what a history keeps of a call.

use crate::reply::Reply;
use cm_storage::KeptCall;

/// One event of a history. Each cycle has two, so what is long in one stands on the heap.
#[derive(Clone, Debug, Drop)]
pub struct Entry {
    /// Who called: the session's number, or the number of sessions for the loop.
    pub who: u32,
    /// The call.
    pub call: KeptCall,
    /// What was answered.
    pub reply: Reply,
}

const _: () = prove!(size_of::<Entry>() == 48);
