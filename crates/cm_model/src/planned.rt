//! What a switch request comes to.

use crate::cause::Outcome;
use sequence::Seq;

/// What a switch request comes to, and what is to be done for it.
#[derive(Clone, Debug, PartialEq, Eq, Drop)]
pub struct Planned {
    /// What becomes of the request.
    pub outcome: Outcome,
    /// The serials to deactivate, in this order: the order in which what was active is updated. A restart stands here
    /// and in `on`.
    pub off: Seq<u32>,
    /// The serials to activate, in this order: against the order in which what will be active is updated.
    pub on: Seq<u32>,
}
