//! What the manager answers.

use crate::cause::{Decision, Outcome};
use crate::lines::{CompLine, CtlLine, IfaceLine};
use cm_storage::CycleRecord;
use sequence::{Boxed, Rare, Seq, Shared};

/// Why a call did nothing.
#[derive(Clone, Copy, Debug, PartialEq, Eq)]
pub enum Why {
    /// No controller of this name is described.
    NotDescribed,
    /// It is loaded already.
    Loaded,
    /// No blank of its kind is left in the stock.
    StockEmpty,
    /// No controller of this name is loaded.
    NotLoaded,
    /// It is active.
    Active,
    /// It refuses the parameters.
    Refused,
    /// It is not inactive.
    NotInactive,
    /// It is not active.
    NotActive,
    /// It is chained: another controller sets its references.
    Chained,
    /// Its kind takes no mail.
    TakesNone,
    /// The mail does not fit its claims.
    WrongCount,
    /// The loop is closed.
    LoopEnded,
    /// As many requests wait as can wait.
    QueueFull,
}

/// The answer to a call.
#[derive(Clone, Debug, Drop)]
pub enum Reply {
    /// The call was carried out.
    Done,
    /// The load gave this number, counted from 0 and never used twice.
    Serial(u32),
    /// The request waits under this ticket, counted from 0.
    Queued(u32),
    /// The call did nothing, for this reason.
    Not(Why),
    /// What became of the request.
    Outcome(Boxed<Outcome>),
    /// The loaded controllers by serial. A list is kept once for all that hold it.
    Controllers(Shared<Seq<CtlLine>>),
    /// The interfaces by place.
    Interfaces(Shared<Seq<IfaceLine>>),
    /// The components as described.
    Components(Shared<Seq<CompLine>>),
    /// What a begin or the close decided, by ticket.
    Decisions(Rare<Decision>),
    /// What the cycle did.
    Cycle(CycleRecord),
}
