//! What became of requests, and why.

use iface_names::{IfaceName, Name};
use sequence::{Boxed, Shared, SharedList};

/// Why a name of a request was dropped or refused. An interface or a name that it carries belongs to the reason. An
/// interface stands on the heap, so that each reason is small.
#[derive(Clone, Debug, PartialEq, Eq, Drop)]
pub enum Cause {
    /// It is a group, and no such group is described.
    NoGroup,
    /// No such controller is loaded, or no such component described.
    Unknown,
    /// It stands earlier in the same list.
    Twice,
    /// It is to be deactivated and is not active.
    NotActive,
    /// It is to be activated and is unconfigured.
    NotConfigured,
    /// It is to be activated and is active already.
    AlreadyActive,
    /// It claims this reference, whose controller would not be active.
    MissingFollower(Boxed<IfaceName>),
    /// It claims or reads this interface, which is not available.
    Unavailable(Boxed<IfaceName>),
    /// It claims this interface, which this other controller claims too.
    Conflict(Boxed<IfaceName>, Name),
    /// It claims an interface of this joint, on which another one is claimed.
    ModeRefused(Name),
    /// It is not ready to be activated in the cycle to come.
    NotReady,
    /// A component in its state cannot be brought to the target.
    NoSuchMove,
    /// This active controller claims or reads an interface of the component.
    InUse(Name),
}

/// A name that a request was carried out without.
#[derive(Clone, Debug, PartialEq, Eq, Drop)]
pub struct Dropped {
    /// The name.
    pub name: Name,
    /// Why it was left out.
    pub cause: Cause,
}

const _: () = prove!(size_of::<Dropped>() <= 40);

/// What became of a request. What is long in it is kept once for all that hold it: a clone takes no memory.
#[derive(Clone, Debug, PartialEq, Eq, Drop)]
pub enum Outcome {
    /// It was carried out, without these names.
    Done {
        /// The names that were left out, in the order in which they were dropped.
        dropped: SharedList<Dropped>,
    },
    /// Nothing of it was done, because of this name.
    Refused(Name, Shared<Cause>),
    /// The loop closed before it was decided.
    LoopEnded,
}

/// What a begin or the close decided: a request, or that those are asked for that stand in for a controller whose
/// update failed.
#[derive(Clone, Debug, PartialEq, Eq, Drop)]
pub struct Decision {
    /// The request's number, from 0; none where it is of those that stand in.
    pub ticket: Option<u32>,
    /// What became of it.
    pub outcome: Outcome,
}
