//! Calls: what a session or the loop asks of the manager.

use crate::life::Life;
use fixed_num::Fx;
use iface_names::Name;
use sequence::Seq;

/// What a session or the loop asks of the manager. The last three are the loop's.
#[derive(Clone, Debug, PartialEq, Eq, Drop)]
pub enum Call {
    /// Make a controller of this described name.
    Load(Name),
    /// Give a loaded controller its described parameters.
    Configure(Name),
    /// Take the parameters from an inactive controller.
    Cleanup(Name),
    /// Let a controller go that is not active.
    Unload(Name),
    /// Set a controller's update rate, in hertz; it counts from its next configure on.
    Rate {
        /// The controller.
        name: Name,
        /// The rate, at most 10,000 hertz; 0 is the manager's.
        hz: u32,
    },
    /// Give an active controller new values to go for.
    Send {
        /// The controller.
        name: Name,
        /// The values.
        mail: Mail,
    },
    /// Deactivate and activate controllers between two cycles.
    Switch(SwitchRequest),
    /// Bring a component to a lifecycle state between two cycles.
    Hardware {
        /// The component.
        component: Name,
        /// The state.
        target: Life,
    },
    /// Be told what became of the request with this ticket.
    Told(u32),
    /// Wait until so many cycles have ended, or the loop is closed.
    Await(u64),
    /// List the loaded controllers.
    ListControllers,
    /// List the interfaces with their values and owners.
    ListInterfaces,
    /// List the components.
    ListComponents,
    /// Begin the cycle of this number.
    Begin(u64),
    /// End the cycle of this number.
    End(u64),
    /// Close the loop.
    Close,
}

/// What a controller is sent.
#[derive(Clone, Debug, PartialEq, Eq, Drop)]
pub enum Mail {
    /// One value for each claim.
    Values(Seq<Fx>),
    /// Timed points, in the order of their times.
    Points(Seq<Point2>),
}

/// Values to be reached at a time.
#[derive(Clone, Debug, PartialEq, Eq, Drop)]
pub struct Point2 {
    /// The time in microseconds, counted from the cycle that takes the points.
    pub at_us: u64,
    /// One value for each claim.
    pub values: Seq<Fx>,
}

/// Which controllers a word of a switch names.
#[derive(Clone, Debug, PartialEq, Eq, Drop)]
pub enum Pick {
    /// The controller of this name.
    One(Name),
    /// The members of the group of this name.
    Group(Name),
}

/// Which controllers are to become active and inactive together. A controller that both lists name restarts.
#[derive(Clone, Debug, PartialEq, Eq, Drop)]
pub struct SwitchRequest {
    /// What is to be activated, in its order, as it was written.
    pub on: Seq<Pick>,
    /// What is to be deactivated, in its order, as it was written.
    pub off: Seq<Pick>,
    /// Whether all of it is to be done or nothing; otherwise what can be done is done.
    pub strict: bool,
}
