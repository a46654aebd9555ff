//! What waits for the loop to decide it.

use cm_document::{Life, SwitchRequest};
use iface_names::Name;

/// A request. It waits under a ticket until a cycle begins or the loop closes.
#[derive(Clone, Debug, PartialEq, Eq, Drop)]
pub enum Request {
    /// Deactivate and activate controllers.
    Switch(SwitchRequest),
    /// Bring a component to a lifecycle state.
    Hardware {
        /// The component.
        component: Name,
        /// The state.
        target: Life,
    },
}
