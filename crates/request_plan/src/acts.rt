//! What is done for a request.

use chain_order::PlaceSet;
use cm_document::Life;
use cm_model::Outcome;

/// A switch that is done, as sets of described controllers.
#[derive(Debug, Drop)]
pub struct Switched {
    /// Who is active after it.
    pub set: PlaceSet,
    /// Who is deactivated. A controller that restarts is here and among the started.
    pub stopped: PlaceSet,
    /// Who is activated.
    pub started: PlaceSet,
    /// Who has a reference that a member of the set claims.
    pub chained: PlaceSet,
}

/// What is done for a request.
#[derive(Debug, Drop)]
pub enum Act {
    /// Nothing: the request is refused.
    Nothing,
    /// A switch.
    Switch(Switched),
    /// The component at this place is brought to a lifecycle state.
    Move {
        /// The place, as described.
        component: u32,
        /// The state.
        target: Life,
    },
}

/// What is concluded of a request.
#[derive(Debug, Drop)]
pub struct Conclusion {
    /// What becomes of it.
    pub outcome: Outcome,
    /// What is done for it.
    pub act: Act,
}
