//! The controller that stands in for one in tests of the manager: it may refuse, be not ready, and fail, as its
//! parameters say. Each call does to the data what the table of controllers says.
#![tactic(auto)]

pub use mock::Mock;

mod mock;
