//! What happened in a run, read off its history: who claims what, who is in which lifecycle state, and where each joint
//! was.
#![tactic(auto)]

pub use columns::{Columns, MOST_COLUMNS};
pub use course::{JointCourse, Sample};
pub use incidents::Incident;
pub use limiters::LimiterCourse;
pub use links::{ControllerLinks, Link, Linked, joints_of, links_of};
pub use outcomes::{Answered, Became};
pub use present::Asked;
pub use replay::{Replay, RunCounts};
pub use rows::{ColumnState, Event, Row, RowCell};

mod columns;
mod course;
mod groups;
mod incidents;
mod limiters;
mod links;
mod outcomes;
mod present;
mod replay;
mod rows;
