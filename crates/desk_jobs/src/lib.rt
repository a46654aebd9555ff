//! The desk of a job: scheduled, live or alone, its sessions and its loop are run to their ends.
#![tactic(auto)]

pub use job::{desk_of_job, desk_of_job_by};
pub use live::desk_of_live_run;

mod alone;
mod job;
mod live;
