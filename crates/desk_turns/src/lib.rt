//! Turns over a desk: the console of a session, how sessions and loop go on, and the jobs of one thread or of several
//! workers.
#![tactic(auto)]

pub use desk_loop::DeskLoop;
pub use jobs::RunningJob;
pub use looping::{run_in_steps, run_in_steps_by, run_job, run_job_by};
pub use port::DeskPort;
pub use sessions::waiting;

mod desk_loop;
mod jobs;
mod looping;
mod port;
mod sessions;
