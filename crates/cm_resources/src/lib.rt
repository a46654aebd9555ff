//! What a cycle works on, at home or aloft: the hardware with the memory of a cycle, and who is active.
#![tactic(auto)]

pub use active_set::ActiveSet;
pub use commits::commit;
pub use described::described_at;
pub use needs::{CycleNeeds, HardwareSize, empty};
pub use resources::{CycleBuffers, CycleResources};
pub use start::{AtStart, at_start};

mod active_set;
mod commits;
mod described;
mod needs;
mod resources;
mod start;
