//! What a flight takes along besides the controllers.

use crate::robot::Robot;
use cm_hardware::Lists;
use cm_model::Member;
use cm_storage::{CycleParts, CycleRecord, RecordRoom, Standing};
use stop_plan::Ending;

/// What works in a cycle besides the controllers, and room to tell of it. It stands behind one pointer, which alone
/// moves as a cycle leaves and comes home.
#[derive(Drop)]
pub struct CycleContext {
    /// What the controllers work on.
    pub robot: Robot,
    /// The sets of the end of a cycle: who stops, stays and restarts, if something failed.
    pub ending: Ending,
    /// Room for the lists of the hardware, which are written down as the cycle is computed.
    pub lists: Lists,
    /// The running controllers by serial and place, in the order of updates; at home those that ran last.
    pub order: Vec<Member>,
    /// The serials of the controllers whose update failed, once the cycle is computed, with room for each that runs;
    /// at home those of the cycle that landed last.
    pub erred: Vec<u32>,
    /// Whether a component or an update failed.
    pub has_failed: bool,
    /// Room to tell of the cycle, until it is computed; and the same room still where nothing was told in it.
    pub room: Option<RecordRoom>,
    /// The record of the cycle, once it is.
    pub record: Option<CycleRecord>,
    /// The place of a record that the cycle left over, of which there was nothing to tell.
    pub left_over: Option<Box<CycleParts>>,
    /// The bodies that were told last where nothing else was, with a list of them for the record of the next cycle.
    pub standing: Standing,
}
