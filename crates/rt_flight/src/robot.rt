//! What a cycle works on besides the controllers.

use cm_hardware::ResourceManager;
use cm_places::CtlPlaces;
use switch_plan::Relations;

/// The hardware, and what is worked out of the description: where the controllers stand to the board and to each other,
/// and the time from one cycle to the next in microseconds.
#[derive(Drop)]
pub struct Robot {
    /// The components, and the board of their interfaces.
    pub hardware: ResourceManager,
    /// Where the interfaces of the described controllers stand on the board.
    pub places: CtlPlaces,
    /// Whom and what each described controller has to do with.
    pub relations: Relations,
    /// The time from one cycle to the next, in microseconds.
    pub period_us: u32,
}
