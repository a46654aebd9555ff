//! What a desk leaves behind.

ghost use Rattle.std.specs.Prelude.{◌≡◌, ◌≤◌, [], true, map, length, vec_capacity};

use crate::works::Works;
use cm_model::Entry;
use ctl_trait::Controller;

/// What a desk leaves behind: all that it did, and the boxes that are loaded.
#[derive(Debug, Drop)]
pub struct Book<C> {
    /// The entries, in order.
    pub history: Vec<Entry>,
    /// The boxes of the loaded controllers, in order of their serials.
    pub boxes: Vec<C>,
}

impl<C: Controller> Works<C> {
    /// The boxes of the loaded controllers, by serial, in this room. It takes no memory.
    pub(crate) fn into_boxes(self, room: Vec<C>) -> Vec<C>
        requires closed { self.closed ≡ true }
        requires empty { room.items ≡ [] }
        requires places { length self.loaded ≤ vec_capacity room }
        ensures { map C.meaning result.items ≡ map (λ l. l.ctl) self.loaded }
    {
        self.slots.into_boxes(room)
    }
}
