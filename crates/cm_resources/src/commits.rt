//! A commit: a set of controllers becomes active, and all that goes by it.

ghost use Rattle.std.specs.Prelude.{◌≡◌, false};
ghost use Rattle.cm_model.specs.Order.{Places};
ghost use Rattle.cm_model.specs.State.{State};
ghost use Rattle.cm_resources.specs.Commits.{CanCommit, HasCommitted, KeepsRest};

use crate::active_set::ActiveSet;
use chain_order::PlaceSet;
use cm_hardware::ResourceManager;
use cm_places::CtlPlaces;
use cm_slots::{Room, Slots};
use ctl_trait::Controller;

/// A set of controllers becomes active: those that are stopped are deactivated, and those that are started activated,
/// as these flags say; the board and the joints go by it, and who is active is looked up anew. It takes no memory. It
/// stands apart, because few cycles need it.
#[inline(never)]
pub fn commit<C: Controller>(
    slots: &mut Slots<C>,
    hardware: &mut ResourceManager,
    places: &CtlPlaces,
    room: &mut Room,
    active_set: &mut ActiveSet,
    chained: &PlaceSet,
    stopped: &PlaceSet,
    started: &PlaceSet,
)
    requires down { slots.old.aloft ≡ false }
    requires can { (s : State) × (set : Places) × (again : Places)
        × CanCommit s set again places.now room.old slots.old.loaded hardware.old active_set.old
        chained.now stopped.now started.now }
    ensures committed { (s : State) (set again : Places)
        → CanCommit s set again places.now room.old slots.old.loaded hardware.old active_set.old
        chained.now stopped.now started.now
        → HasCommitted s set again slots.new.loaded hardware.new active_set.new }
    ensures rest { KeepsRest active_set.old active_set.new room.old room.new slots.old slots.new }
{
    slots.commit(hardware, places, room, chained, stopped, started);
    active_set.look(slots.as_slice());
    hardware.commit(places, active_set.active(), stopped);
}
