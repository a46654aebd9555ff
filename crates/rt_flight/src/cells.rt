//! The cells of one depth read together, and give out together.

ghost use Rattle.std.specs.Prelude.{◌≡◌, length, map, vec_len, vec_capacity};
ghost use Rattle.std.specs.List.{AllByRecursion};
ghost use Rattle.cm_slots.specs.Updates.{IsTimely};
ghost use Rattle.rt_flight.specs.Cells.{flying, cell_read, cell_put, all_put, all_outs, all_numbers, CanFly};
ghost use Rattle.rt_flight.specs.Calls.Cells.{CanPutAll, LeavesPut};

use crate::cell::Cell;
use crate::round::Round;
use cm_hardware::ResourceManager;
use cm_places::CtlPlaces;
use cm_storage::RanRoom;
use ctl_trait::Controller;

/// All of these read.
pub(crate) fn gather_all<C: Controller>(
    cells: &mut [Cell<C>],
    round: &Round<'_>,
    hardware: &ResourceManager,
)
    requires timely { IsTimely round.now }
    requires can { AllByRecursion
        (CanFly round.now.placed round.now.related round.now.period_us (length hardware.now.loans)) cells.old }
    ensures { cells.new ≡ map (cell_read round.now hardware.now.loans) cells.old }
{
    for cell in cells.iter_mut() {
        cell.gather(round, hardware);
    }
}

/// What all of these gave out is put into their claims, and told.
pub(crate) fn scatter_all<C: Controller>(
    cells: &mut [Cell<C>],
    places: &CtlPlaces,
    hardware: &mut ResourceManager,
    ran: &mut RanRoom,
    erred: &mut Vec<u32>,
)
    requires { CanPutAll places.now (length hardware.old.loans) cells.old ran.old (vec_len erred.old)
        (vec_capacity erred.old) }
    ensures cells { cells.new ≡ map cell_put cells.old }
    ensures flying { flying hardware.new ran.new.rans erred.new.items
        ≡ all_put places.now cells.old (flying hardware.old ran.old.rans erred.old.items) }
    ensures leaves { LeavesPut (length cells.old) (all_outs cells.old) (all_numbers cells.old)
        (length hardware.old.loans) (length hardware.new.loans) ran.old ran.new (vec_len erred.old) (vec_len erred.new)
        (vec_capacity erred.old) (vec_capacity erred.new) }
{
    for cell in cells.iter_mut() {
        cell.scatter(places, hardware, ran, erred);
    }
}
