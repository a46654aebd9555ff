//! The cells of one depth make their steps.

ghost use Rattle.std.specs.List.{AllByRecursion};
ghost use Rattle.rt_flight.specs.Calls.Cells.{HaveStepped};
ghost use Rattle.rt_flight.specs.Cells.{CanMakeStep};

use crate::cell::Cell;
use ctl_trait::Controller;

/// All of these make their steps, one after the other. It takes no memory.
pub fn step_in_turn<C: Controller>(cells: &mut [Cell<C>])
    requires { AllByRecursion CanMakeStep cells.old }
    ensures { HaveStepped cells.old cells.new }
{
    for cell in cells.iter_mut() {
        cell.step();
    }
}
