//! The cells of one depth make their steps, by so many workers.

ghost use Rattle.std.specs.Prelude.{◌<◌, All};
ghost use Rattle.std.specs.List.{AllByRecursion};
ghost use Rattle.rt_flight.specs.Calls.Cells.{HasStepped, HaveStepped};
ghost use Rattle.rt_flight.specs.Cells.{CanMakeStep};

use ctl_trait::Controller;
use rt_flight::{Cell, step_in_turn};
use std::thread;
use std::thread::Threads;

/// All of these make their steps, by so many workers, of which the caller's thread is one. No thread is made if at most
/// one of them is updated.
pub(crate) fn step_among<R: Threads + Sync, C: Controller + Send>(
    rt: &R,
    cells: &mut [Cell<C>],
    workers: usize,
)
    requires { AllByRecursion CanMakeStep cells.old }
    ensures { HaveStepped cells.old cells.new }
{
    if workers <= 1 || !several_are_updated(cells) {
        step_in_turn(cells);
    } else {
        step_beside(rt, cells, workers);
    }
}

/// Whether more than one of these is updated in the cycle.
fn several_are_updated<C: Controller>(cells: &[Cell<C>]) -> bool {
    let mut one = false;
    for cell in cells {
        if cell.is_to_step() {
            if one {
                return true;
            }
            one = true;
        }
    }
    false
}

/// All of these make their steps, each worker those of one piece of the list.
fn step_beside<R: Threads + Sync, C: Controller + Send>(
    rt: &R,
    cells: &mut [Cell<C>],
    workers: usize,
)
    requires some { 0 < workers }
    requires can { All CanMakeStep cells.old }
    ensures { HaveStepped cells.old cells.new }
{
    thread::for_each_mut(
        rt,
        cells,
        workers,
        &|_: usize, cell: &mut Cell<C>|
            requires { CanMakeStep cell.now }
            ensures { HasStepped cell.entry.now cell.exit.now }
        { cell.step() },
    );
}
