//! A flight is computed by several workers.

ghost use Rattle.std.specs.Prelude.{◌≡◌, true, None, Some, is_some};
ghost use Rattle.cm_model.specs.State.{State};
ghost use Rattle.rt_flight.specs.Calls.Parts.{CanGather, HadTurns};
ghost use Rattle.rt_flight.specs.Flights.{IsAloft, IsComputed};
ghost use Rattle.rt_flight.specs.Progress.{Progress};

use crate::steps::step_among;
use ctl_trait::Controller;
use rt_flight::Flight;
use std::thread::Threads;

/// The cycle is made, of what the flight owns, as `Flight::compute` makes it; but so many workers, of which the
/// caller's thread is one, share the controllers of each depth. A depth in which at most one controller is updated
/// makes no thread. If none can be made, the caller does the work; without workers, too. It may wait for its
/// workers.
pub fn compute_by<R: Threads + Sync, C: Controller + Send>(
    rt: &R,
    flight: &mut Flight<C>,
    workers: u32,
)
    requires { flight.old.progress ≡ None }
    ensures cycle { (s : State) → IsAloft s flight.old → IsComputed s flight.new }
    ensures computed { is_some flight.new.outcome ≡ true }
    ensures number { flight.new.number ≡ flight.old.number }
{
    flight.start();
    let depths = flight.layers();
    for depth in 0..depths {
        update_by(rt, flight, depth, workers as usize);
    }
    flight.complete();
}

/// The controllers of this depth are updated by so many workers.
fn update_by<R: Threads + Sync, C: Controller + Send>(
    rt: &R,
    flight: &mut Flight<C>,
    depth: u32,
    workers: usize,
)
    requires { CanGather depth flight.old }
    ensures { (p : Progress) → flight.old.progress ≡ Some p → HadTurns p flight.old flight.new }
{
    flight.gather(depth);
    step_among(rt, flight.cells(depth), workers);
    flight.scatter(depth);
}
