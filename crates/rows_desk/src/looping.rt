//! When the loop can go on over a desk, and a cycle that is made through any console of the loop.

ghost use Rattle.std.specs.Prelude.{◌≡◌, ◌<◌, true, OnOk};
ghost use Rattle.cm_model.specs.Ports.{CanBegin, CanClose};
ghost use Rattle.desk_turns.specs.Ports.{loop_console};
ghost use Rattle.rows_desk.specs.Loops.{MakesCycle};

use cm_model::LoopPort;
use ctl_trait::Controller;
use desk_turns::DeskLoop;
use fixed_num::Memory;

/// Whether a cycle can begin.
#[tactic(auto, using(cm_model::proofs::HistoryLemmas::description_stays))]
pub(crate) fn can_begin<C: Controller>(looping: &DeskLoop<C>) -> bool
    ensures { result ≡ true → CanBegin (loop_console looping.now.desk) }
{
    let desk = looping.desk();
    !desk.aloft() && !desk.closed() && desk.ended() < desk.checked().description().cycles
}

/// Whether the loop can close.
pub(crate) fn can_close<C: Controller>(looping: &DeskLoop<C>) -> bool
    ensures { result ≡ true → CanClose (loop_console looping.now.desk) }
{
    let desk = looping.desk();
    !desk.aloft() && !desk.closed()
}

/// Makes the next cycle, through any console of the loop.
pub(crate) fn make_cycle<L: LoopPort>(port: &mut L) -> Result<(), Memory>
    requires { CanBegin (L.tells port.old) }
    ensures made { OnOk result (MakesCycle (L.tells port.old) (L.tells port.new)) }
    ensures still { L.footing port.new ≡ L.footing port.old }
{
    let mut flight = port.begin()?;
    port.compute(&mut flight);
    port.land(flight);
    Ok(())
}

/// A value that may cross threads.
fn may_cross<T: Send + Drop>(value: T) -> T
    ensures { result ≡ value }
{
    value
}

/// The console of the loop over a desk may cross threads where the desk's boxes may.
pub(crate) fn across<C: Controller + Send>(looping: DeskLoop<C>) -> DeskLoop<C>
    ensures { result ≡ looping }
{
    may_cross(looping)
}
