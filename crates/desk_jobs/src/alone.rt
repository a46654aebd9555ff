//! A live run without sessions: the loop alone, over a desk that nobody shares.

ghost use Rattle.std.specs.Prelude.{IfOk};
ghost use Rattle.desk_jobs.specs.Live.{HasLoopedAlone};

use cm_desk::Desk;
use cm_document::Checked;
use cm_stock::Stock;
use ctl_trait::Controller;
use desk_turns::DeskLoop;
use fixed_num::Memory;
use live_run::live_alone;
use outside_io::{Gate, Pace};
use std::alloc::Global;

/// The desk of a live run without sessions over a checked description, once the loop has come to its end. It takes no
/// turn, because nobody else calls, and computes each cycle on its own thread.
pub fn made_alone<P: Pace, G: Gate, C: Controller>(
    alloc: Global,
    checked: Checked,
    stock: Stock<C>,
    pace: &mut P,
    gate: &G,
) -> Result<Desk<C>, Memory>
    ensures { IfOk result (HasLoopedAlone checked stock) }
{
    let cycles = checked.description().cycles;
    let desk = Desk::boot(alloc, checked, stock, 0)?;
    let mut looping = DeskLoop::over(alloc, desk);
    live_alone(&mut looping, cycles, pace, gate)?;
    let desk = looping.into_desk();
    desk.is_right();
    Ok(desk)
}
