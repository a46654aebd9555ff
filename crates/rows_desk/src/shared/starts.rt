//! A desk is shared at boot, and its loop has not begun yet.

ghost use Rattle.std.specs.Prelude.{◌≡◌, ◌<◌, false, None, IfOk};
ghost use Rattle.std.specs.List.{All};
ghost use Rattle.turn_lock.specs.declared.TheConstants.{MOST_SEATS};
ghost use Rattle.shared_desk.specs.Passes.{IsSessionPass};
ghost use Rattle.rows_desk.specs.Shared.{IsLoopOf};

use crate::shared::looping::Looping;
use crate::shared::stand::LoopStand;
use cm_desk::Desk;
use cm_document::Checked;
use cm_stock::Stock;
use ctl_trait::Controller;
use fixed_num::Memory;
use shared_desk::{LoopPass, Pass, SharedDesk};
use std::alloc::Global;

/// A desk that is shared at boot, its loop, and the passes of so many sessions, in order.
#[tactic(auto, using(crate::proofs::SessionLemmas::session_count))]
pub(crate) fn share_at_boot<C: Controller>(
    alloc: Global,
    checked: Checked,
    stock: Stock<C>,
    sessions: u32,
) -> Result<(SharedDesk<C>, Looping<C>, Vec<Pass<C>>), Memory>
    requires { sessions < MOST_SEATS }
    ensures count { IfOk result (λ r. r.0.at_first.value.opening.sessions ≡ sessions) }
    ensures looping { IfOk result (λ r. IsLoopOf r.0.lock r.0.at_first.value r.1.pass.pass r.1.stand r.1.flight) }
    ensures passes { IfOk result (λ r. All (IsSessionPass r.0.lock r.0.at_first.value) r.2.items) }
{
    let left = checked.description().cycles;
    let desk = Desk::boot(alloc, checked, stock, sessions)?;
    let (desk, pass, passes) = SharedDesk::share(alloc, desk)?;
    Ok((desk, before_the_first(pass, left), passes))
}

/// The loop has not begun yet.
fn before_the_first<C: Controller>(pass: LoopPass<C>, left: u64) -> Looping<C>
    ensures pass { result.pass.pass ≡ pass.pass }
    ensures stand { result.stand ≡ record { left = left; aloft = false; closed = false } }
    ensures flight { result.flight ≡ None }
{
    Looping {
        pass,
        stand: LoopStand {
            left,
            aloft: false,
            closed: false,
        },
        flight: None,
    }
}
