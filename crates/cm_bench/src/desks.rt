//! A desk on which nothing is loaded.

ghost use Rattle.std.specs.Prelude.{◌≡◌, [], IfOk};

use crate::documents::read;
use crate::working::Working;
use cm_desk::Desk;
use cm_document::{Checked, Document};
use cm_stock::Stock;
use ctl_mock::Mock;
use std::alloc::Global;

/// A document of no cycles, with neither a component nor a controller.
const EMPTY: &str = "version = 1\nupdate_rate = 100\ncycles = 0\n--- script ---\n";

fn checked(alloc: Global) -> anyhow::Result<Checked> {
    let Document {
        description,
        script,
    } = read(alloc, EMPTY)?;
    drop(script);
    Ok(description)
}

/// A desk of this description at boot, of so many sessions. Its controllers are of the kind that works in other
/// measurements, so that no second desk is built.
pub(crate) fn booted(alloc: Global, sessions: u32) -> anyhow::Result<Desk<Working<Mock>>>
    ensures empty { IfOk result (λ desk. desk.made ≡ []) }
    ensures sessions { IfOk result (λ desk. desk.opening.sessions ≡ sessions) }
{
    let checked = checked(alloc)?;
    let stock = Stock::make(Vec::new(alloc));
    Ok(Desk::boot(alloc, checked, stock, sessions)?)
}
