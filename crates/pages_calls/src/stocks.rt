//! Stocks as the program has them: so many of each kind.

ghost use Rattle.std.specs.Prelude.{◌<◌, ◌^◌, length, IfOk};
ghost use Rattle.std.specs.List.{All};
ghost use Rattle.cm_model.specs.Controllers.{IsBlank};

use ctl_any::AnyKind;
use ctl_trait::Controller;
use std::alloc::Global;
use std::test::Fail;

/// The most controllers of a stock here.
const MOST_CONTROLLERS: usize = 1_000;

/// So many blanks of each kind. It fails if the stock becomes larger than the most here.
pub fn few_blanks(alloc: Global, each: u32) -> Result<Vec<AnyKind>, Fail>
    ensures blank { IfOk result (λ blanks. All (λ b. IsBlank (⟦<AnyKind as Controller>⟧.meaning b)) blanks.items) }
    ensures few { IfOk result (λ blanks. length blanks.items < 2 ^ 32) }
{
    let blanks = ctl_any::blanks(alloc, each)?;
    if blanks.len() > MOST_CONTROLLERS {
        return Err(Fail::new("a stock too large"));
    }
    Ok(blanks)
}
