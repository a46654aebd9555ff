//! No controller precedes itself at any distance.

ghost use Rattle.std.specs.Prelude.{◌<◌, ◌^◌, length};
ghost use Rattle.sequence.specs.Answers.{Answers};
ghost use Rattle.cm_document.specs.Valid.{loop_free};

use chain_order::first_loop;
use cm_document::{CheckFault, Description};
use std::alloc::Global;

/// No controller precedes itself at some distance: else ChainLoop of the first that does.
pub fn loop_free(alloc: Global, description: &Description) -> Result<(), CheckFault>
    requires { length description.now.controllers < 2 ^ 32 }
    ensures { Answers CheckFault.Memory (loop_free description.now.controllers) result }
{
    let Ok(found) = first_loop(alloc, description) else {
        return Err(CheckFault::Memory);
    };
    let Some(place) = found else {
        return Ok(());
    };
    let first = &description.controllers.as_slice()[place as usize];
    Err(CheckFault::ChainLoop(first.name.clone()?))
}
