//! Loops among described controllers.

ghost use Rattle.std.specs.Prelude.{◌≡◌, ◌<◌, ◌^◌, length, IfOk};
ghost use Rattle.cm_document.specs.Links.{first_in_loop};
ghost use Rattle.chain_order.specs.Ways.{IsFirstBack};

use crate::links::Links;
use crate::search::leads_back;
use cm_document::Description;
use fixed_num::Memory;
use std::alloc::Global;

/// The least place of a controller that precedes itself at some distance, or None where there is none.
#[tactic(auto, using(crate::proofs::WayLemmas::first_back_in_loop))]
pub fn first_loop(alloc: Global, description: &Description) -> Result<Option<u32>, Memory>
    requires few { length description.now.controllers < 2 ^ 32 }
    ensures first { IfOk result (λ found. found ≡ first_in_loop description.now.controllers) }
{
    let links = Links::resolve(alloc, description.controllers.as_slice())?;
    first_back(alloc, &links)
}

/// The least place that leads back to itself, or None where no place does.
fn first_back(alloc: Global, links: &Links) -> Result<Option<u32>, Memory>
    ensures { IfOk result (IsFirstBack links.now) }
{
    for place in 0..links.len() {
        if leads_back(alloc, links, place)? {
            return Ok(Some(place));
        }
    }
    Ok(None)
}
