//! A controller as it is described.

ghost use Rattle.std.specs.Prelude.{◌≡◌, ◌<◌, Some, length, slice_get};
ghost use Rattle.cm_document.specs.Valid.{IsValid};

use cm_document::{Checked, CtlDesc};

/// The controller that is described at this place.
#[tactic(auto, using(std::proofs::lemmas::Option::slice_get_read))]
pub fn described_at(checked: &Checked, place: usize) -> &CtlDesc
    requires { place < length checked.now.controllers }
    ensures same { slice_get checked.now.controllers place ≡ Some result.now }
    ensures valid { IsValid checked.now }
{
    &checked.description().controllers.as_slice()[place]
}
