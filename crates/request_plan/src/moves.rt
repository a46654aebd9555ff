//! Why a component is not brought to a lifecycle state.

ghost use Rattle.std.specs.Prelude.{◌≡◌, ◌==◌, ◌<◌, find, length, slice_get, Some, All, IfOk, IfSome};
ghost use Rattle.std.specs.List.{list_any};
ghost use Rattle.cm_model.specs.Components.{has_move, is_available};
ghost use Rattle.chain_order.specs.Links.{linked};
ghost use Rattle.switch_plan.specs.Relations.{relations_of};
ghost use Rattle.request_plan.specs.Moves.{IsMoveFault};

use cm_document::{Checked, CtlDesc, Life};
use cm_model::Cause;
use fixed_num::Memory;
use switch_plan::Relations;

/// Why the component at a place, which is in this lifecycle state, is not brought to the target, where something speaks
/// against it: there is no such move; or an active controller uses it, and its interfaces would not be available. The
/// places of the active controllers stand in the order of their updates.
#[tactic(auto, using(crate::proofs::MoveLemmas::no_such_move, crate::proofs::MoveLemmas::stays_available))]
pub(crate) fn move_fault(
    checked: &Checked,
    relations: &Relations,
    component: usize,
    life: Life,
    target: Life,
    order: &[u32],
) -> Result<Option<Cause>, Memory>
    requires relations { relations.now ≡ relations_of checked.now }
    requires within { All (λ place. place < length checked.now.controllers) order.now }
    ensures { IfOk result (IsMoveFault checked.now component life target order.now) }
{
    if !has_move(life, target) {
        return Ok(Some(Cause::NoSuchMove));
    }
    if is_available(target) {
        return Ok(None);
    }
    match user_of(relations, component, order) {
        Some(place) => {
            let user = described_at(checked, place as usize);
            Ok(Some(Cause::InUse(user.name.clone()?)))
        }
        None => Ok(None),
    }
}

/// The controller that is described at this place.
#[tactic(auto, using(std::proofs::lemmas::Option::slice_get_read))]
fn described_at(checked: &Checked, place: usize) -> &CtlDesc
    requires { place < length checked.now.controllers }
    ensures same { slice_get checked.now.controllers place ≡ Some result.now }
{
    &checked.description().controllers.as_slice()[place]
}

/// The first of these controllers that uses the component.
fn user_of(relations: &Relations, component: usize, order: &[u32]) -> Option<u32>
    requires { All (λ place. place < length relations.now.components) order.now }
    ensures user { result
        ≡ find (λ place. list_any (λ used. used == component) (linked relations.now.components place)) order.now }
    ensures within { IfSome result (λ place. place < length relations.now.components) }
{
    for place in order {
        if uses(relations, *place, component) {
            return Some(*place);
        }
    }
    None
}

/// Whether a controller uses the component.
fn uses(relations: &Relations, place: u32, component: usize) -> bool
    requires { place < length relations.now.components }
    ensures { result ≡ list_any (λ used. used == component) (linked relations.now.components place) }
{
    relations
        .components(place)
        .iter()
        .any(|used| *used == component)
}

/// Whether a component comes from one lifecycle state to another: from finalized none does but to finalized.
fn has_move(life: Life, target: Life) -> bool
    ensures { result ≡ has_move life target }
{
    life != Life::Finalized || target == Life::Finalized
}

/// Whether the interfaces of a component in this state are available.
fn is_available(life: Life) -> bool
    ensures { result ≡ is_available life }
{
    matches!(life, Life::Inactive | Life::Active)
}
