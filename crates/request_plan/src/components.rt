//! Requests that a component be brought to a lifecycle state, which are decided.

ghost use Rattle.std.specs.Prelude.{◌≡◌, ◌<◌, length, map, position, Some, IfOk, IfSome};
ghost use Rattle.iface_names.specs.Names.{same_name};
ghost use Rattle.cm_model.specs.Boundary.{component_place, move_fault};
ghost use Rattle.cm_model.specs.State.{State};
ghost use Rattle.cm_model.specs.declared.request.Request.TheVariants as asks;
ghost use Rattle.request_plan.specs.Calls.Conclude.{CanDecide, Concludes};
ghost use Rattle.request_plan.specs.Situations.{IsSeenOf};

use crate::acts::{Act, Conclusion};
use crate::moves::move_fault;
use crate::situation::{Situation, order};
use cm_document::{Checked, CompDesc, Life};
use cm_model::{Cause, Member, Outcome};
use fixed_num::Memory;
use iface_names::Name;
use sequence::{Shared, SharedList};
use std::alloc::Global;
use switch_plan::Relations;

/// What is concluded of a request that a component be brought to a lifecycle state.
pub(crate) fn conclude_move(
    alloc: Global,
    checked: &Checked,
    relations: &Relations,
    situation: &Situation,
    component: &Name,
    target: Life,
) -> Result<Conclusion, Memory>
    requires { CanDecide checked.now relations.now situation.now }
    ensures { IfOk result (Concludes checked.now situation.now (asks.Hardware component.now target)) }
{
    match component_place(checked, component) {
        Some(place) => {
            let conclusion = conclude_at(
                alloc, checked, relations, situation, component, place, target,
            )?;
            Ok(conclusion)
        }
        None => {
            let conclusion = refused(alloc, component, Cause::Unknown)?;
            Ok(conclusion)
        }
    }
}

/// What is concluded of a request that a component be brought to a lifecycle state, which has this place.
fn conclude_at(
    alloc: Global,
    checked: &Checked,
    relations: &Relations,
    situation: &Situation,
    component: &Name,
    place: u32,
    target: Life,
) -> Result<Conclusion, Memory>
    requires can { CanDecide checked.now relations.now situation.now }
    requires at { component_place checked.now component.now ≡ Some place }
    requires within { place < length situation.now.lives.items }
    ensures { IfOk result (Concludes checked.now situation.now (asks.Hardware component.now target)) }
{
    match fault_at(alloc, checked, relations, situation, place, target)? {
        Some(cause) => {
            let conclusion = refused(alloc, component, cause)?;
            Ok(conclusion)
        }
        None => Ok(Conclusion {
            outcome: Outcome::Done {
                dropped: SharedList::none(),
            },
            act: Act::Move {
                component: place,
                target,
            },
        }),
    }
}

/// What speaks against the move of the component at a place to a lifecycle state.
fn fault_at(
    alloc: Global,
    checked: &Checked,
    relations: &Relations,
    situation: &Situation,
    place: u32,
    target: Life,
) -> Result<Option<Cause>, Memory>
    requires can { CanDecide checked.now relations.now situation.now }
    requires within { place < length situation.now.lives.items }
    ensures { IfOk result (λ fault. (s : State) → IsSeenOf s checked.now situation.now
        → fault ≡ move_fault s place target) }
{
    let place = place as usize;
    let life = situation.lives[place];
    let members = order(alloc, checked, relations, &situation.loaded)?;
    let places = places_of(alloc, &members)?;
    let fault = move_fault(checked, relations, place, life, target, &places)?;
    Ok(fault)
}

/// The request is refused because of this name.
fn refused(alloc: Global, name: &Name, cause: Cause) -> Result<Conclusion, Memory>
    ensures outcome { IfOk result (λ c. c.outcome ≡ Outcome.Refused name.now cause) }
    ensures act { IfOk result (λ c. c.act ≡ Act.Nothing) }
{
    let name = name.clone()?;
    let cause = Shared::new(alloc, cause)?;
    Ok(Conclusion {
        outcome: Outcome::Refused(name, cause),
        act: Act::Nothing,
    })
}

/// The place of the component of this name.
fn component_place(checked: &Checked, name: &Name) -> Option<u32>
    ensures place { result ≡ component_place checked.now name.now }
    ensures within { IfSome result (λ place. place < length checked.now.components) }
{
    let place = position(checked.description().components.as_slice(), name)?;
    Some(place as u32)
}

/// Where the component of this name stands.
fn position(components: &[CompDesc], name: &Name) -> Option<usize>
    ensures place { result ≡ position (λ component. same_name component.name name.now) components.now }
    ensures within { IfSome result (λ place. place < length components.now) }
{
    components
        .iter()
        .position(|component| component.name == *name)
}

/// The places of these.
fn places_of(alloc: Global, members: &[Member]) -> Result<Vec<u32>, Memory>
    ensures { IfOk result (λ places. places.items ≡ map (λ m. m.place) members.now) }
{
    let mut places = Vec::with_capacity(alloc, members.len())?;
    for member in members {
        places.push(member.place)?;
    }
    Ok(places)
}
