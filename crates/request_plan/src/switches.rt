//! Switches that are decided.

ghost use Rattle.std.specs.Prelude.{◌≡◌, ◌<◌, length, map, filter, IfOk, All};
ghost use Rattle.cm_model.specs.Components.{is_listed};
ghost use Rattle.cm_model.specs.Order.{set_of};
ghost use Rattle.cm_model.specs.Scene.{is_chained_in, member};
ghost use Rattle.cm_model.specs.declared.request.Request.TheVariants as asks;
ghost use Rattle.chain_order.specs.Links.{leaders_of, each_below};
ghost use Rattle.request_plan.specs.Calls.Conclude.{CanDecide, CanSwitch, Concludes};
ghost use Rattle.request_plan.specs.Situations.{of_serials, running};
ghost use Rattle.request_plan.specs.Acts.{is_carried_out, HaveFlags, AreSetsOf, IsPlannedAct};

use crate::acts::{Act, Conclusion, Switched};
use crate::situation::{Situation, as_set, member, running};
use chain_order::{Links, PlaceSet, is_chained};
use cm_document::{Checked, SwitchRequest};
use cm_model::{Member, Outcome, Planned, Seen};
use fixed_num::Memory;
use std::alloc::Global;
use switch_plan::{Relations, plan_with};

/// What is concluded of a switch request.
pub(crate) fn conclude_switch(
    alloc: Global,
    checked: &Checked,
    relations: &Relations,
    situation: &Situation,
    request: &SwitchRequest,
) -> Result<Conclusion, Memory>
    requires { CanDecide checked.now relations.now situation.now }
    ensures { IfOk result (Concludes checked.now situation.now (asks.Switch request.now)) }
{
    let plan = plan_with(alloc, &situation.view(checked), relations, request)?;
    let act = act_of(alloc, checked, relations, &situation.loaded, &plan)?;
    Ok(Conclusion {
        outcome: plan.outcome,
        act,
    })
}

/// What is done for a plan.
fn act_of(
    alloc: Global,
    checked: &Checked,
    relations: &Relations,
    loaded: &[Seen],
    plan: &Planned,
) -> Result<Act, Memory>
    requires { CanSwitch checked.now relations.now loaded.now }
    ensures { IfOk result (IsPlannedAct checked.now loaded.now plan.now) }
{
    if !is_carried_out(&plan.outcome) {
        return Ok(Act::Nothing);
    }
    let (off, on) = (plan.off.as_slice(), plan.on.as_slice());
    let switched = switched(alloc, checked, relations, loaded, off, on)?;
    Ok(Act::Switch(switched))
}

/// Whether a request was carried out.
fn is_carried_out(outcome: &Outcome) -> bool
    ensures { result ≡ is_carried_out outcome.now }
{
    matches!(outcome, Outcome::Done { .. })
}

/// The sets of a switch that stops and starts the controllers of these serials.
fn switched(
    alloc: Global,
    checked: &Checked,
    relations: &Relations,
    loaded: &[Seen],
    off: &[u32],
    on: &[u32],
) -> Result<Switched, Memory>
    requires { CanSwitch checked.now relations.now loaded.now }
    ensures flags { IfOk result (λ c. HaveFlags (length checked.now.controllers) c) }
    ensures sets { IfOk result (λ c. AreSetsOf loaded.now off.now on.now c) }
    ensures chained { IfOk result (λ c. set_of c.chained
        ≡ is_chained_in checked.now.controllers (set_of c.set)) }
{
    let stopped = set_of_serials(alloc, checked, loaded, off)?;
    let started = set_of_serials(alloc, checked, loaded, on)?;
    let before = running_set(alloc, checked, loaded)?;
    let set = before.without(alloc, &stopped)?.either(alloc, &started)?;
    let chained = chained_in(alloc, checked, relations.leaders(), &set)?;
    Ok(Switched {
        set,
        stopped,
        started,
        chained,
    })
}

/// The controllers that are loaded under one of these serials, as a set.
fn set_of_serials(
    alloc: Global,
    checked: &Checked,
    loaded: &[Seen],
    serials: &[u32],
) -> Result<PlaceSet, Memory>
    requires { All (λ l. l.place < length checked.now.controllers) loaded.now }
    ensures length { IfOk result (λ set. length set ≡ length checked.now.controllers) }
    ensures set { IfOk result (λ set. set_of set ≡ of_serials loaded.now serials.now) }
{
    let members = of_serials(alloc, loaded, serials)?;
    let set = as_set(alloc, checked, &members)?;
    Ok(set)
}

/// The active controllers, as a set.
fn running_set(alloc: Global, checked: &Checked, loaded: &[Seen]) -> Result<PlaceSet, Memory>
    requires { All (λ l. l.place < length checked.now.controllers) loaded.now }
    ensures length { IfOk result (λ set. length set ≡ length checked.now.controllers) }
    ensures set { IfOk result (λ set. set_of set ≡ running loaded.now) }
{
    let members = running(alloc, loaded)?;
    let set = as_set(alloc, checked, &members)?;
    Ok(set)
}

/// The controllers that are loaded under one of these serials.
fn of_serials(alloc: Global, loaded: &[Seen], serials: &[u32]) -> Result<Vec<Member>, Memory>
    ensures { IfOk result (λ list. list.items
        ≡ map member (filter (λ l. is_listed serials.now l.serial) loaded.now)) }
{
    let mut list = Vec::with_capacity(alloc, serials.len())?;
    for seen in loaded {
        if is_listed(serials, seen.serial) {
            list.push(member(seen))?;
        }
    }
    Ok(list)
}

/// Whether a serial is one of these. All are compared, because without a way out of the loop several are at once.
fn is_listed(serials: &[u32], serial: u32) -> bool
    ensures { result ≡ is_listed serials.now serial }
{
    let mut listed = false;
    for other in serials {
        listed |= *other == serial;
    }
    listed
}

/// The controllers that are chained in a set, where each is linked to those that precede it.
fn chained_in(
    alloc: Global,
    checked: &Checked,
    leaders: &Links,
    set: &PlaceSet,
) -> Result<PlaceSet, Memory>
    requires { leaders.now ≡ leaders_of checked.now.controllers }
    ensures { IfOk result (λ chained. chained
        ≡ each_below (is_chained_in checked.now.controllers (set_of set.now)) (length leaders.now)) }
{
    let mut flags = Vec::with_capacity(alloc, leaders.len() as usize)?;
    for place in 0..leaders.len() {
        flags.push(is_chained(leaders, set, place))?;
    }
    Ok(PlaceSet::from_flags(flags))
}
