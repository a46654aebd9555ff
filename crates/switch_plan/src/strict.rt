//! Switches that are done whole or not at all.

ghost use Rattle.std.specs.Prelude.{◌≡◌, ◌<◌, length, None, IsTrue, IfOk, All};
ghost use Rattle.cm_model.specs.Order.{set_of, places_of};
ghost use Rattle.cm_model.specs.Scene.{controllers_in};
ghost use Rattle.cm_model.specs.Faults.{first_of};
ghost use Rattle.cm_model.specs.Switches.{counts_for_all, counted, counted_of};
ghost use Rattle.cm_model.specs.Switches.{first_member_fault, strict_between, strict, planned};
ghost use Rattle.switch_plan.specs.View.{scene_of, IsPlace, HavePlaces, HasFlags};
ghost use Rattle.switch_plan.specs.Settings.{set_scene, IsSetting};
ghost use Rattle.switch_plan.specs.Proposals.{proposal_scene, proposed, asked_on, IsProposal};

use crate::changes::{Change, done, refused};
use crate::clear::are_clear;
use crate::faults::{Proposal, fault_of_kind};
use crate::lists::{Listed, look_through};
use crate::setting::{Setting, order};
use crate::view::{View, controllers, described};
use chain_order::PlaceSet;
use cm_document::Pick;
use cm_model::{Dropped, FAULT_KINDS, FaultKind, Member, Planned};
use fixed_num::Memory;
use std::alloc::Global;

/// The plan of a strict switch of two flat lists.
pub fn strict(
    alloc: Global,
    setting: &Setting,
    off: &[Pick],
    on: &[Pick],
) -> Result<Planned, Memory>
    requires { IsSetting setting.now }
    ensures { IfOk result (λ plan. plan
        ≡ planned (set_scene setting.now) (strict (set_scene setting.now) off.now on.now)) }
{
    let leaving = match look_through(alloc, setting, None, off)? {
        Listed::Faultless(members) => as_set(alloc, &setting.view, &members)?,
        Listed::Faulty(because) => {
            let plan = refused(alloc, because)?;
            return Ok(plan);
        }
    };
    let coming = match look_through(alloc, setting, Some(&leaving), on)? {
        Listed::Faultless(members) => as_set(alloc, &setting.view, &members)?,
        Listed::Faulty(because) => {
            let plan = refused(alloc, because)?;
            return Ok(plan);
        }
    };
    let plan = strict_between(alloc, setting, &leaving, &coming)?;
    Ok(plan)
}

/// The plan where nothing speaks against a name of the lists.
fn strict_between(
    alloc: Global,
    setting: &Setting,
    leaving: &PlaceSet,
    coming: &PlaceSet,
) -> Result<Planned, Memory>
    requires setting { IsSetting setting.now }
    requires leaving { HasFlags (set_scene setting.now) leaving.now }
    requires coming { HasFlags (set_scene setting.now) coming.now }
    ensures { IfOk result (λ plan. plan ≡ planned (set_scene setting.now)
        (strict_between (set_scene setting.now) (set_of leaving.now) (set_of coming.now))) }
{
    let set = setting
        .active
        .without(alloc, leaving)?
        .either(alloc, coming)?;
    if let Some(because) = member_fault(alloc, setting, &set, coming)? {
        let plan = refused(alloc, because)?;
        return Ok(plan);
    }
    let again = leaving.both(alloc, coming)?;
    let change = Change {
        setting: *setting,
        set: &set,
        again: &again,
    };
    let plan = done(alloc, &change, Vec::new(alloc))?;
    Ok(plan)
}

/// The fault that counts and comes first, of the members of a set of which these are to be activated. Where the
/// relations show at once that there is none, no order is worked out.
fn member_fault(
    alloc: Global,
    setting: &Setting,
    set: &PlaceSet,
    on: &PlaceSet,
) -> Result<Option<Dropped>, Memory>
    requires setting { IsSetting setting.now }
    requires length { HasFlags (set_scene setting.now) set.now }
    ensures { IfOk result (λ found. found
        ≡ first_member_fault (set_scene setting.now) (set_of set.now) (set_of on.now)) }
{
    if is_seen_clear(setting, set, on) {
        return Ok(None);
    }
    let members = order(alloc, setting, set)?;
    let proposal = Proposal {
        alloc,
        view: setting.view,
        set,
        on,
        order: &members,
    };
    first_member_fault(&proposal)
}

/// Whether the relations are known and show at once that no fault counts against a set.
fn is_seen_clear(setting: &Setting, set: &PlaceSet, on: &PlaceSet) -> bool
    requires { IsSetting setting.now }
    ensures { IsTrue result → first_member_fault (set_scene setting.now) (set_of set.now) (set_of on.now) ≡ None }
{
    match setting.relations {
        Some(relations) => are_clear(&setting.view, relations, set, on),
        None => false,
    }
}

/// These controllers as a set.
fn as_set(alloc: Global, view: &View, members: &[Member]) -> Result<PlaceSet, Memory>
    requires { HavePlaces (scene_of view.now) members.now }
    ensures length { IfOk result (λ set. HasFlags (scene_of view.now) set) }
    ensures set { IfOk result (λ set. set_of set ≡ places_of members.now) }
{
    PlaceSet::of(alloc, controllers(view).len(), members)
}

/// The fault that counts and comes first by kind, and then by order.
fn first_member_fault(proposal: &Proposal) -> Result<Option<Dropped>, Memory>
    requires { IsProposal proposal.now }
    ensures { IfOk result (λ found. found
        ≡ first_member_fault (proposal_scene proposal.now) (proposed proposal.now) (asked_on proposal.now)) }
{
    for kind in FAULT_KINDS.iter() {
        if let Some(because) = first_of_kind(proposal, *kind)? {
            return Ok(Some(because));
        }
    }
    Ok(None)
}

/// The first fault of one kind that counts, by order.
fn first_of_kind(proposal: &Proposal, kind: FaultKind) -> Result<Option<Dropped>, Memory>
    requires { IsProposal proposal.now }
    ensures { IfOk result (λ found. found ≡ first_of
        (counted_of (proposal_scene proposal.now) (proposed proposal.now) (asked_on proposal.now) kind)
        proposal.now.order.now) }
{
    for member in proposal.order {
        if let Some(because) = counted_of(proposal, kind, member)? {
            return Ok(Some(because));
        }
    }
    Ok(None)
}

/// The fault of one kind that counts of a member, with its name.
fn counted_of(
    proposal: &Proposal,
    kind: FaultKind,
    member: &Member,
) -> Result<Option<Dropped>, Memory>
    requires proposal { IsProposal proposal.now }
    requires within { IsPlace (proposal_scene proposal.now) member.now.place }
    ensures { IfOk result (λ found. found
        ≡ counted_of (proposal_scene proposal.now) (proposed proposal.now) (asked_on proposal.now) kind member.now) }
{
    if !counts_for_all(kind) && !proposal.on.has(member.place) {
        return Ok(None);
    }
    let Some(cause) = fault_of_kind(proposal, kind, member.place)? else {
        return Ok(None);
    };
    let name = described(&proposal.view, member.place).name.clone()?;
    Ok(Some(Dropped { name, cause }))
}

/// Whether the kind counts for each member, also for those that were active.
fn counts_for_all(kind: FaultKind) -> bool
    ensures { result ≡ counts_for_all kind }
{
    match kind {
        FaultKind::Follower => true,
        FaultKind::Availability | FaultKind::Conflict | FaultKind::Mode | FaultKind::Readiness =>
            false,
    }
}
