//! Switches of which is done what can be done.

ghost use Rattle.std.specs.Prelude.{◌≡◌, ◌<◌, ◌++◌, ◌&&◌, ◌||◌, length, find, filter_map};
ghost use Rattle.std.specs.Prelude.{option_map, None, IsTrue, IfOk, OnOk, All};
ghost use Rattle.cm_document.specs.Links.{refs_of};
ghost use Rattle.cm_model.specs.Faults.{fault};
ghost use Rattle.cm_model.specs.Order.{Places, set_of};
ghost use Rattle.cm_model.specs.Scene.{controllers_in, claims_at, is_claimed_by};
ghost use Rattle.cm_model.specs.Switches.{planned};
ghost use Rattle.cm_model.specs.BestEffort.{Joined, stays, stays_more, kept_drop, by_height};
ghost use Rattle.cm_model.specs.BestEffort.{join, joining, best_leaving, best_asked, best};
ghost use Rattle.chain_order.specs.Links.{each_below};
ghost use Rattle.switch_plan.specs.Calls.Members.{CanJoin};
ghost use Rattle.switch_plan.specs.View.{scene_of, IsPlace, HavePlaces, HasFlags};
ghost use Rattle.switch_plan.specs.Settings.{set_scene, IsSetting};

use crate::changes::{Change, done};
use crate::clear::may_join;
use crate::faults::{Proposal, fault};
use crate::interfaces::claims;
use crate::lists::{drop_for, sifted};
use crate::setting::{Setting, order};
use crate::view::{View, controllers, described};
use chain_order::{PlaceSet, by_rank, heights, is_chained};
use cm_document::{CtlDesc, Pick};
use cm_model::{Cause, Dropped, Member, Planned};
use fixed_num::Memory;
use iface_names::IfaceName;
use sequence::Boxed;
use std::alloc::Global;

/// The plan of a switch of best effort of two flat lists.
pub fn best(alloc: Global, setting: &Setting, off: &[Pick], on: &[Pick]) -> Result<Planned, Memory>
    requires { IsSetting setting.now }
    ensures { IfOk result (λ plan. plan
        ≡ planned (set_scene setting.now) (best (set_scene setting.now) off.now on.now)) }
{
    let mut dropped = Vec::new(alloc);
    let asked = sifted(alloc, setting, None, off, &mut dropped)?;
    let plan = best_asked(alloc, setting, &asked, dropped, on)?;
    Ok(plan)
}

/// The plan, once it is known which of those to deactivate have no fault of the list.
fn best_asked(
    alloc: Global,
    setting: &Setting,
    asked: &[Member],
    dropped: Vec<Dropped>,
    on: &[Pick],
) -> Result<Planned, Memory>
    requires setting { IsSetting setting.now }
    requires within { HavePlaces (set_scene setting.now) asked.now }
    ensures { IfOk result (λ plan. plan
        ≡ planned (set_scene setting.now) (best_asked (set_scene setting.now) asked.now dropped.items on.now)) }
{
    let mut dropped = dropped;
    let leaving = PlaceSet::of(alloc, controllers(&setting.view).len(), asked)?;
    let staying = stays(alloc, setting, &leaving)?;
    drop_kept(alloc, setting, &staying, asked, &mut dropped)?;
    let leaving = leaving.without(alloc, &staying)?;
    let plan = best_leaving(alloc, setting, &leaving, dropped, on)?;
    Ok(plan)
}

/// The plan, once it is known which controllers leave.
fn best_leaving(
    alloc: Global,
    setting: &Setting,
    leaving: &PlaceSet,
    dropped: Vec<Dropped>,
    on: &[Pick],
) -> Result<Planned, Memory>
    requires setting { IsSetting setting.now }
    requires leaving { HasFlags (set_scene setting.now) leaving.now }
    ensures { IfOk result (λ plan. plan ≡ planned (set_scene setting.now)
        (best_leaving (set_scene setting.now) (set_of leaving.now) dropped.items on.now)) }
{
    let mut dropped = dropped;
    let coming = sifted(alloc, setting, Some(leaving), on, &mut dropped)?;
    let set = joined(alloc, setting, leaving, &coming, &mut dropped)?;
    let again = leaving.both(alloc, &set)?;
    let change = Change {
        setting: *setting,
        set: &set,
        again: &again,
    };
    let plan = done(alloc, &change, dropped)?;
    Ok(plan)
}

/// The controllers that stay, where these are asked to leave.
fn stays(alloc: Global, setting: &Setting, leaving: &PlaceSet) -> Result<PlaceSet, Memory>
    requires { IsSetting setting.now }
    ensures length { IfOk result (λ set. HasFlags (set_scene setting.now) set) }
    ensures set { IfOk result (λ set. set_of set ≡ stays (set_scene setting.now) (set_of leaving.now)) }
{
    let mut staying = setting.active.without(alloc, leaving)?;
    for _round in 0..controllers(&setting.view).len() {
        let more = stays_besides(alloc, setting, &staying)?;
        if more.flags() == staying.flags() {
            return Ok(staying);
        }
        staying = more;
    }
    Ok(staying)
}

/// Those that stay, and each active one that one of them precedes.
fn stays_besides(alloc: Global, setting: &Setting, staying: &PlaceSet) -> Result<PlaceSet, Memory>
    requires { IsSetting setting.now }
    ensures { IfOk result (λ set. set
        ≡ each_below (stays_more (set_scene setting.now) (set_of staying.now))
        (length (controllers_in (set_scene setting.now)))) }
{
    let mut flags = Vec::with_capacity(alloc, setting.leaders.len() as usize)?;
    for place in 0..setting.leaders.len() {
        flags.push(stays_more(setting, staying, place))?;
    }
    Ok(PlaceSet::from_flags(flags))
}

/// Whether a controller stays, or is active and one that stays precedes it.
fn stays_more(setting: &Setting, staying: &PlaceSet, place: u32) -> bool
    requires setting { IsSetting setting.now }
    requires within { IsPlace (set_scene setting.now) place }
    ensures { result ≡ stays_more (set_scene setting.now) (set_of staying.now) place }
{
    stays_or_chained(
        staying.has(place),
        setting.active.has(place),
        is_chained(setting.leaders, staying, place),
    )
}

/// Whether it stays, or is active and chained by one that does.
fn stays_or_chained(staying: bool, active: bool, chained: bool) -> bool
    ensures { result ≡ (staying || (active && chained)) }
{
    staying || (active && chained)
}

/// Drops each that was asked to leave and stays.
fn drop_kept(
    alloc: Global,
    setting: &Setting,
    staying: &PlaceSet,
    asked: &[Member],
    dropped: &mut Vec<Dropped>,
) -> Result<(), Memory>
    requires setting { IsSetting setting.now }
    requires within { HavePlaces (set_scene setting.now) asked.now }
    ensures { OnOk result (dropped.new.items
        ≡ dropped.old.items ++ filter_map (kept_drop (set_scene setting.now) (set_of staying.now)) asked.now) }
{
    for member in asked {
        if let Some(kept) = kept_drop(alloc, setting, staying, member)? {
            dropped.push(kept)?;
        }
    }
    Ok(())
}

/// A controller that was asked to leave and stays, with the reference that would be missing.
fn kept_drop(
    alloc: Global,
    setting: &Setting,
    staying: &PlaceSet,
    member: &Member,
) -> Result<Option<Dropped>, Memory>
    requires setting { IsSetting setting.now }
    requires within { IsPlace (set_scene setting.now) member.now.place }
    ensures { IfOk result (λ kept. kept ≡ kept_drop (set_scene setting.now) (set_of staying.now) member.now) }
{
    if !staying.has(member.place) {
        return Ok(None);
    }
    let controller = described(&setting.view, member.place);
    let Some(reference) = needed_reference(&setting.view, staying, controller)? else {
        return Ok(None);
    };
    Ok(Some(Dropped {
        name: controller.name.clone()?,
        cause: Cause::MissingFollower(Boxed::new(alloc, reference)?),
    }))
}

/// The first reference of a controller that one claims which stays.
fn needed_reference(
    view: &View,
    staying: &PlaceSet,
    controller: &CtlDesc,
) -> Result<Option<IfaceName>, Memory>
    ensures { IfOk result (λ found. found
        ≡ find (is_claimed_by (controllers_in (scene_of view.now)) (set_of staying.now)) (refs_of controller.now)) }
{
    for own in controller.exported_for() {
        let reference = controller.reference_for(own)?;
        if is_claimed(controllers(view), staying, &reference) {
            return Ok(Some(reference));
        }
    }
    Ok(None)
}

/// Whether a member of a set claims an interface.
fn is_claimed(controllers: &[CtlDesc], set: &PlaceSet, interface: &IfaceName) -> bool
    ensures { result ≡ is_claimed_by controllers.now (set_of set.now) interface.now }
{
    for place in 0..controllers.len() {
        if is_claimed_at(controllers, set, place, interface) {
            return true;
        }
    }
    false
}

/// Whether the controller at a place is a member and claims an interface.
fn is_claimed_at(
    controllers: &[CtlDesc],
    set: &PlaceSet,
    place: usize,
    interface: &IfaceName,
) -> bool
    requires { place < length controllers.now }
    ensures { result ≡ (set_of set.now place && claims_at controllers.now place interface.now) }
{
    set.holds(place) && claims(&controllers[place], interface)
}

/// The controllers that are active once these have joined one by one; those that cannot are dropped.
fn joined(
    alloc: Global,
    setting: &Setting,
    leaving: &PlaceSet,
    coming: &[Member],
    dropped: &mut Vec<Dropped>,
) -> Result<PlaceSet, Memory>
    requires setting { IsSetting setting.now }
    requires within { HavePlaces (set_scene setting.now) coming.now }
    ensures length { IfOk result (λ set. HasFlags (set_scene setting.now) set) }
    ensures joined { IfOk result (λ set. record { set = set_of set; dropped = dropped.new.items }
        ≡ joining (set_scene setting.now) (set_of leaving.now) dropped.old.items coming.now) }
{
    let on = PlaceSet::of(alloc, controllers(&setting.view).len(), coming)?;
    let ordered = by_height(alloc, setting, coming)?;
    let mut set = setting.active.without(alloc, leaving)?;
    for member in &ordered {
        join(alloc, setting, &on, &mut set, member, dropped)?;
    }
    Ok(set)
}

/// These by height, and those of one height as they stand. Where the relations are known the heights are too, and no
/// name is looked up.
fn by_height(alloc: Global, setting: &Setting, coming: &[Member]) -> Result<Vec<Member>, Memory>
    requires setting { IsSetting setting.now }
    requires within { HavePlaces (set_scene setting.now) coming.now }
    ensures within { IfOk result (λ list. HavePlaces (set_scene setting.now) list.items) }
    ensures order { IfOk result (λ list. list.items ≡ by_height (set_scene setting.now) coming.now) }
{
    if let Some(relations) = setting.relations {
        let ordered = by_rank(alloc, relations.heights(), coming)?;
        return Ok(ordered);
    }
    let heights = heights(alloc, setting.view.checked)?;
    let ordered = by_rank(alloc, &heights, coming)?;
    Ok(ordered)
}

/// One more joins where it has no fault beside those that are active by then; else it is dropped, and the set is as it
/// was. Where the relations show at once that it has none, no order is worked out.
fn join(
    alloc: Global,
    setting: &Setting,
    on: &PlaceSet,
    set: &mut PlaceSet,
    member: &Member,
    dropped: &mut Vec<Dropped>,
) -> Result<(), Memory>
    requires { CanJoin setting.now member.now set.old }
    ensures length { OnOk result (HasFlags (set_scene setting.now) set.new) }
    ensures joined { OnOk result (record { set = set_of set.new; dropped = dropped.new.items }
        ≡ join (set_scene setting.now) (set_of on.now)
        (record { set = set_of set.old; dropped = dropped.old.items }) member.now) }
{
    let was_member = set.has(member.place);
    set.insert(member.place);
    if is_seen_free(setting, set, member.place) {
        return Ok(());
    }
    let Some(cause) = fault_beside(alloc, setting, on, set, member.place)? else {
        return Ok(());
    };
    set.put(member.place, was_member);
    drop_for(&described(&setting.view, member.place).name, cause, dropped)?;
    Ok(())
}

/// What speaks against a controller in a set of which these are to be activated.
fn fault_beside(
    alloc: Global,
    setting: &Setting,
    on: &PlaceSet,
    set: &PlaceSet,
    place: u32,
) -> Result<Option<Cause>, Memory>
    requires setting { IsSetting setting.now }
    requires flags { HasFlags (set_scene setting.now) set.now }
    requires within { IsPlace (set_scene setting.now) place }
    ensures { IfOk result (λ cause. cause ≡ fault (set_scene setting.now) (set_of set.now) (set_of on.now) place) }
{
    let members = order(alloc, setting, set)?;
    let proposal = Proposal {
        alloc,
        view: setting.view,
        set,
        on,
        order: &members,
    };
    let cause = fault(&proposal, place)?;
    Ok(cause)
}

/// Whether the relations are known and show at once that a controller has no fault in a set.
fn is_seen_free(setting: &Setting, set: &PlaceSet, place: u32) -> bool
    requires setting { IsSetting setting.now }
    requires within { IsPlace (set_scene setting.now) place }
    ensures { IsTrue result → (on : Places) → fault (set_scene setting.now) (set_of set.now) on place ≡ None }
{
    match setting.relations {
        Some(relations) => may_join(&setting.view, relations, set, place),
        None => false,
    }
}
