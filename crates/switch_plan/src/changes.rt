//! What a decision changes: which controllers are deactivated and activated, in which order.

ghost use Rattle.std.specs.Prelude.{◌≡◌, ◌<◌, ◌^◌, ◌||◌, [], length, map, filter, reverse, IfOk};
ghost use Rattle.cm_model.specs.Order.{set_of};
ghost use Rattle.cm_model.specs.Scene.{controllers_in, active, is_chained_in, member, order};
ghost use Rattle.cm_model.specs.Switches.{restarts, is_stopped, is_started, off_list, on_list, planned, differ, done};
ghost use Rattle.cm_model.specs.declared.cause.Outcome.TheVariants as outcome;
ghost use Rattle.switch_plan.specs.View.{IsPlace, HavePlaces};
ghost use Rattle.switch_plan.specs.Changes.{change_scene, after, again, IsChange};

use crate::members::push_if;
use crate::setting::{Setting, in_order_of};
use chain_order::{PlaceSet, is_chained, serials};
use cm_model::{Dropped, Member, Outcome, Planned};
use fixed_num::Memory;
use sequence::{Seq, Shared, SharedList};
use std::alloc::Global;

/// A decision that is done: the controllers that will be active, and those of them that restart because they are named
/// for it.
#[derive(Clone, Copy)]
pub struct Change<'a> {
    /// What it rests on.
    pub setting: Setting<'a>,
    /// The controllers that will be active.
    pub set: &'a PlaceSet,
    /// The named restarts.
    pub again: &'a PlaceSet,
}

/// The plan of a refused request.
pub fn refused(alloc: Global, because: Dropped) -> Result<Planned, Memory>
    ensures { IfOk result (λ plan. plan
        ≡ record { outcome = outcome.Refused because.name because.cause; off = []; on = [] }) }
{
    let cause = Shared::new(alloc, because.cause)?;
    Ok(Planned {
        outcome: Outcome::Refused(because.name, cause),
        off: Seq::new(alloc),
        on: Seq::new(alloc),
    })
}

/// The plan of a request that is done, without these names.
pub fn done(alloc: Global, change: &Change, dropped: Vec<Dropped>) -> Result<Planned, Memory>
    requires { IsChange change.now }
    ensures { IfOk result (λ plan. plan
        ≡ planned (change_scene change.now) (done dropped.items (after change.now) (again change.now))) }
{
    Ok(Planned {
        outcome: Outcome::Done {
            dropped: SharedList::of(alloc, dropped)?,
        },
        off: off_list(alloc, change)?,
        on: on_list(alloc, change)?,
    })
}

/// The serials to deactivate, in the order of what was active.
fn off_list(alloc: Global, change: &Change) -> Result<Seq<u32>, Memory>
    requires { IsChange change.now }
    ensures { IfOk result (λ list. list ≡ off_list (change_scene change.now) (after change.now) (again change.now)) }
{
    let stopped = stopped(alloc, change)?;
    let ordered = in_order_of(alloc, &change.setting, change.setting.active, &stopped)?;
    let list = serials(alloc, &ordered)?;
    Ok(Seq::from_vec(list))
}

/// The serials to activate, against the order of what will be active.
fn on_list(alloc: Global, change: &Change) -> Result<Seq<u32>, Memory>
    requires { IsChange change.now }
    ensures { IfOk result (λ list. list ≡ on_list (change_scene change.now) (after change.now) (again change.now)) }
{
    let started = started(alloc, change)?;
    let ordered = in_order_of(alloc, &change.setting, change.set, &started)?;
    let mut list = serials(alloc, &ordered)?;
    list.reverse();
    Ok(Seq::from_vec(list))
}

/// The controllers to deactivate, by serial.
fn stopped(alloc: Global, change: &Change) -> Result<Vec<Member>, Memory>
    requires { IsChange change.now }
    ensures within { IfOk result (λ list. HavePlaces (change_scene change.now) list.items) }
    ensures list { IfOk result (λ list. list.items ≡ map member (filter
        (λ l. is_stopped (change_scene change.now) (after change.now) (again change.now) l.place)
        (change_scene change.now).loaded)) }
{
    let mut list = Vec::with_capacity(alloc, change.setting.view.loaded.len())?;
    for seen in change.setting.view.loaded {
        push_if(&mut list, seen, is_stopped(change, seen.place))?;
    }
    Ok(list)
}

/// The controllers to activate, by serial.
fn started(alloc: Global, change: &Change) -> Result<Vec<Member>, Memory>
    requires { IsChange change.now }
    ensures within { IfOk result (λ list. HavePlaces (change_scene change.now) list.items) }
    ensures list { IfOk result (λ list. list.items ≡ map member (filter
        (λ l. is_started (change_scene change.now) (after change.now) (again change.now) l.place)
        (change_scene change.now).loaded)) }
{
    let mut list = Vec::with_capacity(alloc, change.setting.view.loaded.len())?;
    for seen in change.setting.view.loaded {
        push_if(&mut list, seen, is_started(change, seen.place))?;
    }
    Ok(list)
}

/// Whether a controller is deactivated: it is active, and no member or restarts.
fn is_stopped(change: &Change, place: u32) -> bool
    requires change { IsChange change.now }
    requires within { IsPlace (change_scene change.now) place }
    ensures { result ≡ is_stopped (change_scene change.now) (after change.now) (again change.now) place }
{
    change.setting.active.has(place) && (!change.set.has(place) || restarts(change, place))
}

/// Whether a controller is activated: it is a member, and not active or restarts.
fn is_started(change: &Change, place: u32) -> bool
    requires change { IsChange change.now }
    requires within { IsPlace (change_scene change.now) place }
    ensures { result ≡ is_started (change_scene change.now) (after change.now) (again change.now) place }
{
    change.set.has(place) && (!change.setting.active.has(place) || restarts(change, place))
}

/// Whether a controller restarts where it is active and stays so: it is named for that, or its chained mode changes.
fn restarts(change: &Change, place: u32) -> bool
    requires change { IsChange change.now }
    requires within { IsPlace (change_scene change.now) place }
    ensures { result ≡ restarts (change_scene change.now) (after change.now) (again change.now) place }
{
    let before = is_chained(change.setting.leaders, change.setting.active, place);
    let after = is_chained(change.setting.leaders, change.set, place);
    again_or_differ(change.again.has(place), before, after)
}

/// Whether it is named for a restart, or one of both is true.
fn again_or_differ(again: bool, before: bool, after: bool) -> bool
    ensures { result ≡ (again || differ before after) }
{
    again || (if before { !after } else { after })
}
