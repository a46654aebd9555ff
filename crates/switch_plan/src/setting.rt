//! What a decision rests on.

ghost use Rattle.std.specs.Prelude.{◌≡◌, ℕ, ◌<◌, length, map, filter, IfOk, All};
ghost use Rattle.cm_model.specs.Order.{set_of, in_order};
ghost use Rattle.cm_model.specs.Scene.{controllers_in, is_running, active, member, members, order};
ghost use Rattle.switch_plan.specs.Calls.Members.{CanOrder};
ghost use Rattle.switch_plan.specs.View.{scene_of, IsView, HavePlaces, HasFlags};
ghost use Rattle.switch_plan.specs.Settings.{set_scene, IsSetting};

use crate::members::{is_running, push_if};
use crate::relations::Relations;
use crate::view::{View, controllers};
use chain_order::{Links, PlaceSet, in_order};
use cm_model::Member;
use fixed_num::Memory;
use std::alloc::Global;

/// What a decision rests on: the view, with what is worked out of it once.
#[derive(Clone, Copy)]
pub struct Setting<'a> {
    /// What is decided by.
    pub view: View<'a>,
    /// Each controller with those that precede it.
    pub leaders: &'a Links,
    /// The active controllers.
    pub active: &'a PlaceSet,
    /// Who has to do with whom, where it was worked out before.
    pub relations: Option<&'a Relations>,
}

/// The active controllers.
pub fn active(alloc: Global, view: &View) -> Result<PlaceSet, Memory>
    requires { IsView view.now }
    ensures length { IfOk result (λ set. HasFlags (scene_of view.now) set) }
    ensures set { IfOk result (λ set. (p : ℕ) → set_of set p ≡ active (scene_of view.now) p) }
{
    let members = running(alloc, view)?;
    let set = PlaceSet::of(alloc, controllers(view).len(), &members)?;
    Ok(set)
}

/// The active controllers, by serial.
fn running(alloc: Global, view: &View) -> Result<Vec<Member>, Memory>
    requires { IsView view.now }
    ensures within { IfOk result (λ list. HavePlaces (scene_of view.now) list.items) }
    ensures list { IfOk result (λ list. list.items
        ≡ map member (filter (λ l. is_running l.life) view.now.loaded.now)) }
{
    let mut list = Vec::with_capacity(alloc, view.loaded.len())?;
    for seen in view.loaded {
        push_if(&mut list, seen, is_running(seen.life))?;
    }
    Ok(list)
}

/// The members of a set, by serial.
fn members(alloc: Global, view: &View, set: &PlaceSet) -> Result<Vec<Member>, Memory>
    requires { IsView view.now }
    ensures within { IfOk result (λ list. HavePlaces (scene_of view.now) list.items) }
    ensures members { IfOk result (λ list. list.items ≡ members (scene_of view.now) (set_of set.now)) }
{
    let mut list = Vec::with_capacity(alloc, view.loaded.len())?;
    for seen in view.loaded {
        push_if(&mut list, seen, set.has(seen.place))?;
    }
    Ok(list)
}

/// The members of a set in the order of their updates.
pub fn order(alloc: Global, setting: &Setting, set: &PlaceSet) -> Result<Vec<Member>, Memory>
    requires setting { IsSetting setting.now }
    requires length { HasFlags (set_scene setting.now) set.now }
    ensures within { IfOk result (λ list. HavePlaces (set_scene setting.now) list.items) }
    ensures order { IfOk result (λ list. list.items ≡ order (set_scene setting.now) (set_of set.now)) }
{
    let list = members(alloc, &setting.view, set)?;
    let ordered = in_order_of(alloc, setting, set, &list)?;
    Ok(ordered)
}

/// These, which stand by serial, in the order of their updates by their depths in a set.
pub fn in_order_of(
    alloc: Global,
    setting: &Setting,
    set: &PlaceSet,
    list: &[Member],
) -> Result<Vec<Member>, Memory>
    requires { CanOrder setting.now set.now list.now }
    ensures within { IfOk result (λ ordered. HavePlaces (set_scene setting.now) ordered.items) }
    ensures order { IfOk result (λ ordered. ordered.items
        ≡ in_order (controllers_in (set_scene setting.now)) (set_of set.now) list.now) }
{
    let ordered = in_order(alloc, setting.leaders, set, list)?;
    Ok(ordered)
}
