//! What speaks against the names of a flat list.

ghost use Rattle.std.specs.Prelude.{◌≡◌, ◌++◌, [], ◌∷◌, ◌<◌, length, Option, option_map, IfOk, OnOk, All};
ghost use Rattle.cm_document.specs.Picks.{picked_names};
ghost use Rattle.cm_model.specs.Scene.{controllers_in, loaded_of, loaded_all};
ghost use Rattle.cm_model.specs.Switches.{with_name, off_cause, on_cause};
ghost use Rattle.cm_model.specs.BestEffort.{faulty, faultless};
ghost use Rattle.cm_model.specs.Order.{set_of};
ghost use Rattle.switch_plan.specs.Calls.Members.{IsLoadedAs, HaveMet};
ghost use Rattle.switch_plan.specs.Settings.{set_scene, IsSetting};
ghost use Rattle.switch_plan.specs.View.{scene_of, HavePlaces};
ghost use Rattle.switch_plan.specs.Lists.{list_fault, fault_met, first_dropped, IsListed};

use crate::members::{is_configured, is_running, loaded_of, push_seen};
use crate::setting::Setting;
use crate::view::{View, controllers};
use chain_order::PlaceSet;
use cm_document::Pick;
use cm_model::{Cause, Dropped, Member, Seen};
use fixed_num::Memory;
use iface_names::Name;
use std::alloc::Global;

/// A flat list that was looked through.
#[derive(Drop)]
pub enum Listed {
    /// Nothing speaks against a name: these are its controllers.
    Faultless(Vec<Member>),
    /// This speaks against one, and against none before it.
    Faulty(Dropped),
}

/// What speaks against a controller of the list to deactivate, or, if it is told which controllers leave, of the list
/// to activate. It was looked up by this name, and those before it were met. Whether the name stands among these is
/// asked of the set of places; the list before it serves the contract alone.
fn list_fault(
    view: &View,
    leaving: Option<&PlaceSet>,
    before: &[Pick],
    met: &PlaceSet,
    name: &Name,
    seen: Option<Seen>,
) -> Option<Cause>
    requires seen { seen ≡ loaded_of (scene_of view.now) name.now }
    requires met { HaveMet (scene_of view.now) (picked_names before.now) met.now }
    ensures { result ≡ list_fault (scene_of view.now) (option_map (λ set. set.now) leaving.entry)
        (picked_names before.now) name.now }
{
    fault_met(leaving, met, seen)
}

/// The same, by the controllers that were met.
fn fault_met(leaving: Option<&PlaceSet>, met: &PlaceSet, seen: Option<Seen>) -> Option<Cause>
    ensures { result ≡ fault_met (option_map (λ set. set.now) leaving.entry) (set_of met.now) seen }
{
    let Some(seen) = seen else {
        return Some(Cause::Unknown);
    };
    let twice = met.has(seen.place);
    match leaving {
        None => off_cause(twice, &seen),
        Some(leaving) => on_cause(leaving, twice, &seen),
    }
}

/// The controller of this name was met, if it is loaded, as those before it were.
fn meet(view: &View, before: &[Pick], name: &Name, seen: Option<Seen>, met: &mut PlaceSet)
    requires before { HaveMet (scene_of view.now) (picked_names before.now) met.old }
    requires seen { IsLoadedAs (scene_of view.now) name.now seen }
    ensures { HaveMet (scene_of view.now) (picked_names before.now ++ name.now ∷ []) met.new }
{
    if let Some(seen) = seen {
        met.insert(seen.place);
    }
}

/// Why a loaded controller cannot be deactivated.
fn off_cause(twice: bool, seen: &Seen) -> Option<Cause>
    ensures { result ≡ off_cause twice seen.now }
{
    if twice {
        Some(Cause::Twice)
    } else if is_running(seen.life) {
        None
    } else {
        Some(Cause::NotActive)
    }
}

/// Why a loaded controller cannot be activated, where these leave.
fn on_cause(leaving: &PlaceSet, twice: bool, seen: &Seen) -> Option<Cause>
    ensures { result ≡ on_cause (set_of leaving.now) twice seen.now }
{
    if twice {
        Some(Cause::Twice)
    } else if !is_configured(seen.life) {
        Some(Cause::NotConfigured)
    } else if is_running(seen.life) && !leaving.has(seen.place) {
        Some(Cause::AlreadyActive)
    } else {
        None
    }
}

/// Drops a name for a cause.
pub fn drop_for(name: &Name, cause: Cause, dropped: &mut Vec<Dropped>) -> Result<(), Memory>
    ensures { OnOk result (dropped.new.items ≡ dropped.old.items ++ with_name name.now cause ∷ []) }
{
    let name = name.clone()?;
    dropped.push(Dropped { name, cause })?;
    Ok(())
}

/// The controllers of a flat list, or the first of its names that something speaks against.
pub fn look_through(
    alloc: Global,
    setting: &Setting,
    leaving: Option<&PlaceSet>,
    picks: &[Pick],
) -> Result<Listed, Memory>
    requires { IsSetting setting.now }
    ensures { IfOk result (IsListed (set_scene setting.now)
        (list_fault (set_scene setting.now) (option_map (λ set. set.now) leaving.entry)) picks.now) }
{
    let mut dropped = Vec::new(alloc);
    let members = sifted(alloc, setting, leaving, picks, &mut dropped)?;
    match first_dropped(dropped) {
        Some(because) => Ok(Listed::Faulty(because)),
        None => Ok(Listed::Faultless(members)),
    }
}

/// The first of these, if there is one.
#[tactic(auto, using(crate::proofs::PickLemmas::no_first, crate::proofs::PickLemmas::is_first))]
fn first_dropped(mut dropped: Vec<Dropped>) -> Option<Dropped>
    ensures { result ≡ first_dropped dropped.items }
{
    if dropped.as_slice().len() == 0 {
        return None;
    }
    Some(dropped.remove(0))
}

/// The controllers of a flat list without its faults, which are dropped. Each controller is looked up once.
pub fn sifted(
    alloc: Global,
    setting: &Setting,
    leaving: Option<&PlaceSet>,
    picks: &[Pick],
    dropped: &mut Vec<Dropped>,
) -> Result<Vec<Member>, Memory>
    requires { IsSetting setting.now }
    ensures within { IfOk result (λ list. HavePlaces (set_scene setting.now) list.items) }
    ensures members { IfOk result (λ list. list.items ≡ loaded_all (set_scene setting.now)
        (faultless (list_fault (set_scene setting.now) (option_map (λ set. set.now) leaving.entry)) [] picks.now)) }
    ensures dropped { OnOk result (dropped.new.items ≡ dropped.old.items
        ++ faulty (list_fault (set_scene setting.now) (option_map (λ set. set.now) leaving.entry)) [] picks.now) }
{
    let view = &setting.view;
    let mut list = Vec::with_capacity(alloc, picks.len().min(view.loaded.len()))?;
    let mut met = PlaceSet::none(alloc, controllers(view).len())?;
    for (index, pick) in picks.iter().enumerate() {
        let name = match pick {
            Pick::One(name) => name,
            Pick::Group(name) => {
                drop_for(name, Cause::NoGroup, dropped)?;
                continue;
            }
        };
        let before = &picks[..index];
        let seen = loaded_of(setting, name);
        match list_fault(view, leaving, before, &met, name, seen) {
            Some(cause) => drop_for(name, cause, dropped)?,
            None => push_seen(view, name, seen, &mut list)?,
        }
        meet(view, before, name, seen, &mut met);
    }
    Ok(list)
}
