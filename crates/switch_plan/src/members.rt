//! Loaded controllers, by name.

ghost use Rattle.std.specs.Prelude.{◌≡◌, ◌<◌, ◌^◌, not, ◌&&◌, ◌==◌, ◌++◌, ◌∷◌, [], length, if◌then◌else◌};
ghost use Rattle.std.specs.Prelude.{map, filter, find, Option, option_map, IfOk, IfSome, OnOk, All};
ghost use Rattle.std.specs.List.{list_any};
ghost use Rattle.cm_model.specs.Scene.{controllers_in, is_running, is_configured};
ghost use Rattle.cm_model.specs.Scene.{is_ready, loaded_of, loaded_all, member};
ghost use Rattle.switch_plan.specs.Calls.Members.{IsLoadedAs};
ghost use Rattle.switch_plan.specs.Relations.{relations_of};
ghost use Rattle.switch_plan.specs.Settings.{set_scene, IsSetting};
ghost use Rattle.switch_plan.specs.View.{scene_of, IsView, IsPlace, HavePlaces};

use crate::relations::Relations;
use crate::setting::Setting;
use crate::view::{View, described};
use cm_document::Life;
use cm_model::{Member, Seen};
use fixed_num::Memory;
use iface_names::Name;

/// Whether a controller in this state is active.
pub fn is_running(life: Life) -> bool
    ensures { result ≡ is_running life }
{
    match life {
        Life::Active => true,
        Life::Unconfigured | Life::Inactive | Life::Finalized => false,
    }
}

/// Whether a controller in this state has parameters.
pub fn is_configured(life: Life) -> bool
    ensures { result ≡ is_configured life }
{
    match life {
        Life::Inactive | Life::Active => true,
        Life::Unconfigured | Life::Finalized => false,
    }
}

/// The loaded controller of this name. Where the relations are known they tell its place, and no loaded controller is
/// asked for its name.
pub fn loaded_of(setting: &Setting, name: &Name) -> Option<Seen>
    requires { IsSetting setting.now }
    ensures within { IfSome result (λ l. IsPlace (set_scene setting.now) l.place) }
    ensures found { result ≡ loaded_of (set_scene setting.now) name.now }
{
    match setting.relations {
        Some(relations) => loaded_as_placed(&setting.view, relations, name),
        None => loaded_as_called(&setting.view, name),
    }
}

/// The loaded controller at the place that this name has.
fn loaded_as_placed(view: &View, relations: &Relations, name: &Name) -> Option<Seen>
    requires view { IsView view.now }
    requires relations { relations.now ≡ relations_of view.now.checked.now }
    ensures within { IfSome result (λ l. IsPlace (scene_of view.now) l.place) }
    ensures found { result ≡ loaded_of (scene_of view.now) name.now }
{
    let place = relations.place_of(name)?;
    loaded_at(view, place)
}

/// The loaded controller at a place.
fn loaded_at(view: &View, place: usize) -> Option<Seen>
    requires { IsView view.now }
    ensures within { IfSome result (λ l. IsPlace (scene_of view.now) l.place) }
    ensures found { result ≡ find (λ l. l.place == place) (scene_of view.now).loaded }
{
    for seen in view.loaded {
        if seen.place as usize == place {
            return Some(*seen);
        }
    }
    None
}

/// The first loaded controller that is called so.
fn loaded_as_called(view: &View, name: &Name) -> Option<Seen>
    requires { IsView view.now }
    ensures within { IfSome result (λ l. IsPlace (scene_of view.now) l.place) }
    ensures found { result ≡ loaded_of (scene_of view.now) name.now }
{
    for seen in view.loaded {
        if described(view, seen.place).name == *name {
            return Some(*seen);
        }
    }
    None
}

/// Appends the loaded controller of this name, which was looked up, if there is one.
pub fn push_seen(
    view: &View,
    name: &Name,
    seen: Option<Seen>,
    list: &mut Vec<Member>,
) -> Result<(), Memory>
    requires seen { IsLoadedAs (scene_of view.now) name.now seen }
    requires within { HavePlaces (scene_of view.now) list.old.items }
    ensures within { OnOk result (HavePlaces (scene_of view.now) list.new.items) }
    ensures list { OnOk result (list.new.items ≡ list.old.items ++ loaded_all (scene_of view.now) (name.now ∷ [])) }
{
    if let Some(seen) = seen {
        list.push(member(&seen))?;
    }
    Ok(())
}

/// Appends a loaded controller, if it is one of those that are wanted.
pub fn push_if(list: &mut Vec<Member>, seen: &Seen, is_wanted: bool) -> Result<(), Memory>
    ensures { OnOk result
        (list.new.items ≡ list.old.items ++ (if is_wanted then member seen.now ∷ [] else [])) }
{
    if is_wanted {
        list.push(member(seen))?;
    }
    Ok(())
}

/// A loaded controller by its serial and place.
fn member(seen: &Seen) -> Member
    ensures { result ≡ member seen.now }
{
    Member {
        serial: seen.serial,
        place: seen.place,
    }
}

/// Whether the controller at a place is ready to be activated.
pub fn is_ready(view: &View, place: u32) -> bool
    ensures { result ≡ is_ready (scene_of view.now) place }
{
    view.loaded
        .iter()
        .any(|seen| seen.place == place && seen.ready)
}
