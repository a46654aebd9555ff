//! Sets of controllers that have no fault, as their relations show at once.

ghost use Rattle.std.specs.Prelude.{◌≡◌, ◌<◌, not, ◌&&◌, length, None, IsTrue};
ghost use Rattle.std.specs.List.{list_any};
ghost use Rattle.chain_order.specs.Links.{linked};
ghost use Rattle.cm_model.specs.Faults.{fault};
ghost use Rattle.cm_model.specs.Order.{Places, set_of};
ghost use Rattle.cm_model.specs.Switches.{first_member_fault};
ghost use Rattle.switch_plan.specs.View.{scene_of, IsView, IsPlace};
ghost use Rattle.switch_plan.specs.Relations.{relations_of, is_down, may_start, is_clear};

use crate::interfaces::is_available;
use crate::members::is_ready;
use crate::relations::Relations;
use crate::view::View;
use chain_order::{PlaceSet, has_any};
use cm_document::Life;

/// Whether it is seen at once that no fault counts against a set, of which these are to be activated. Where it is not,
/// there may still be none.
pub fn are_clear(view: &View, relations: &Relations, set: &PlaceSet, on: &PlaceSet) -> bool
    requires view { IsView view.now }
    requires relations { relations.now ≡ relations_of view.now.checked.now }
    ensures { IsTrue result → first_member_fault (scene_of view.now) (set_of set.now) (set_of on.now) ≡ None }
{
    is_each_clear(view, relations, set, on)
}

/// Whether that is seen of each loaded controller.
fn is_each_clear(view: &View, relations: &Relations, set: &PlaceSet, on: &PlaceSet) -> bool
    requires view { IsView view.now }
    requires relations { relations.now ≡ relations_of view.now.checked.now }
    ensures { result ≡ not (list_any
        (λ l. not (is_clear (scene_of view.now) relations.now (set_of set.now) (set_of on.now) l.place))
        view.now.loaded.now) }
{
    for seen in view.loaded {
        if !is_clear(view, relations, set, on, seen.place) {
            return false;
        }
    }
    true
}

/// Whether it is seen at once that nothing counts against a controller.
fn is_clear(view: &View, relations: &Relations, set: &PlaceSet, on: &PlaceSet, place: u32) -> bool
    requires relations { relations.now ≡ relations_of view.now.checked.now }
    requires within { IsPlace (scene_of view.now) place }
    ensures { result ≡ is_clear (scene_of view.now) relations.now (set_of set.now) (set_of on.now) place }
{
    if !set.has(place) {
        true
    } else if has_other(set, relations.followers(place)) {
        false
    } else {
        !on.has(place) || may_start(view, relations, set, place)
    }
}

/// Whether it is seen at once that a controller has no fault in a set, whichever controllers are to be activated.
pub fn may_join(view: &View, relations: &Relations, set: &PlaceSet, place: u32) -> bool
    requires view { IsView view.now }
    requires relations { relations.now ≡ relations_of view.now.checked.now }
    requires within { IsPlace (scene_of view.now) place }
    ensures { IsTrue result → (on : Places) → fault (scene_of view.now) (set_of set.now) on place ≡ None }
{
    starts_led(view, relations, set, place)
}

/// Whether all that a controller precedes are members, and it could start beside them.
fn starts_led(view: &View, relations: &Relations, set: &PlaceSet, place: u32) -> bool
    requires relations { relations.now ≡ relations_of view.now.checked.now }
    requires within { IsPlace (scene_of view.now) place }
    ensures { result ≡ (not (list_any (λ q. not (set_of set.now q)) (linked relations.now.followers place))
        && may_start (scene_of view.now) relations.now (set_of set.now) place) }
{
    if has_other(set, relations.followers(place)) {
        false
    } else {
        may_start(view, relations, set, place)
    }
}

/// Whether a controller could start beside a set.
fn may_start(view: &View, relations: &Relations, set: &PlaceSet, place: u32) -> bool
    requires relations { relations.now ≡ relations_of view.now.checked.now }
    requires within { IsPlace (scene_of view.now) place }
    ensures { result ≡ may_start (scene_of view.now) relations.now (set_of set.now) place }
{
    if has_any(set, relations.odds(place))
        || is_any_down(view.components, relations.components(place))
    {
        false
    } else {
        is_ready(view, place)
    }
}

/// Whether one of these is no member.
fn has_other(set: &PlaceSet, places: &[u32]) -> bool
    ensures { result ≡ list_any (λ q. not (set_of set.now q)) places.now }
{
    places.iter().any(|place| !set.has(*place))
}

/// Whether one of these components has no available interfaces.
fn is_any_down(components: &[Life], places: &[usize]) -> bool
    ensures { result ≡ list_any (is_down components.now) places.now }
{
    places.iter().any(|place| is_down(components, *place))
}

/// Whether the component at a place has no available interfaces.
fn is_down(components: &[Life], place: usize) -> bool
    ensures { result ≡ is_down components.now place }
{
    match components.get(place) {
        Some(life) => !is_available(*life),
        None => true,
    }
}
