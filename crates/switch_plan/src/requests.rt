//! What becomes of a switch request.

ghost use Rattle.std.specs.Prelude.{◌≡◌, ◌||◌, IfOk, IfSome};
ghost use Rattle.std.specs.List.{list_any};
ghost use Rattle.chain_order.specs.Links.{leaders_of};
ghost use Rattle.cm_document.specs.Picks.{is_group, flat};
ghost use Rattle.cm_model.specs.Switches.{planned};
ghost use Rattle.cm_model.specs.BestEffort.{flat_decided, plan_of};
ghost use Rattle.switch_plan.specs.View.{scene_of, IsView};
ghost use Rattle.switch_plan.specs.Settings.{set_scene, IsSetting};
ghost use Rattle.switch_plan.specs.Relations.{relations_of};

use crate::best::best;
use crate::relations::Relations;
use crate::setting::{Setting, active};
use crate::strict::strict;
use crate::view::View;
use chain_order::Links;
use cm_document::{Pick, SwitchRequest, flat, has_group};
use cm_model::Planned;
use fixed_num::Memory;
use std::alloc::Global;

/// What becomes of a switch request, and which controllers are deactivated and activated for it, in which order: the
/// switch rules, docs/RULES.md. Each loaded controller of the view has its place in the description, and they stand by
/// serial. Interfaces are looked up by name.
pub fn plan(alloc: Global, view: &View, request: &SwitchRequest) -> Result<Planned, Memory>
    requires { IsView view.now }
    ensures { IfOk result (λ plan. plan ≡ plan_of (scene_of view.now) request.now) }
{
    let leaders = Links::leaders_in(alloc, view.checked)?;
    plan_over(alloc, view, &leaders, None, request)
}

/// The same with the relations of the description, which were worked out before.
pub fn plan_with(
    alloc: Global,
    view: &View,
    relations: &Relations,
    request: &SwitchRequest,
) -> Result<Planned, Memory>
    requires view { IsView view.now }
    requires relations { relations.now ≡ relations_of view.now.checked.now }
    ensures { IfOk result (λ plan. plan ≡ plan_of (scene_of view.now) request.now) }
{
    plan_over(alloc, view, relations.leaders(), Some(relations), request)
}

/// The same over those that precede each controller, and over the relations where they are known.
fn plan_over(
    alloc: Global,
    view: &View,
    leaders: &Links,
    relations: Option<&Relations>,
    request: &SwitchRequest,
) -> Result<Planned, Memory>
    requires view { IsView view.now }
    requires leaders { leaders.now ≡ leaders_of view.now.checked.now.controllers }
    requires relations { IfSome relations (λ w. w.now ≡ relations_of view.now.checked.now) }
    ensures { IfOk result (λ plan. plan ≡ plan_of (scene_of view.now) request.now) }
{
    let active = active(alloc, view)?;
    let setting = Setting {
        view: *view,
        leaders,
        active: &active,
        relations,
    };
    decided(alloc, &setting, request)
}

/// What becomes of a switch request, once it is known what the decision rests on. Lists without a group are flat as
/// they stand.
fn decided(alloc: Global, setting: &Setting, request: &SwitchRequest) -> Result<Planned, Memory>
    requires { IsSetting setting.now }
    ensures { IfOk result (λ plan. plan ≡ plan_of (set_scene setting.now) request.now) }
{
    let (off, on) = (request.off.as_slice(), request.on.as_slice());
    if have_groups(off, on) {
        return decided_as_flat(alloc, setting, request.strict, off, on);
    }
    flat_decided(alloc, setting, request.strict, off, on)
}

/// Whether one of these lists has a group.
fn have_groups(off: &[Pick], on: &[Pick]) -> bool
    ensures { result ≡ (list_any is_group off.now || list_any is_group on.now) }
{
    has_group(off) || has_group(on)
}

/// What becomes of a switch of lists that have groups.
fn decided_as_flat(
    alloc: Global,
    setting: &Setting,
    whole: bool,
    off: &[Pick],
    on: &[Pick],
) -> Result<Planned, Memory>
    requires { IsSetting setting.now }
    ensures { IfOk result (λ plan. plan ≡ planned (set_scene setting.now)
        (flat_decided (set_scene setting.now) whole
        (flat (set_scene setting.now).description off.now) (flat (set_scene setting.now).description on.now))) }
{
    let description = setting.view.checked.description();
    let off = flat(alloc, description, off)?;
    let on = flat(alloc, description, on)?;
    let plan = flat_decided(alloc, setting, whole, &off, &on)?;
    Ok(plan)
}

/// What becomes of a switch of two flat lists.
fn flat_decided(
    alloc: Global,
    setting: &Setting,
    whole: bool,
    off: &[Pick],
    on: &[Pick],
) -> Result<Planned, Memory>
    requires { IsSetting setting.now }
    ensures { IfOk result (λ plan. plan ≡ planned (set_scene setting.now)
        (flat_decided (set_scene setting.now) whole off.now on.now)) }
{
    if whole {
        let plan = strict(alloc, setting, off, on)?;
        Ok(plan)
    } else {
        let plan = best(alloc, setting, off, on)?;
        Ok(plan)
    }
}
