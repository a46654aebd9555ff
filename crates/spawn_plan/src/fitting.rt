//! The first cycle in which wanted controllers can start together.

ghost use Rattle.std.specs.Prelude.{◌≡◌, ℕ, ◌<◌, false, ◌||◌, not, length, position, replicate, All, IfOk};
ghost use Rattle.cm_model.specs.Components.{is_listed};
ghost use Rattle.cm_model.specs.Order.{set_of};
ghost use Rattle.sequence.specs.Answers.{Answers};
ghost use Rattle.switch_plan.specs.Relations.{relations_of};
ghost use Rattle.spawn_plan.specs.Fitting.{first_fit, start_of};
ghost use Rattle.spawn_plan.specs.Spans.{unready_in, is_unready};

use crate::fault::SpawnFault;
use crate::spans::common_span;
use cm_document::{Checked, CtlDesc, Params};
use fixed_num::Memory;
use std::alloc::Global;
use switch_plan::Relations;

/// The cycle with which these start: the first that fits. If there are none, no cycle is awaited.
pub fn start_of(
    alloc: Global,
    checked: &Checked,
    relations: &Relations,
    places: &[u32],
) -> Result<u64, SpawnFault>
    requires relations { relations.now ≡ relations_of checked.now }
    requires within { All (λ place. place < length checked.now.controllers) places.now }
    ensures { Answers SpawnFault.Memory (start_of checked.now places.now) result }
{
    if places.is_empty() {
        return Ok(0);
    }
    match first_fit(alloc, checked, relations, places)? {
        Some(cycle) => Ok(cycle),
        None => Err(SpawnFault::NoCycle),
    }
}

/// The first cycle of the run that fits. It is one in which all components are still there and that no controller
/// lists: each list is gone through once.
fn first_fit(
    alloc: Global,
    checked: &Checked,
    relations: &Relations,
    places: &[u32],
) -> Result<Option<u64>, Memory>
    requires relations { relations.now ≡ relations_of checked.now }
    requires within { All (λ place. place < length checked.now.controllers) places.now }
    ensures { IfOk result (λ cycle. cycle ≡ first_fit checked.now places.now) }
{
    let description = checked.description();
    let components = description.components.as_slice();
    let span = common_span(alloc, components, relations, places, description.cycles)?;
    let mut unready = no_marks(alloc, span)?;
    mark_all(&mut unready, description.controllers.as_slice(), places);
    Ok(first_unmarked(&unready))
}

/// So many cycles, none of which is marked.
fn no_marks(alloc: Global, count: u64) -> Result<Vec<bool>, Memory>
    ensures { IfOk result (λ marks. marks.items ≡ replicate count false) }
{
    Ok(vec![in alloc; false; count as usize]?)
}

/// Marks the cycles in which one of these controllers is not ready.
fn mark_all(marks: &mut Vec<bool>, controllers: &[CtlDesc], places: &[u32])
    requires { All (λ place. place < length controllers.now) places.now }
    ensures length { length marks.new.items ≡ length marks.old.items }
    ensures marked { (cycle : ℕ) → cycle < length marks.old.items → set_of marks.new.items cycle
        ≡ (set_of marks.old.items cycle || is_unready controllers.now places.now cycle) }
{
    for place in places {
        mark(marks, unready_in(&controllers[*place as usize].params));
    }
}

/// Marks these cycles, as far as there are marks.
fn mark(marks: &mut Vec<bool>, cycles: &[u64])
    ensures length { length marks.new.items ≡ length marks.old.items }
    ensures marked { (cycle : ℕ) → cycle < length marks.old.items → set_of marks.new.items cycle
        ≡ (set_of marks.old.items cycle || is_listed cycles.now cycle) }
{
    for cycle in cycles {
        let at = *cycle as usize;
        if at < marks.len() {
            marks[at] = true;
        }
    }
}

/// The cycles in which a controller with these parameters is not ready.
fn unready_in(params: &Params) -> &[u64]
    ensures { result.now ≡ unready_in params.now }
{
    match params {
        Params::Mock { not_ready, .. } => not_ready.as_slice(),
        _ => &[],
    }
}

/// The first cycle without a mark.
fn first_unmarked(marks: &[bool]) -> Option<u64>
    ensures { result ≡ position (λ mark. not mark) marks.now }
{
    match unmarked(marks) {
        Some(cycle) => Some(cycle as u64),
        None => None,
    }
}

/// Where the first stands.
fn unmarked(marks: &[bool]) -> Option<usize>
    ensures { result ≡ position (λ mark. not mark) marks.now }
{
    marks.iter().position(|mark| !*mark)
}
