//! Whether wanted controllers can be active together in any state.

ghost use Rattle.std.specs.Prelude.{◌≡◌, ◌<◌, ◌^◌, true, [], Err, length, map, IfOk};
ghost use Rattle.sequence.specs.Answers.{Answers};
ghost use Rattle.cm_document.specs.declared.call.Pick.TheVariants.{One};
ghost use Rattle.cm_document.specs.declared.life.Life.TheVariants.{Active};
ghost use Rattle.switch_plan.specs.Relations.{relations_of};
ghost use Rattle.spawn_plan.specs.Never.{ready_from, can_be_active};
ghost use Rattle.spawn_plan.specs.Outcomes.{not_refused};
ghost use Rattle.spawn_plan.specs.Wanted.{AreWanted};

use crate::fault::SpawnFault;
use cm_document::{Checked, CompDesc, Life, Pick, SwitchRequest};
use cm_model::{Cause, Outcome, Seen};
use fixed_num::Memory;
use iface_names::Name;
use sequence::{Seq, Shared};
use std::alloc::Global;
use switch_plan::{Relations, View, plan_with};

/// These may be active together in some state; else why they never are. A strict switch of all of them is planned at
/// its best: each is loaded, in the wanted order, inactive and ready, and each component is active.
pub fn can_be_active(
    alloc: Global,
    checked: &Checked,
    relations: &Relations,
    wanted: &[Name],
    places: &[u32],
) -> Result<(), SpawnFault>
    requires relations { relations.now ≡ relations_of checked.now }
    requires wanted { AreWanted checked.now.controllers wanted.now places.now }
    ensures { Answers SpawnFault.Memory (can_be_active checked.now places.now) result }
{
    let components = checked.description().components.as_slice();
    let loaded = ready_ones(alloc, places)?;
    let lives = all_active(alloc, components)?;
    let request = starting(alloc, wanted)?;
    let view = View {
        checked,
        loaded: &loaded,
        components: &lives,
    };
    let planned = plan_with(alloc, &view, relations, &request)?;
    not_refused(planned.outcome)
}

/// These loaded, the serial of each being its place in the list, inactive and ready.
fn ready_ones(alloc: Global, places: &[u32]) -> Result<Vec<Seen>, Memory>
    requires { length places.now < 2 ^ 32 }
    ensures { IfOk result (λ loaded. loaded.items ≡ ready_from 0 places.now) }
{
    let mut loaded = Vec::new(alloc);
    for (serial, place) in places.iter().enumerate() {
        loaded.push(Seen {
            serial: serial as u32,
            place: *place,
            life: Life::Inactive,
            chained: false,
            ready: true,
        })?;
    }
    Ok(loaded)
}

/// As many components, each active.
fn all_active(alloc: Global, components: &[CompDesc]) -> Result<Vec<Life>, Memory>
    ensures { IfOk result (λ lives. lives.items ≡ map (λ component. Active) components.now) }
{
    let mut lives = Vec::new(alloc);
    'each: for _component in components {
        lives.push(Life::Active)?;
    }
    Ok(lives)
}

/// One strict switch of all of them.
pub fn starting(alloc: Global, wanted: &[Name]) -> Result<SwitchRequest, Memory>
    ensures on { IfOk result (λ request. request.on ≡ map One wanted.now) }
    ensures off { IfOk result (λ request. request.off ≡ []) }
    ensures strict { IfOk result (λ request. request.strict ≡ true) }
{
    let mut on = Seq::new(alloc);
    for name in wanted {
        on.push(Pick::One(name.clone()?))?;
    }
    Ok(SwitchRequest {
        on,
        off: Seq::new(alloc),
        strict: true,
    })
}

/// The request was not refused; else its refusal.
fn not_refused(outcome: Outcome) -> Result<(), SpawnFault>
    ensures { Answers SpawnFault.Memory (not_refused outcome) result }
{
    match outcome {
        Outcome::Refused(name, cause) => refused(name, &cause),
        Outcome::Done { .. } | Outcome::LoopEnded => Ok(()),
    }
}

/// The refusal because of this name.
fn refused(name: Name, cause: &Shared<Cause>) -> Result<(), SpawnFault>
    ensures { Answers SpawnFault.Memory (Err (SpawnFault.Never name cause.now)) result }
{
    let cause = cause.get().clone()?;
    Err(SpawnFault::Never(name, cause))
}
