//! What requests are decided by: a picture of the loaded controllers and the components, which is brought on from
//! request to request.

ghost use Rattle.std.specs.Prelude.{◌≡◌, ◌<◌, if◌then◌else◌, length, map, filter, IfOk, All};
ghost use Rattle.cm_document.specs.declared.life.Life.TheVariants.{Inactive, Active};
ghost use Rattle.cm_model.specs.Order.{set_of, places_of, in_order};
ghost use Rattle.cm_model.specs.Scene.{is_running, member};
ghost use Rattle.switch_plan.specs.Relations.{relations_of};
ghost use Rattle.request_plan.specs.Situations.{running};
ghost use Rattle.request_plan.specs.Acts.{seen_after, loaded_after, lives_after, IsActWithin};

use crate::acts::{Act, Switched};
use chain_order::{PlaceSet, in_order};
use cm_document::{Checked, Life};
use cm_model::{Member, Seen};
use fixed_num::Memory;
use std::alloc::Global;
use switch_plan::{Relations, View};

/// What requests are decided by.
#[derive(Debug, Drop)]
pub struct Situation {
    /// The loaded controllers, by serial.
    pub loaded: Vec<Seen>,
    /// The lifecycle states of the components, as described.
    pub lives: Vec<Life>,
}

impl Situation {
    /// The same, as a switch is decided by it.
    pub(crate) fn view<'a>(&'a self, checked: &'a Checked) -> View<'a>
        ensures checked { result.checked.now ≡ checked.now }
        ensures loaded { result.loaded.now ≡ self.now.loaded.items }
        ensures lives { result.components.now ≡ self.now.lives.items }
    {
        View {
            checked,
            loaded: self.loaded.as_slice(),
            components: self.lives.as_slice(),
        }
    }

    /// This was done. It takes no memory.
    pub(crate) fn follow(&mut self, act: &Act)
        requires { IsActWithin (length self.old.lives.items) act.now }
        ensures loaded { self.new.loaded.items ≡ loaded_after act.now self.old.loaded.items }
        ensures lives { self.new.lives.items ≡ lives_after act.now self.old.lives.items }
    {
        match act {
            Act::Nothing => {}
            Act::Switch(switched) => bring_on(&mut self.loaded, switched),
            Act::Move { component, target } => self.lives[*component as usize] = *target,
        }
    }
}

/// A switch was done: each controller is as it is after it.
fn bring_on(loaded: &mut [Seen], switched: &Switched)
    ensures { loaded.new ≡ map (seen_after switched.now) loaded.old }
{
    for seen in loaded.iter_mut() {
        *seen = seen_after(*seen, switched);
    }
}

/// A loaded controller after a switch.
fn seen_after(seen: Seen, switched: &Switched) -> Seen
    ensures { result ≡ seen_after switched.now seen }
{
    Seen {
        serial: seen.serial,
        place: seen.place,
        life: life_after(
            seen.life,
            switched.started.has(seen.place),
            switched.stopped.has(seen.place),
        ),
        chained: switched.set.has(seen.place) && switched.chained.has(seen.place),
        ready: seen.ready,
    }
}

/// The lifecycle state after a switch that starts the controller, or stops it.
fn life_after(life: Life, started: bool, stopped: bool) -> Life
    ensures { result ≡ (if started then Active else (if stopped then Inactive else life)) }
{
    if started {
        Life::Active
    } else if stopped {
        Life::Inactive
    } else {
        life
    }
}

/// The active controllers, by serial.
pub(crate) fn running(alloc: Global, loaded: &[Seen]) -> Result<Vec<Member>, Memory>
    ensures { IfOk result (λ list. list.items ≡ map member (filter (λ l. is_running l.life) loaded.now)) }
{
    let mut list = Vec::with_capacity(alloc, loaded.len())?;
    for seen in loaded {
        if is_running(seen.life) {
            list.push(member(seen))?;
        }
    }
    Ok(list)
}

/// The active controllers in the order of their updates.
pub(crate) fn order(
    alloc: Global,
    checked: &Checked,
    relations: &Relations,
    loaded: &[Seen],
) -> Result<Vec<Member>, Memory>
    requires relations { relations.now ≡ relations_of checked.now }
    requires within { All (λ l. l.place < length checked.now.controllers) loaded.now }
    ensures within { IfOk result (λ list. All (λ m. m.place < length checked.now.controllers) list.items) }
    ensures order { IfOk result (λ list. list.items ≡ in_order checked.now.controllers (running loaded.now)
        (map member (filter (λ l. is_running l.life) loaded.now))) }
{
    let members = running(alloc, loaded)?;
    let set = as_set(alloc, checked, &members)?;
    let list = in_order(alloc, relations.leaders(), &set, &members)?;
    Ok(list)
}

/// These controllers as a set.
pub(crate) fn as_set(
    alloc: Global,
    checked: &Checked,
    members: &[Member],
) -> Result<PlaceSet, Memory>
    requires { All (λ m. m.place < length checked.now.controllers) members.now }
    ensures length { IfOk result (λ set. length set ≡ length checked.now.controllers) }
    ensures set { IfOk result (λ set. set_of set ≡ places_of members.now) }
{
    PlaceSet::of(
        alloc,
        checked.description().controllers.as_slice().len(),
        members,
    )
}

/// Whether a controller in this state is active.
pub(crate) fn is_running(life: Life) -> bool
    ensures { result ≡ is_running life }
{
    life == Life::Active
}

/// A loaded controller by its serial and place.
pub(crate) fn member(seen: &Seen) -> Member
    ensures { result ≡ member seen.now }
{
    Member {
        serial: seen.serial,
        place: seen.place,
    }
}
