//! Who is active, as it is looked up.

ghost use Rattle.std.specs.Prelude.{◌≡◌, ◌<◌, ◌≤◌, ◌^◌, ◌==◌, true, false, [], length, position, slice_get};
ghost use Rattle.std.specs.Prelude.{slice_index_or, vec_capacity, is_some, All, IfOk, IfSome, None, Some};
ghost use Rattle.std.specs.List.{list_any};
ghost use Rattle.cm_resources.specs.Calls.ActiveSets.{IsPut, IsIndexedAnew};
ghost use Rattle.cm_resources.specs.ActiveSet.{TellsActive, AreAt, serials_of, is_listed, noted};

use cm_model::Member;
use cm_slots::Slot;
use ctl_trait::Controller;
use fixed_num::Memory;
use std::alloc::Global;
use std::marker::Model;

/// Who is active, as it is looked up: by place in the description, and in the order of updates.
#[derive(Drop)]
pub struct ActiveSet {
    /// By place in the description, the serial of the controller that is active there.
    active: Vec<Option<u32>>,
    /// The active controllers in the order of their updates.
    order: Vec<Member>,
    /// Where they stand among the loaded ones.
    run: Vec<u32>,
    /// Whether the order is the one of now.
    current: bool,
}

impl Model for ActiveSet {
    ghost use Rattle.cm_resources.specs.ActiveSet.{Listed};

    ghost Value = { Listed };

    ghost view = { λ r. record {
      active = r.active.items;
      order = r.order.items;
      run = r.run.items;
      current = r.current;
    } };
}

impl ActiveSet {
    /// Nobody is active, of so many that are described.
    pub fn none(alloc: Global, count: usize) -> Result<ActiveSet, Memory>
        ensures counted { IfOk result (λ active_set. length active_set.active ≡ count) }
        ensures nobody { IfOk result (λ active_set. (p : _) → slice_index_or active_set.active p None ≡ None) }
        ensures order { IfOk result (λ active_set. (active_set.order ≡ []) × (active_set.run ≡ [])) }
        ensures current { IfOk result (λ active_set. active_set.current ≡ true) }
    {
        Ok(ActiveSet {
            active: vec![in alloc; None; count]?,
            order: Vec::new(alloc),
            run: Vec::new(alloc),
            current: true,
        })
    }

    /// By place in the description, the serial of the controller that is active there.
    pub fn active(&self) -> &[Option<u32>]
        ensures { result.now ≡ self.now.active }
    {
        &self.active
    }

    /// Whether one of the controllers at these places is active.
    pub fn has_any(&self, places: &[u32]) -> bool
        ensures { result ≡ list_any (λ p. is_some (slice_index_or self.now.active p None)) places.now }
    {
        places.iter().any(|place| self.has(*place))
    }

    /// Whether the controller at this place is active.
    fn has(&self, place: u32) -> bool
        ensures { result ≡ is_some (slice_index_or self.now.active place None) }
    {
        self.active
            .get(place as usize)
            .copied()
            .unwrap_or(None)
            .is_some()
    }

    /// The active controllers in the order of their updates, where it is the one of now.
    pub fn order(&self) -> &[Member]
        ensures { result.now ≡ self.now.order }
    {
        &self.order
    }

    /// Where they stand among the loaded ones.
    pub fn run(&self) -> &[u32]
        ensures { result.now ≡ self.now.run }
    {
        &self.run
    }

    /// Whether the order is the one of now.
    pub fn is_current(&self) -> bool
        ensures { result ≡ self.now.current }
    {
        self.current
    }

    /// Others may be active now: who is active is looked at anew, and the order is not the one of now. It takes no
    /// memory.
    pub fn look<C: Controller>(&mut self, slots: &[Slot<C>])
        requires { All (λ l. l.place < length self.old.active) slots.now }
        ensures active { TellsActive (length self.old.active) slots.now self.new.active }
        ensures stale { self.new.current ≡ false }
        ensures same { (self.new.order ≡ self.old.order) × (self.new.run ≡ self.old.run) }
    {
        self.current = false;
        look_at(&mut self.active, slots);
    }

    /// This is the order from now on, of controllers that are loaded. There is room to say where they stand.
    pub fn put<C: Controller>(&mut self, order: Vec<Member>, room: Vec<u32>, slots: &[Slot<C>])
        requires loaded { All (λ m. is_listed (serials_of slots.now) m.serial ≡ true) order.items }
        requires room { length order.items ≤ vec_capacity room }
        requires few { length slots.now < 2 ^ 32 }
        ensures { IsPut (serials_of slots.now) order.items self.old self.new }
    {
        self.run = room;
        index_all(&mut self.run, &order, slots);
        self.order = order;
        self.current = true;
    }

    /// Others may be loaded now, though the same are active: where these stand is looked up anew. It takes no memory.
    pub fn reindex<C: Controller>(&mut self, slots: &[Slot<C>])
        requires loaded { self.old.current ≡ true
            → All (λ m. is_listed (serials_of slots.now) m.serial ≡ true) self.old.order }
        requires room { self.old.current ≡ true → length self.old.order ≤ length self.old.run }
        requires few { length slots.now < 2 ^ 32 }
        ensures { IsIndexedAnew (serials_of slots.now) self.old self.new }
    {
        if self.current {
            index_all(&mut self.run, &self.order, slots);
        }
    }
}

/// For each described place, which of these controllers is active there.
fn look_at<C: Controller>(active: &mut [Option<u32>], slots: &[Slot<C>])
    requires { All (λ l. l.place < length active.old) slots.now }
    ensures { TellsActive (length active.old) slots.now active.new }
{
    active.fill(None);
    for slot in slots {
        note(active, slot);
    }
}

/// The controller is noted at its place, where it is active and nobody is noted there.
fn note<C: Controller>(active: &mut [Option<u32>], slot: &Slot<C>)
    requires { slot.now.place < length active.old }
    ensures { active.new ≡ noted slot.now active.old }
{
    let place = slot.place();
    if slot.is_active() && active[place].is_none() {
        active[place] = Some(slot.serial());
    }
}

/// Where these stand among the loaded controllers, within this room.
fn index_all<C: Controller>(run: &mut Vec<u32>, order: &[Member], slots: &[Slot<C>])
    requires loaded { All (λ m. is_listed (serials_of slots.now) m.serial ≡ true) order.now }
    requires room { length order.now ≤ vec_capacity run.old }
    requires few { length slots.now < 2 ^ 32 }
    ensures { AreAt (serials_of slots.now) order.now run.new.items }
{
    run.clear();
    for member in order {
        run.push_reserved(index_of(slots, member.serial));
    }
}

/// Where the controller of this serial stands among the loaded ones.
#[tactic(auto, using(crate::proofs::ActiveSetLemmas::stands_there))]
fn index_of<C: Controller>(slots: &[Slot<C>], serial: u32) -> u32
    requires loaded { is_listed (serials_of slots.now) serial ≡ true }
    requires few { length slots.now < 2 ^ 32 }
    ensures { slice_get (serials_of slots.now) result ≡ Some serial }
{
    let index = near(slots, serial);
    if let Some(slot) = slots.get(index) {
        if slot.serial() == serial {
            return index as u32;
        }
    }
    position_of(slots, serial).unwrap_or(0) as u32
}

/// Where the controller of this serial stands if those of loaded ones rise. They do; who asks looks whether it stands
/// there.
fn near<C: Controller>(slots: &[Slot<C>], serial: u32) -> usize
    ensures { result ≤ length slots.now }
{
    let mut low = 0;
    let mut high = slots.len();
    while low < high {
        let middle = low + (high - low) / 2;
        if slots[middle].serial() < serial {
            low = middle + 1;
        } else {
            high = middle;
        }
    }
    low
}

/// The place of the controller of this serial among these, where it is one of them.
fn position_of<C: Controller>(slots: &[Slot<C>], serial: u32) -> Option<usize>
    ensures found { result ≡ position (λ l. l.serial == serial) slots.now }
    ensures within { IfSome result (λ index. index < length slots.now) }
{
    slots.iter().position(|slot| slot.serial() == serial)
}
