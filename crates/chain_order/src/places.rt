//! Sets of controllers, as flags by place.

ghost use Rattle.std.specs.Prelude.{◌≡◌, ℕ, ◌<◌, ◌&&◌, ◌||◌, ◌==◌, not, if◌then◌else◌, Bool, true, false, length};
ghost use Rattle.std.specs.Prelude.{replicate, IfOk, All};
ghost use Rattle.cm_model.specs.Order.{set_of, with_one, places_of};

use cm_model::Member;
use fixed_num::Memory;
use std::alloc::Global;
use std::marker::Model;

/// A set of described controllers: a flag for each place. Contracts see the flags, and read the set off them.
#[derive(Debug, Drop)]
pub struct PlaceSet {
    flags: Vec<bool>,
}

impl Model for PlaceSet {
    ghost use Rattle.std.specs.Prelude.{List, Bool};

    ghost Value = { List Bool };

    ghost view = { λ s. s.flags.items };
}

impl PlaceSet {
    /// No controller, of so many that are described.
    pub fn none(alloc: Global, count: usize) -> Result<PlaceSet, Memory>
        ensures { IfOk result (λ set. set ≡ replicate count false) }
    {
        Ok(PlaceSet {
            flags: vec![in alloc; false; count]?,
        })
    }

    /// All controllers, of so many that are described.
    pub fn all(alloc: Global, count: usize) -> Result<PlaceSet, Memory>
        ensures { IfOk result (λ set. set ≡ replicate count true) }
    {
        Ok(PlaceSet {
            flags: vec![in alloc; true; count]?,
        })
    }

    /// The controllers whose flags are true.
    pub fn from_flags(flags: Vec<bool>) -> PlaceSet
        ensures { result ≡ flags.items }
    {
        PlaceSet { flags }
    }

    /// The controllers at the places of these, of so many that are described.
    pub fn of(alloc: Global, count: usize, members: &[Member]) -> Result<PlaceSet, Memory>
        requires { All (λ m. m.place < count) members.now }
        ensures length { IfOk result (λ set. length set ≡ count) }
        ensures set { IfOk result (λ set. set_of set ≡ places_of members.now) }
    {
        let mut set = PlaceSet::none(alloc, count)?;
        for member in members {
            set.insert(member.place);
        }
        Ok(set)
    }

    /// How many controllers are described.
    pub fn len(&self) -> usize
        ensures { result ≡ length self.now }
    {
        self.flags.len()
    }

    /// Whether the controller at this place is a member.
    pub fn has(&self, place: u32) -> bool
        ensures { result ≡ set_of self.now place }
    {
        self.flags.get(place as usize).copied().unwrap_or(false)
    }

    /// The same of a place that indexes.
    pub fn holds(&self, place: usize) -> bool
        ensures { result ≡ set_of self.now place }
    {
        self.flags.get(place).copied().unwrap_or(false)
    }

    /// The controller at this place becomes a member.
    pub fn insert(&mut self, place: u32)
        requires { place < length self.old }
        ensures length { length self.new ≡ length self.old }
        ensures set { set_of self.new ≡ with_one place (set_of self.old) }
    {
        self.flags[place as usize] = true;
    }

    /// The controller at this place becomes a member, or is none any more.
    pub fn put(&mut self, place: u32, is_member: bool)
        requires { place < length self.old }
        ensures length { length self.new ≡ length self.old }
        ensures set { set_of self.new ≡ (λ p. if place == p then is_member else set_of self.old p) }
    {
        self.flags[place as usize] = is_member;
    }

    /// No controller is a member any more.
    pub fn clear(&mut self)
        ensures { self.new ≡ replicate (length self.old) false }
    {
        self.flags.fill(false);
    }

    /// The members that are none of the other set.
    pub fn without(&self, alloc: Global, other: &PlaceSet) -> Result<PlaceSet, Memory>
        ensures length { IfOk result (λ set. length set ≡ length self.now) }
        ensures set { IfOk result (λ set. set_of set ≡ (λ p. set_of self.now p && not (set_of other.now p))) }
    {
        let count = self.len();
        let mut flags = Vec::with_capacity(alloc, count)?;
        for place in 0..count {
            flags.push(self.holds(place) && !other.holds(place))?;
        }
        Ok(PlaceSet { flags })
    }

    /// The members of both sets.
    pub fn both(&self, alloc: Global, other: &PlaceSet) -> Result<PlaceSet, Memory>
        ensures length { IfOk result (λ set. length set ≡ length self.now) }
        ensures set { IfOk result (λ set. set_of set ≡ (λ p. set_of self.now p && set_of other.now p)) }
    {
        let count = self.len();
        let mut flags = Vec::with_capacity(alloc, count)?;
        for place in 0..count {
            flags.push(self.holds(place) && other.holds(place))?;
        }
        Ok(PlaceSet { flags })
    }

    /// The members of one of the sets or of both.
    pub fn either(&self, alloc: Global, other: &PlaceSet) -> Result<PlaceSet, Memory>
        requires { length other.now ≡ length self.now }
        ensures length { IfOk result (λ set. length set ≡ length self.now) }
        ensures set { IfOk result (λ set. set_of set ≡ (λ p. set_of self.now p || set_of other.now p)) }
    {
        let count = self.len();
        let mut flags = Vec::with_capacity(alloc, count)?;
        for place in 0..count {
            flags.push(self.holds(place) || other.holds(place))?;
        }
        Ok(PlaceSet { flags })
    }

    /// The flags, by place.
    pub fn flags(&self) -> &[bool]
        ensures { result.now ≡ self.now }
    {
        &self.flags
    }
}
