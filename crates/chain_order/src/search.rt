//! A search over links, from one place.

ghost use Rattle.std.specs.Prelude.{◌≡◌, ◌↔◌, ◌<◌, [], ◌∷◌, ◌++◌, false, length, replicate};
ghost use Rattle.std.specs.Prelude.{slice_index_or, IsTrue, IfNone, IfOk, OnOk, All};
ghost use Rattle.std.specs.Option.{option_to_list};
ghost use Rattle.chain_order.specs.Search.{Searched, Spreads};
ghost use Rattle.chain_order.specs.Ways.{Leads};

use crate::links::Links;
use fixed_num::Memory;
use std::alloc::Global;
use std::marker::Model;

/// The places that a search has reached, and those of them whose links it has not followed yet.
#[derive(Drop)]
struct Search {
    reached: Vec<bool>,
    waiting: Vec<u32>,
}

impl Model for Search {
    ghost use Rattle.chain_order.specs.Search.{Searched};

    ghost Value = { Searched };

    ghost view = { λ s. record { reached = s.reached.items; waiting = s.waiting.items } };
}

/// Whether a way over links leads from a place back to it.
pub fn leads_back(alloc: Global, links: &Links, start: u32) -> Result<bool, Memory>
    requires { start < length links.now }
    ensures { IfOk result (λ yes. IsTrue yes ↔ Leads links.now start start) }
{
    let mut search = Search::new(alloc, links.len())?;
    search.spread(links.row(start))?;
    while let Some(place) = search.next() {
        search.spread(links.row(place))?;
    }
    Ok(search.has_reached(start))
}

impl Search {
    /// A search that has reached none of so many places.
    fn new(alloc: Global, places: u32) -> Result<Search, Memory>
        ensures { IfOk result (λ search. search ≡ record { reached = replicate places false; waiting = [] }) }
    {
        Ok(Search {
            reached: vec![in alloc; false; places as usize]?,
            waiting: Vec::new(alloc),
        })
    }

    /// Whether the place was reached.
    fn has_reached(&self, place: u32) -> bool
        requires { place < length self.now.reached }
        ensures { result ≡ slice_index_or self.now.reached place false }
    {
        self.reached[place as usize]
    }

    /// A place whose links are to be followed now, if one waits.
    fn next(&mut self) -> Option<u32>
        ensures reached { self.new.reached ≡ self.old.reached }
        ensures waiting { self.old.waiting ≡ self.new.waiting ++ option_to_list result }
        ensures none_waits { IfNone result (self.old.waiting ≡ []) }
    {
        self.waiting.pop()
    }

    /// Comes to each of these places.
    fn spread(&mut self, places: &[u32]) -> Result<(), Memory>
        requires { All (λ p. p < length self.old.reached) places.now }
        ensures { OnOk result (Spreads self.old self.new places.now) }
    {
        for place in places {
            self.reach(*place)?;
        }
        Ok(())
    }

    /// Comes to a place: it waits from now on, unless it was reached before.
    fn reach(&mut self, place: u32) -> Result<(), Memory>
        requires { place < length self.old.reached }
        ensures { OnOk result (Spreads self.old self.new (place ∷ [])) }
    {
        if !self.reached[place as usize] {
            self.reached[place as usize] = true;
            self.waiting.push(place)?;
        }
        Ok(())
    }
}
