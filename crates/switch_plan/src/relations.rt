//! Which controllers have to do with which, worked out of a description once: a request then looks up no name of an
//! interface, and finds the place of a controller's name at once.

ghost use Rattle.std.specs.Prelude.{◌≡◌, ◌<◌, ◌^◌, ◌++◌, not, ◌&&◌, ◌||◌, ◌==◌, length, map, filter_map};
ghost use Rattle.std.specs.Prelude.{position, IfOk, OnOk};
ghost use Rattle.std.specs.List.{list_any, IsDistinct};
ghost use Rattle.iface_names.specs.Names.{same_name};
ghost use Rattle.iface_names.specs.Interfaces.{same_interface};
ghost use Rattle.cm_model.specs.Faults.{component_with, is_beside};
ghost use Rattle.chain_order.specs.Links.{places_below, each_below, linked};
ghost use Rattle.switch_plan.specs.Relations.{at_odds, odds_of, components_at, relations_of};

use crate::interfaces::{claims, claims_beside, component_with};
use chain_order::{Links, heights};
use cm_document::{Checked, CompDesc, CtlDesc, Description};
use fixed_num::Memory;
use iface_names::{IfaceName, Name};
use indexmap::IndexSet;
use sequence::Seq;
use std::alloc::Global;
use std::marker::Model;

/// For each described controller, by place, whom and what it has to do with. It rests on the description alone, and is
/// made once for all requests.
#[derive(Drop)]
pub struct Relations {
    /// Its name.
    names: IndexSet<Name>,
    /// Those that precede it.
    leaders: Links,
    /// Those that it precedes.
    followers: Links,
    /// Those that cannot be active beside it.
    odds: Links,
    /// The components of what it claims and reads.
    components: Seq<Seq<usize>>,
    /// Its height, by which controllers join a best effort.
    heights: Vec<u32>,
}

impl Model for Relations {
    ghost use Rattle.std.specs.List.{IsDistinct};
    ghost use Rattle.iface_names.specs.Names.{same_name};
    ghost use Rattle.switch_plan.specs.Relations.{Related};

    ghost Value = { Related };

    ghost view = { λ w. record {
      names = w.names.keys;
      leaders = w.leaders;
      followers = w.followers;
      odds = w.odds;
      components = w.components;
      heights = w.heights.items;
    } };

    ghost invariant = { λ w. IsDistinct same_name w.names.keys };
}

impl Relations {
    /// The relations of a description.
    pub fn of(alloc: Global, checked: &Checked) -> Result<Relations, Memory>
        ensures { IfOk result (λ relations. relations ≡ relations_of checked.now) }
    {
        let description = checked.description();
        let names = names(alloc, checked)?;
        let heights = heights(alloc, checked)?;
        let components = components(alloc, description)?;
        let odds = odds(alloc, description.controllers.as_slice())?;
        let followers = Links::followers_in(alloc, checked)?;
        let leaders = Links::leaders_in(alloc, checked)?.in_sequence(alloc)?;
        Ok(Relations {
            names,
            leaders,
            followers,
            odds,
            components,
            heights,
        })
    }

    /// The place of the controller of this name, if one is described.
    pub(crate) fn place_of(&self, name: &Name) -> Option<usize>
        ensures place { result ≡ position (same_name name.now) self.now.names }
        ensures distinct { IsDistinct same_name self.now.names }
    {
        self.names.get_index_of(name)
    }

    /// Each controller with those that precede it.
    pub fn leaders(&self) -> &Links
        ensures { result.now ≡ self.now.leaders }
    {
        &self.leaders
    }

    /// The controllers that the one at a place precedes.
    pub fn followers(&self, place: u32) -> &[u32]
        requires { place < length self.now.followers }
        ensures { result.now ≡ linked self.now.followers place }
    {
        self.followers.row(place)
    }

    /// The controllers that the one at a place is at odds with.
    pub fn odds(&self, place: u32) -> &[u32]
        requires { place < length self.now.odds }
        ensures { result.now ≡ linked self.now.odds place }
    {
        self.odds.row(place)
    }

    /// The height of each controller.
    pub fn heights(&self) -> &[u32]
        ensures { result.now ≡ self.now.heights }
    {
        &self.heights
    }

    /// The components of what the controller at a place claims and reads.
    pub fn components(&self, place: u32) -> &[usize]
        requires { place < length self.now.components }
        ensures { result.now ≡ linked self.now.components place }
    {
        self.components.as_slice()[place as usize].as_slice()
    }
}

/// The names of the controllers, each at its place.
fn names(alloc: Global, checked: &Checked) -> Result<IndexSet<Name>, Memory>
    ensures distinct { IfOk result (λ names. IsDistinct same_name names.keys) }
    ensures names { IfOk result (λ names. names.keys ≡ map (λ c. c.name) checked.now.controllers) }
{
    let controllers = checked.description().controllers.as_slice();
    let mut names = IndexSet::with_capacity(alloc, controllers.len())?;
    for controller in controllers {
        names.insert(controller.name.clone()?)?;
    }
    Ok(names)
}

/// Each controller with those that it is at odds with.
fn odds(alloc: Global, controllers: &[CtlDesc]) -> Result<Links, Memory>
    requires { length controllers.now < 2 ^ 32 }
    ensures { IfOk result (λ links. links ≡ odds_of controllers.now) }
{
    let mut rows = Seq::new(alloc);
    for place in 0..controllers.len() as u32 {
        rows.push(odds_with(alloc, controllers, place)?)?;
    }
    Ok(Links::from_rows(alloc, rows))
}

/// The places of the controllers that this one is at odds with, ascending.
fn odds_with(alloc: Global, controllers: &[CtlDesc], place: u32) -> Result<Seq<u32>, Memory>
    requires few { length controllers.now < 2 ^ 32 }
    requires within { place < length controllers.now }
    ensures { IfOk result (λ places. places ≡ places_below (at_odds controllers.now place) (length controllers.now)) }
{
    let mut places = Seq::new(alloc);
    for other in 0..controllers.len() as u32 {
        if at_odds(controllers, place, other) {
            places.push(other)?;
        }
    }
    Ok(places)
}

/// Whether two controllers are at odds.
fn at_odds(controllers: &[CtlDesc], place: u32, other: u32) -> bool
    requires here { place < length controllers.now }
    requires there { other < length controllers.now }
    ensures { result ≡ at_odds controllers.now place other }
{
    let (here, there) = (&controllers[place as usize], &controllers[other as usize]);
    are_at_odds(here, there, other == place)
}

/// Whether two controllers are at odds, which may be one and the same.
fn are_at_odds(one: &CtlDesc, other: &CtlDesc, same: bool) -> bool
    ensures { result ≡ list_any (λ i. (not same && list_any (λ claim. same_interface claim i) other.now.claims)
        || list_any (is_beside i) other.now.claims) one.now.claims }
{
    one.claims
        .as_slice()
        .iter()
        .any(|claim| claims_against(other, claim, same))
}

/// Whether a controller claims an interface of another one, or another command interface of its joint.
fn claims_against(other: &CtlDesc, claim: &IfaceName, same: bool) -> bool
    ensures { result ≡ ((not same && list_any (λ own. same_interface own claim.now) other.now.claims)
        || list_any (is_beside claim.now) other.now.claims) }
{
    (!same && claims(other, claim)) || claims_beside(other, claim)
}

/// Each controller with the components of what it claims and reads.
fn components(alloc: Global, description: &Description) -> Result<Seq<Seq<usize>>, Memory>
    ensures { IfOk result (λ rows. rows
        ≡ each_below (components_at description.now) (length description.now.controllers)) }
{
    let controllers = description.controllers.as_slice();
    let mut rows = Seq::new(alloc);
    for place in 0..controllers.len() {
        rows.push(components_of(alloc, description, &controllers[place])?)?;
    }
    Ok(rows)
}

/// The components of what a controller claims, and then of what it reads.
fn components_of(
    alloc: Global,
    description: &Description,
    controller: &CtlDesc,
) -> Result<Seq<usize>, Memory>
    ensures { IfOk result (λ row. row ≡ filter_map (component_with description.now.components) controller.now.claims
        ++ filter_map (component_with description.now.components) controller.now.reads) }
{
    let components = description.components.as_slice();
    let mut row = Seq::new(alloc);
    push_components(&mut row, components, controller.claims.as_slice())?;
    push_components(&mut row, components, controller.reads())?;
    Ok(row)
}

/// Appends the components of these interfaces, where they have one.
fn push_components(
    row: &mut Seq<usize>,
    components: &[CompDesc],
    interfaces: &[IfaceName],
) -> Result<(), Memory>
    ensures { OnOk result (row.new ≡ row.old ++ filter_map (component_with components.now) interfaces.now) }
{
    for interface in interfaces {
        if let Some(place) = component_with(components, interface) {
            row.push(place)?;
        }
    }
    Ok(())
}
