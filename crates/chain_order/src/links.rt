//! Which controllers precede which, by place.

ghost use Rattle.std.specs.Prelude.{◌≡◌, ◌<◌, ◌^◌, length, IfOk, All};
ghost use Rattle.std.specs.List.{list_any};
ghost use Rattle.iface_names.specs.Interfaces.{same_interface};
ghost use Rattle.cm_document.specs.Links.{precedes, is_among, refs_of, reference_for};
ghost use Rattle.cm_model.specs.Order.{precedes_at};
ghost use Rattle.chain_order.specs.Links.{places_below, links_of, leaders_of, linked, IsLinks};

use crate::places::PlaceSet;
use crate::ranks::{places_by_rank, ranks_over};
use cm_document::{Checked, CtlDesc};
use fixed_num::Memory;
use iface_names::{IfaceName, Name};
use sequence::Seq;
use std::alloc::Global;
use std::marker::Model;

/// For each described controller, by place, the places of the controllers that it is linked to.
#[derive(Debug, Drop)]
pub struct Links {
    rows: Seq<Seq<u32>>,
    /// The places in a sequence in which ranks are found at once, each behind those that it is linked to; none where it
    /// was not worked out. Nothing but speed rests on it.
    sequence: Vec<u32>,
}

impl Model for Links {
    ghost use Rattle.std.specs.Prelude.{List, ℕ};
    ghost use Rattle.chain_order.specs.Links.{IsLinks};

    ghost Value = { List (List ℕ) };

    ghost view = { λ l. l.rows };

    ghost invariant = { λ l. IsLinks l.rows };
}

impl Links {
    /// The links from each controller to those that it precedes: every claim is looked up here, once.
    pub fn resolve(alloc: Global, controllers: &[CtlDesc]) -> Result<Links, Memory>
        requires { length controllers.now < 2 ^ 32 }
        ensures { IfOk result (λ links. links ≡ links_of controllers.now) }
    {
        let mut rows = Seq::new(alloc);
        for place in 0..controllers.len() as u32 {
            rows.push(followers(alloc, controllers, place)?)?;
        }
        Ok(Links {
            rows,
            sequence: Vec::new(alloc),
        })
    }

    /// The links from each controller of a valid description to those that it precedes.
    pub fn followers_in(alloc: Global, checked: &Checked) -> Result<Links, Memory>
        ensures { IfOk result (λ links. links ≡ links_of checked.now.controllers) }
    {
        Links::resolve(alloc, checked.description().controllers.as_slice())
    }

    /// The links from each controller of a valid description to those that precede it.
    pub fn leaders_in(alloc: Global, checked: &Checked) -> Result<Links, Memory>
        ensures { IfOk result (λ links. links ≡ leaders_of checked.now.controllers) }
    {
        Links::to_leaders(alloc, checked.description().controllers.as_slice())
    }

    /// The links from each controller to those that precede it.
    fn to_leaders(alloc: Global, controllers: &[CtlDesc]) -> Result<Links, Memory>
        requires { length controllers.now < 2 ^ 32 }
        ensures { IfOk result (λ links. links ≡ leaders_of controllers.now) }
    {
        let mut rows = Seq::new(alloc);
        for place in 0..controllers.len() as u32 {
            rows.push(leaders(alloc, controllers, place)?)?;
        }
        Ok(Links {
            rows,
            sequence: Vec::new(alloc),
        })
    }

    /// Links with these rows.
    pub fn from_rows(alloc: Global, rows: Seq<Seq<u32>>) -> Links
        requires { IsLinks rows }
        ensures { result ≡ rows }
    {
        Links {
            rows,
            sequence: Vec::new(alloc),
        }
    }

    /// The same links, with the sequence in which ranks over them are found at once.
    pub fn in_sequence(self, alloc: Global) -> Result<Links, Memory>
        ensures { IfOk result (λ links. links ≡ self) }
    {
        let all = PlaceSet::all(alloc, self.len() as usize)?;
        let ranks = ranks_over(alloc, &self, all.flags())?;
        let sequence = places_by_rank(alloc, &ranks)?;
        Ok(Links {
            rows: self.rows,
            sequence,
        })
    }

    /// The sequence in which ranks are found at once, where it was worked out.
    pub(crate) fn sequence(&self) -> &[u32] {
        &self.sequence
    }

    /// How many places there are.
    pub fn len(&self) -> u32
        ensures { result ≡ length self.now }
    {
        self.rows.as_slice().len() as u32
    }

    /// The places that this one is linked to, ascending.
    pub fn row(&self, place: u32) -> &[u32]
        requires { place < length self.now }
        ensures row { result.now ≡ linked self.now place }
        ensures within { All (λ p. p < length self.now) result.now }
    {
        self.rows.as_slice()[place as usize].as_slice()
    }
}

/// The places of the controllers that this one precedes, ascending.
fn followers(alloc: Global, controllers: &[CtlDesc], place: u32) -> Result<Seq<u32>, Memory>
    requires few { length controllers.now < 2 ^ 32 }
    requires within { place < length controllers.now }
    ensures { IfOk result (λ places. places
        ≡ places_below (precedes_at controllers.now place) (length controllers.now)) }
{
    let mut places = Seq::new(alloc);
    for other in 0..controllers.len() as u32 {
        if precedes_at(controllers, place, other) {
            places.push(other)?;
        }
    }
    Ok(places)
}

/// The places of the controllers that precede this one, ascending.
fn leaders(alloc: Global, controllers: &[CtlDesc], place: u32) -> Result<Seq<u32>, Memory>
    requires few { length controllers.now < 2 ^ 32 }
    requires within { place < length controllers.now }
    ensures { IfOk result (λ places. places
        ≡ places_below (λ q. precedes_at controllers.now q place) (length controllers.now)) }
{
    let mut places = Seq::new(alloc);
    for other in 0..controllers.len() as u32 {
        if precedes_at(controllers, other, place) {
            places.push(other)?;
        }
    }
    Ok(places)
}

/// Whether the controller at the first place precedes the one at the second.
fn precedes_at(controllers: &[CtlDesc], place: u32, other: u32) -> bool
    requires here { place < length controllers.now }
    requires there { other < length controllers.now }
    ensures { result ≡ precedes_at controllers.now place other }
{
    precedes(&controllers[place as usize], &controllers[other as usize])
}

/// Whether the one controller precedes the other: it claims a reference of it.
pub fn precedes(controller: &CtlDesc, other: &CtlDesc) -> bool
    ensures { result ≡ precedes controller.now other.now }
{
    controller
        .claims
        .as_slice()
        .iter()
        .any(|claim| exports(other, claim))
}

/// Whether the interface is a reference of the controller.
#[tactic(auto, using(sequence::proofs::ListLemmas::any_map))]
pub fn exports(controller: &CtlDesc, interface: &IfaceName) -> bool
    ensures { result ≡ is_among interface.now (refs_of controller.now) }
{
    is_any_reference(interface, &controller.name, controller.exported_for())
}

/// Whether a claim is a reference of the controller of this name, which exports one for each of its own interfaces
/// here.
fn is_any_reference(claim: &IfaceName, controller: &Name, own: &[IfaceName]) -> bool
    ensures { result ≡ list_any (λ i. same_interface claim.now (reference_for controller.now i)) own.now }
{
    own.iter()
        .any(|interface| is_reference_for(claim, controller, interface))
}

/// Whether a claim is the reference of the controller of this name that stands for one of its own interfaces.
fn is_reference_for(claim: &IfaceName, controller: &Name, own: &IfaceName) -> bool
    ensures { result ≡ same_interface claim.now (reference_for controller.now own.now) }
{
    let IfaceName::Reference {
        controller: exporter,
        joint,
        kind,
    } = claim
    else {
        return false;
    };
    let (IfaceName::Joint {
        joint: own_joint,
        kind: own_kind,
    }
    | IfaceName::Reference {
        joint: own_joint,
        kind: own_kind,
        ..
    }) = own;
    exporter == controller && joint == own_joint && kind == own_kind
}
