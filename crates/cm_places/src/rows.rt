//! The rows of places: one for each controller, or one for each interface.

ghost use Rattle.std.specs.Prelude.{◌≡◌, ◌<◌, ◌^◌, true, map, filter_map, length, IfOk};
ghost use Rattle.iface_names.specs.declared.interface.IfaceName.{IfaceName};
ghost use Rattle.cm_document.specs.Links.{refs_of};
ghost use Rattle.cm_model.specs.Scene.{claims_at};
ghost use Rattle.chain_order.specs.Links.{places_below};
ghost use Rattle.cm_places.specs.Listing.{state_in, command_in, claimers_in};

use crate::listed::ListedInterface;
use crate::names::{claims, command_place, state_place};
use cm_document::CtlDesc;
use fixed_num::Memory;
use iface_names::IfaceName;
use sequence::Seq;
use std::alloc::Global;

// ---- Of controllers

/// For each controller, the places of what it reads.
pub(crate) fn reads(
    alloc: Global,
    listed: &[ListedInterface],
    controllers: &[CtlDesc],
) -> Result<Seq<Seq<u32>>, Memory>
    requires { length listed.now < 2 ^ 32 }
    ensures { IfOk result (λ rows. rows ≡ map (λ c. filter_map (state_in listed.now) c.reads) controllers.now) }
{
    let mut rows = Seq::new(alloc);
    for controller in controllers {
        rows.push(state_places(alloc, listed, controller.reads())?)?;
    }
    Ok(rows)
}

/// The places of the state interfaces of these names.
fn state_places(
    alloc: Global,
    listed: &[ListedInterface],
    names: &[IfaceName],
) -> Result<Seq<u32>, Memory>
    requires { length listed.now < 2 ^ 32 }
    ensures { IfOk result (λ places. places ≡ filter_map (state_in listed.now) names.now) }
{
    let mut places = Seq::new(alloc);
    for name in names {
        if let Some(place) = state_place(listed, name) {
            places.push(place)?;
        }
    }
    Ok(places)
}

/// For each controller, the places of its references.
pub(crate) fn references(
    alloc: Global,
    listed: &[ListedInterface],
    controllers: &[CtlDesc],
) -> Result<Seq<Seq<u32>>, Memory>
    requires { length listed.now < 2 ^ 32 }
    ensures { IfOk result
        (λ rows. rows ≡ map (λ c. filter_map (command_in listed.now) (refs_of c)) controllers.now) }
{
    let mut rows = Seq::new(alloc);
    for controller in controllers {
        rows.push(reference_places(alloc, listed, controller)?)?;
    }
    Ok(rows)
}

/// The places of the references of a controller.
fn reference_places(
    alloc: Global,
    listed: &[ListedInterface],
    controller: &CtlDesc,
) -> Result<Seq<u32>, Memory>
    requires { length listed.now < 2 ^ 32 }
    ensures { IfOk result (λ places. places ≡ filter_map (command_in listed.now) (refs_of controller.now)) }
{
    let mut places = Seq::new(alloc);
    for interface in controller.exported_for() {
        let name = controller.reference_for(interface)?;
        if let Some(place) = command_place(listed, &name) {
            places.push(place)?;
        }
    }
    Ok(places)
}

/// For each controller, the places of what it claims.
pub(crate) fn claims_of(
    alloc: Global,
    listed: &[ListedInterface],
    controllers: &[CtlDesc],
) -> Result<Seq<Seq<u32>>, Memory>
    requires { length listed.now < 2 ^ 32 }
    ensures { IfOk result (λ rows. rows ≡ map (λ c. filter_map (command_in listed.now) c.claims) controllers.now) }
{
    let mut rows = Seq::new(alloc);
    for controller in controllers {
        rows.push(command_places(alloc, listed, controller.claims.as_slice())?)?;
    }
    Ok(rows)
}

/// The places of the command interfaces and references of these names.
fn command_places(
    alloc: Global,
    listed: &[ListedInterface],
    names: &[IfaceName],
) -> Result<Seq<u32>, Memory>
    requires { length listed.now < 2 ^ 32 }
    ensures { IfOk result (λ places. places ≡ filter_map (command_in listed.now) names.now) }
{
    let mut places = Seq::new(alloc);
    for name in names {
        if let Some(place) = command_place(listed, name) {
            places.push(place)?;
        }
    }
    Ok(places)
}

// ---- Of interfaces

/// For each interface, the controllers that claim it.
pub(crate) fn claimers(
    alloc: Global,
    listed: &[ListedInterface],
    controllers: &[CtlDesc],
) -> Result<Seq<Seq<u32>>, Memory>
    requires { length controllers.now < 2 ^ 32 }
    ensures { IfOk result (λ rows. rows ≡ map (claimers_in controllers.now) listed.now) }
{
    let mut rows = Seq::new(alloc);
    for each in listed {
        rows.push(claimers_in(alloc, controllers, each)?)?;
    }
    Ok(rows)
}

/// The controllers that claim a listed interface; nobody claims a state interface.
fn claimers_in(
    alloc: Global,
    controllers: &[CtlDesc],
    listed: &ListedInterface,
) -> Result<Seq<u32>, Memory>
    requires { length controllers.now < 2 ^ 32 }
    ensures { IfOk result (λ places. places ≡ claimers_in controllers.now listed.now) }
{
    if listed.is_command {
        claiming(alloc, controllers, &listed.name)
    } else {
        Ok(Seq::new(alloc))
    }
}

/// The places of the controllers that claim the interface of this name, ascending.
fn claiming(alloc: Global, controllers: &[CtlDesc], name: &IfaceName) -> Result<Seq<u32>, Memory>
    requires { length controllers.now < 2 ^ 32 }
    ensures { IfOk result (λ places. places
        ≡ places_below (λ p. claims_at controllers.now p name.now) (length controllers.now)) }
{
    let mut places = Seq::new(alloc);
    for place in 0..controllers.len() as u32 {
        if claims_at(controllers, place, name) {
            places.push(place)?;
        }
    }
    Ok(places)
}

/// Whether the controller at a place claims the interface of this name.
fn claims_at(controllers: &[CtlDesc], place: u32, name: &IfaceName) -> bool
    requires { place < length controllers.now }
    ensures { result ≡ claims_at controllers.now place name.now }
{
    claims(&controllers[place as usize], name)
}

/// For each interface, the controller that exports it.
pub(crate) fn exporters(
    alloc: Global,
    listed: &[ListedInterface],
) -> Result<Seq<Option<u32>>, Memory>
    ensures { IfOk result (λ exporters. exporters ≡ map (λ each. each.exporter) listed.now) }
{
    let mut exporters = Seq::new(alloc);
    for each in listed {
        exporters.push(each.exporter)?;
    }
    Ok(exporters)
}
