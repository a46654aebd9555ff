//! The wanted controllers: where they are described, and what speaks against them whatever else is wanted.

ghost use Rattle.std.specs.Prelude.{◌≡◌, ◌<◌, [], length, option_map, All, IfOk, IfSome};
ghost use Rattle.std.specs.List.{list_any};
ghost use Rattle.iface_names.specs.Names.{same_name};
ghost use Rattle.sequence.specs.Answers.{Answers};
ghost use Rattle.cm_document.specs.Valid.{repeated_after};
ghost use Rattle.cm_model.specs.Kinds.{is_refused};
ghost use Rattle.spawn_plan.specs.Wanted.{place_in, places_in, each_once, have_blanks, can_be_configured};

use crate::fault::SpawnFault;
use cm_document::{Checked, CtlDesc, Params};
use cm_model::Blanks;
use iface_names::Name;
use sequence::Seq;
use std::alloc::Global;

/// The places of the wanted controllers, in the wanted order; or the first name that is not described.
pub fn places_in(alloc: Global, checked: &Checked, wanted: &[Name]) -> Result<Seq<u32>, SpawnFault>
    ensures places { Answers SpawnFault.Memory (places_in checked.now.controllers wanted.now) result }
    ensures within { IfOk result (λ places. All (λ place. place < length checked.now.controllers) places) }
{
    let mut places = Seq::new(alloc);
    for name in wanted {
        match place_in(checked, name) {
            Some(place) => places.push(place)?,
            None => return Err(SpawnFault::NotDescribed(name.clone()?)),
        }
    }
    Ok(places)
}

/// The place of the described controller of this name.
fn place_in(checked: &Checked, name: &Name) -> Option<u32>
    ensures place { result ≡ place_in checked.now.controllers name.now }
    ensures within { IfSome result (λ place. place < length checked.now.controllers) }
{
    let place = position(checked.description().controllers.as_slice(), name)?;
    Some(place as u32)
}

/// Where the controller of this name stands.
fn position(controllers: &[CtlDesc], name: &Name) -> Option<usize>
    ensures place { result ≡ place_in controllers.now name.now }
    ensures within { IfSome result (λ place. place < length controllers.now) }
{
    controllers
        .iter()
        .position(|controller| controller.name == *name)
}

/// No name is wanted twice; else the first that stands earlier too.
pub fn each_once(wanted: &[Name]) -> Result<(), SpawnFault>
    ensures { Answers SpawnFault.Memory (each_once wanted.now) result }
{
    match repeated(wanted) {
        Some(name) => Err(SpawnFault::Twice(name.clone()?)),
        None => Ok(()),
    }
}

/// The first name that stands earlier in the list too.
fn repeated(names: &[Name]) -> Option<&Name>
    ensures { option_map (λ name. name.now) result ≡ repeated_after same_name [] names.now }
{
    for (index, name) in names.iter().enumerate() {
        if is_among(name, &names[..index]) {
            return Some(name);
        }
    }
    None
}

/// Whether the name is among these.
fn is_among(name: &Name, names: &[Name]) -> bool
    ensures { result ≡ list_any (same_name name.now) names.now }
{
    names.iter().any(|other| *name == *other)
}

/// Each takes a blank of its kind; else the first for which those before it have used them up.
pub fn have_blanks(
    controllers: &[CtlDesc],
    blanks: &Blanks,
    places: &[u32],
) -> Result<(), SpawnFault>
    requires { All (λ place. place < length controllers.now) places.now }
    ensures { Answers SpawnFault.Memory (have_blanks controllers.now blanks.now places.now) result }
{
    let mut left = blanks.copied();
    for place in places {
        let controller = &controllers[*place as usize];
        let kind = controller.params.kind();
        let count = left.of(kind);
        if count == 0 {
            return Err(SpawnFault::NoBlank(controller.name.clone()?));
        }
        left = left.with(kind, count - 1);
    }
    Ok(())
}

/// None refuses to be configured; else the first that does.
pub fn can_be_configured(controllers: &[CtlDesc], places: &[u32]) -> Result<(), SpawnFault>
    requires { All (λ place. place < length controllers.now) places.now }
    ensures { Answers SpawnFault.Memory (can_be_configured controllers.now places.now) result }
{
    for place in places {
        let controller = &controllers[*place as usize];
        if is_refused(&controller.params) {
            return Err(SpawnFault::RefusesConfig(controller.name.clone()?));
        }
    }
    Ok(())
}

/// Whether these parameters refuse to be configured.
fn is_refused(params: &Params) -> bool
    ensures { result ≡ is_refused params.now }
{
    match params {
        Params::Mock { refuse_config, .. } => *refuse_config,
        _ => false,
    }
}
