//! The registry: which place each interface has.

use iface_names::{IfaceName, Registry};
use pages_cases::pages::{Teller, halves, hold, push_parted};
use std::alloc::Global;
use std::fmt::Display;
use std::test::Fail;

/// Tells what a registry answers. The first line of a paragraph is the most that it has room for; each further line is
/// a call: `add INTERFACE`, answered by its place and by how many are there; `place INTERFACE`; or `at PLACE`.
#[derive(Clone, Copy)]
struct Registries;

impl Teller for Registries {
    fn told(&self, alloc: Global, text: &str) -> Result<String, Fail> {
        let (room, calls) = halves(text, "\n")?;
        let room = room.parse()?;
        let mut answers = String::new(alloc);
        push_answers(alloc, &mut answers, room, calls)?;
        Ok(answers)
    }
}

/// Appends what a registry with this room answers to calls.
fn push_answers(alloc: Global, answers: &mut String, room: u32, calls: &str) -> Result<(), Fail> {
    let mut registry = Registry::make(alloc, room);
    for call in calls.lines() {
        push_answer(alloc, answers, &mut registry, call)?;
    }
    Ok(())
}

fn push_answer(
    alloc: Global,
    answers: &mut String,
    registry: &mut Registry,
    call: &str,
) -> Result<(), Fail> {
    let (verb, what) = halves(call, " ")?;
    match verb {
        "at" => push_interface(answers, registry, what),
        "place" => push_place(alloc, answers, registry, what),
        _ => push_added(alloc, answers, registry, what),
    }
}

/// Appends the interface at a place.
fn push_interface(answers: &mut String, registry: &Registry, place: &str) -> Result<(), Fail> {
    match registry.at(place.parse()?) {
        Some(interface) => push_shown(answers, interface),
        None => push_parted(answers, "; ", "none"),
    }
}

/// Appends the place of an interface.
fn push_place(
    alloc: Global,
    answers: &mut String,
    registry: &Registry,
    text: &str,
) -> Result<(), Fail> {
    let interface = IfaceName::read(alloc, text.as_bytes())?;
    match registry.place(&interface) {
        Some(place) => push_shown(answers, &place),
        None => push_parted(answers, "; ", "none"),
    }
}

/// Appends what comes of an interface that is added, and how many are there then.
fn push_added(
    alloc: Global,
    answers: &mut String,
    registry: &mut Registry,
    text: &str,
) -> Result<(), Fail> {
    let interface = IfaceName::read(alloc, text.as_bytes())?;
    match registry.add(interface) {
        Ok(place) => push_shown(answers, &place)?,
        Err(fault) => push_shown(answers, &fault)?,
    }
    Ok(write!(answers, ", {} there", registry.len())?)
}

fn push_shown<T: Display>(answers: &mut String, shown: &T) -> Result<(), Fail> {
    push_parted(answers, "; ", "")?;
    Ok(write!(answers, "{shown}")?)
}

#[test]
fn interfaces_have_places_in_first_seen_order(rt: HostRuntime) -> Result<(), Fail> {
    hold(rt.alloc(), &Registries, "", CALLS)
}

#[test]
fn a_new_registry_is_empty(rt: HostRuntime) {
    let registry = Registry::make(rt.alloc(), 3);
    assert!(rt; registry.is_empty() && registry.limit() == 3);
}

#[test]
fn the_largest_registry(rt: HostRuntime) -> Result<(), Fail> {
    let mut registry = Registry::make(rt.alloc(), 1_000);
    for index in 0..1_000u32 {
        add(rt.alloc(), &mut registry, index)?;
    }
    assert!(rt; registry.len() == 1_000);
    Ok(())
}

/// An interface more, which has this place.
fn add(alloc: Global, registry: &mut Registry, index: u32) -> Result<(), Fail> {
    let text = format!(in alloc; "controller/joint{index}/effort")?;
    let name = IfaceName::read(alloc, text.as_bytes())?;
    if registry.add(name)? == index {
        return Ok(());
    }
    Err(Fail::new("another place"))
}

/// An interface that is there is refused before a registry that is full; a reference is another interface than the one
/// that it is of.
const CALLS: &str = "\
3
add j1/position
add j1/velocity
add j1/position
add j2/position
add j1/velocity
add j2/effort
add j2/position
=> 0, 1 there; 1, 2 there; taken, at place 0, 2 there; 2, 3 there; taken, at place 1, 3 there; \\
full, 3 there; taken, at place 2, 3 there

3
add j3/effort
add j1/effort
add j2/effort
place j3/effort
place j1/effort
place j2/effort
place j2/position
place j4/effort
at 0
at 2
at 3
=> 0, 1 there; 1, 2 there; 2, 3 there; 0; 1; 2; none; none; j3/effort; j2/effort; none

0
add j1/position
=> full, 0 there

2
add j1/position
place j1/j1/position
add j1/j1/position
=> 0, 1 there; none; 1, 2 there";
