//! The rules for one value, by what it is read as.

ghost use Rattle.std.specs.Prelude.{◌≡◌};
ghost use Rattle.std.specs.List.{list_any};
ghost use Rattle.sequence.specs.Answers.{Answers};
ghost use Rattle.toml.specs.View.{view};
ghost use Rattle.cm_document.specs.Forms.{whole_in, where_some, quantity_in, boolean_in};
ghost use Rattle.cm_document.specs.Forms.{name_in, interface_in, state_in, new_kind, kind_in};
ghost use Rattle.cm_document.specs.Reading.{fault_as};
ghost use Rattle.iface_names.specs.Interfaces.{same_kind};

use crate::faults::Refused;
use crate::forms::Rule;
use cm_document::Wrong;
use fixed_num::Fx;
use iface_names::{IfaceName, Kind, Name};
use std::alloc::Global;
use toml::Value;

/// An integer from 0 to 4,294,967,295.
#[derive(Drop)]
pub struct Whole;

impl Rule for Whole {
    type Read = u32;

    ghost rule = { λ _. whole_in };

    fn read(_alloc: Global, _before: &[u32], value: &Value) -> Result<u32, Refused> {
        Ok(whole_of(value)?)
    }
}

/// The number of a cycle, a whole.
#[derive(Drop)]
pub struct Cycle;

impl Rule for Cycle {
    type Read = u64;

    ghost rule = { λ _. whole_in };

    fn read(_alloc: Global, _before: &[u64], value: &Value) -> Result<u64, Refused> {
        Ok(u64::from(whole_of(value)?))
    }
}

/// A whole.
pub fn whole_of(value: &Value) -> Result<u32, Wrong>
    ensures { result ≡ whole_in (view value.now) }
{
    match value {
        Value::Integer(number) => match u32::try_from(*number) {
            Ok(number) => Ok(number),
            Err(_) => Err(Wrong::Value),
        },
        Value::Float(_) => Err(Wrong::Float),
        _ => Err(Wrong::Value),
    }
}

/// An integer of whole units within a thousand million on both sides, or the text of a number.
#[derive(Drop)]
pub struct Quantity;

impl Rule for Quantity {
    type Read = Fx;

    ghost rule = { λ _. quantity_in };

    fn read(_alloc: Global, _before: &[Fx], value: &Value) -> Result<Fx, Refused> {
        Ok(quantity_of(value)?)
    }
}

fn quantity_of(value: &Value) -> Result<Fx, Wrong>
    ensures { result ≡ quantity_in (view value.now) }
{
    match value {
        Value::Integer(number) => where_some(Fx::from_units(*number)),
        Value::String(text) => match Fx::read(text.as_bytes()) {
            Ok(number) => Ok(number),
            Err(_) => Err(Wrong::Value),
        },
        Value::Float(_) => Err(Wrong::Float),
        _ => Err(Wrong::Value),
    }
}

/// A value that is there; none is not of the form.
pub fn where_some<T: Copy>(value: Option<T>) -> Result<T, Wrong>
    ensures { result ≡ where_some value }
{
    match value {
        Some(value) => Ok(value),
        None => Err(Wrong::Value),
    }
}

/// `true` or `false`.
#[derive(Drop)]
pub struct Boolean;

impl Rule for Boolean {
    type Read = bool;

    ghost rule = { λ _. boolean_in };

    fn read(_alloc: Global, _before: &[bool], value: &Value) -> Result<bool, Refused> {
        match value {
            Value::Boolean(b) => Ok(*b),
            _ => Err(Refused::Wrong(Wrong::Value)),
        }
    }
}

/// A text by the naming rule.
#[derive(Drop)]
pub struct Named;

impl Rule for Named {
    type Read = Name;

    ghost rule = { λ _. name_in };

    fn read(alloc: Global, _before: &[Name], value: &Value) -> Result<Name, Refused> {
        match value {
            Value::String(text) => Ok(Name::read(alloc, text.as_bytes())?),
            _ => Err(Refused::Wrong(Wrong::Value)),
        }
    }
}

/// A text that names an interface.
#[derive(Drop)]
pub struct Interface;

impl Rule for Interface {
    type Read = IfaceName;

    ghost rule = { λ _. interface_in };

    fn read(alloc: Global, _before: &[IfaceName], value: &Value) -> Result<IfaceName, Refused> {
        interface_of(alloc, value)
    }
}

fn interface_of(alloc: Global, value: &Value) -> Result<IfaceName, Refused>
    ensures { Answers Refused.Memory (fault_as Refused.Wrong (interface_in (view value.now))) result }
{
    match value {
        Value::String(text) => Ok(IfaceName::read(alloc, text.as_bytes())?),
        _ => Err(Refused::Wrong(Wrong::Value)),
    }
}

/// An interface of a joint.
#[derive(Drop)]
pub struct State;

impl Rule for State {
    type Read = IfaceName;

    ghost rule = { λ _. state_in };

    fn read(alloc: Global, _before: &[IfaceName], value: &Value) -> Result<IfaceName, Refused> {
        match interface_of(alloc, value)? {
            IfaceName::Joint { joint, kind } => Ok(IfaceName::Joint { joint, kind }),
            IfaceName::Reference { .. } => Err(Refused::Wrong(Wrong::Value)),
        }
    }
}

/// The word of a kind of interface that does not stand among those before it.
#[derive(Drop)]
pub struct NewKind;

impl Rule for NewKind {
    type Read = Kind;

    ghost rule = { kind_in };

    fn read(_alloc: Global, before: &[Kind], value: &Value) -> Result<Kind, Refused> {
        match value {
            Value::String(text) => Ok(new_kind(before, Kind::read(text.as_bytes()))?),
            _ => Err(Refused::Wrong(Wrong::Value)),
        }
    }
}

fn new_kind(before: &[Kind], kind: Option<Kind>) -> Result<Kind, Wrong>
    ensures { result ≡ new_kind before.now kind }
{
    match kind {
        Some(kind) if !stands_in(before, kind) => Ok(kind),
        _ => Err(Wrong::Value),
    }
}

fn stands_in(kinds: &[Kind], kind: Kind) -> bool
    ensures { result ≡ list_any (same_kind kind) kinds.now }
{
    kinds.iter().any(|other| kind == *other)
}
