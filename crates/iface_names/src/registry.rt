//! Interfaces, numbered in the order in which they are first seen.

ghost use Rattle.std.specs.Prelude.{◌≡◌, ◌↔◌, IsTrue, OnOk, OnErr, length, slice_get, option_copied};
ghost use Rattle.iface_names.specs.Answers.{Answers};
ghost use Rattle.iface_names.specs.Registry.{added, interface_place, IsNumbered};

use crate::interface::IfaceName;
use indexmap::IndexSet;
use std::alloc::{AllocFailed, Global};
use std::marker::Model;
use thiserror::Error;

/// Interfaces by place: the first that is added has place 0, the next 1, and so on. Nothing leaves, so a place stays.
#[derive(Debug, Drop)]
pub struct Registry {
    names: IndexSet<IfaceName>,
    limit: u32,
}

/// Why an interface gets no new place.
#[derive(Clone, Copy, Debug, PartialEq, Eq, Error)]
pub enum RegFault {
    /// It is held already, at this place.
    #[error("taken, at place {0}")]
    Taken(u32),
    /// As many interfaces are held as may be.
    #[error("full")]
    Full,
    /// Memory ran out.
    #[error("out of memory")]
    Memory,
}

impl Model for Registry {
    ghost use Rattle.iface_names.specs.Registry.{Numbered, IsNumbered};

    ghost Value = { Numbered };

    ghost view = { λ r. record { names = r.names.keys; limit = r.limit } };

    ghost invariant = { λ r. IsNumbered (record { names = r.names.keys; limit = r.limit }) };
}

impl Registry {
    ghost use Rattle.std.specs.Prelude.{[]};

    /// A registry for at most `limit` interfaces, which holds none yet; takes no memory.
    pub fn make(alloc: Global, limit: u32) -> Registry
        ensures { result ≡ record { names = []; limit = limit } }
    {
        Registry {
            names: IndexSet::new(alloc),
            limit,
        }
    }

    /// Gives a new interface the next place. It is Taken, with its place, where it is held; else Full where `limit` are
    /// held.
    pub fn add(&mut self, name: IfaceName) -> Result<u32, RegFault>
        ensures answer { Answers RegFault.Memory (added self.old name).0 result }
        ensures ok { OnOk result (self.new ≡ (added self.old name).1) }
        ensures err { OnErr result (self.new ≡ self.old) }
    {
        if let Some(place) = self.place(&name) {
            return Err(RegFault::Taken(place));
        }
        let place = self.len();
        if place >= self.limit {
            return Err(RegFault::Full);
        }
        self.names.insert(name)?;
        Ok(place)
    }

    /// The place of an interface, where it is held.
    pub fn place(&self, name: &IfaceName) -> Option<u32>
        ensures { result ≡ interface_place name.now self.now.names }
    {
        let place = self.names.get_index_of(name)?;
        Some(place as u32)
    }

    /// The interface at a place, where one stands there.
    pub fn at(&self, place: u32) -> Option<&IfaceName>
        ensures { option_copied result ≡ slice_get self.now.names place }
    {
        self.names.get_index(place as usize)
    }

    /// How many interfaces are held.
    pub fn len(&self) -> u32
        ensures count { result ≡ length self.now.names }
        ensures numbered { IsNumbered self.now }
    {
        self.names.len() as u32
    }

    /// Whether none is held.
    pub fn is_empty(&self) -> bool
        ensures { IsTrue result ↔ (self.now.names ≡ []) }
    {
        self.names.is_empty()
    }

    /// How many interfaces may be held.
    pub fn limit(&self) -> u32
        ensures { result ≡ self.now.limit }
    {
        self.limit
    }
}

impl From<AllocFailed<IfaceName>> for RegFault {
    ghost use Rattle.std.specs.Prelude.{◌≡◌};
    ghost use Rattle.iface_names.specs.declared.registry.RegFault.TheVariants.{Memory};

    ghost from_gives = { λ _ e. e ≡ Memory };

    fn from(_refused: AllocFailed<IfaceName>) -> RegFault {
        RegFault::Memory
    }
}
