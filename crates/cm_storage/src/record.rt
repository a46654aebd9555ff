//! What happened in one cycle.

ghost use Rattle.std.specs.Prelude.{◌≡◌, [], IfOk};
ghost use Rattle.cm_storage.specs.Ran.{Ran};

use crate::ran::{RanList, Rans};
use fixed_num::BodyState;
use sequence::{Seq, Shared};
use std::alloc::{AllocError, Global};
use std::marker::Model;

/// A component whose read or write failed.
#[derive(Clone, Copy, Debug, PartialEq, Eq)]
pub struct FailedPart {
    /// Its place in the description.
    pub place: u32,
    /// Whether its read failed; otherwise its write did.
    pub reading: bool,
}

/// What a cycle did, part by part.
#[derive(Clone, Debug, Drop)]
pub struct CycleParts {
    /// The cycle's number, from 0.
    pub cycle: u64,
    /// The components that failed: reads before writes, each as described.
    pub failed: Seq<FailedPart>,
    /// The controllers that were updated, in the order of their updates.
    pub ran: RanList,
    /// The bodies after the cycle, one for each joint as described.
    pub bodies: Seq<BodyState>,
    /// The serials of the controllers that were stopped, in the order of the active ones.
    pub stops: Seq<u32>,
}

const _: () = prove!(size_of::<CycleParts>() == 152);

impl CycleParts {
    ghost use Rattle.cm_storage.specs.Held.{tells_nothing, happened_in_parts};

    /// Whether there is nothing to tell but the cycle's number.
    pub(crate) fn tells_nothing(&self) -> bool
        ensures { result ≡ tells_nothing (happened_in_parts self.now) }
    {
        self.failed.as_slice().is_empty()
            && self.ran.is_empty()
            && self.bodies.as_slice().is_empty()
            && self.stops.as_slice().is_empty()
    }
}

/// What happened in one cycle. Contracts see its parts. A cycle of which there is nothing to tell takes no memory, nor
/// does one of bodies that stand.
#[derive(Clone, Debug, Drop)]
pub struct CycleRecord {
    held: Held,
}

/// How a record is kept.
#[derive(Clone, Debug, Drop)]
enum Held {
    /// There is nothing to tell but the cycle's number.
    Quiet(u64),
    /// All parts.
    Whole(Box<CycleParts>),
    /// The number, and bodies, which alone are told: those that stand are kept once for all cycles.
    Bodies(u32, Shared<Seq<BodyState>>),
}

impl Model for CycleRecord {
    ghost use Rattle.cm_storage.specs.Happened.{Happened};

    ghost Value = { Happened };

    ghost use Rattle.cm_storage.specs.Held.{happened};

    ghost view = { λ kept. happened kept.held };
}

impl CycleRecord {
    ghost use Rattle.cm_storage.specs.Held.{bodies_in, happened_in_parts, tells_nothing};

    /// The record of a cycle of which there is nothing to tell. It takes no memory.
    pub fn quiet(cycle: u64) -> CycleRecord
        ensures { result ≡ record { cycle = cycle; failed = []; ran = []; bodies = []; stops = [] } }
    {
        CycleRecord {
            held: Held::Quiet(cycle),
        }
    }

    /// The record of these parts.
    pub fn whole(alloc: Global, parts: CycleParts) -> Result<CycleRecord, AllocError>
        ensures { IfOk result (λ made. made ≡ happened_in_parts parts) }
    {
        Ok(CycleRecord {
            held: Held::Whole(Box::new(alloc, parts)?),
        })
    }

    /// The record of the parts that stand in this place. It takes no memory.
    pub(crate) fn at(place: Box<CycleParts>) -> CycleRecord
        ensures { result ≡ happened_in_parts place.value }
    {
        CycleRecord {
            held: Held::Whole(place),
        }
    }

    /// The record of the cycle of this number that tells these bodies alone. It takes no memory.
    pub(crate) fn of_bodies(cycle: u32, bodies: Shared<Seq<BodyState>>) -> CycleRecord
        ensures { result ≡ bodies_in cycle bodies }
    {
        CycleRecord {
            held: Held::Bodies(cycle, bodies),
        }
    }

    /// The cycle's number.
    pub fn cycle(&self) -> u64
        ensures { result ≡ self.now.cycle }
    {
        match &self.held {
            Held::Quiet(cycle) => *cycle,
            Held::Whole(parts) => parts.cycle,
            Held::Bodies(cycle, _) => u64::from(*cycle),
        }
    }

    /// Whether there is nothing to tell but the cycle's number.
    #[tactic(auto, using(crate::proofs::StandingLemmas::tells_no_body))]
    pub fn tells_nothing(&self) -> bool
        ensures { result ≡ tells_nothing self.now }
    {
        match &self.held {
            Held::Quiet(_) => true,
            Held::Whole(parts) => parts.tells_nothing(),
            Held::Bodies(_, bodies) => bodies.get().as_slice().is_empty(),
        }
    }

    /// The components that failed: reads before writes, each as described.
    pub fn failed(&self) -> &[FailedPart]
        ensures { result.now ≡ self.now.failed }
    {
        match &self.held {
            Held::Quiet(_) => &[],
            Held::Whole(parts) => parts.failed.as_slice(),
            Held::Bodies(_, _) => &[],
        }
    }

    /// The controllers that were updated, in the order of their updates.
    pub fn ran(&self) -> Rans<'_>
        ensures { result ≡ self.now.ran }
    {
        match &self.held {
            Held::Quiet(_) => Rans::none(),
            Held::Whole(parts) => parts.ran.iter(),
            Held::Bodies(_, _) => Rans::none(),
        }
    }

    /// The bodies after the cycle, one for each joint as described.
    pub fn bodies(&self) -> &[BodyState]
        ensures { result.now ≡ self.now.bodies }
    {
        match &self.held {
            Held::Quiet(_) => &[],
            Held::Whole(parts) => parts.bodies.as_slice(),
            Held::Bodies(_, bodies) => bodies.get().as_slice(),
        }
    }

    /// The serials of the controllers that were stopped, in the order of the active ones.
    pub fn stops(&self) -> &[u32]
        ensures { result.now ≡ self.now.stops }
    {
        match &self.held {
            Held::Quiet(_) => &[],
            Held::Whole(parts) => parts.stops.as_slice(),
            Held::Bodies(_, _) => &[],
        }
    }
}
