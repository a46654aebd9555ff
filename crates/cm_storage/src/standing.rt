//! Bodies that stand: one list of them for the records of all cycles that tell them alone.

ghost use Rattle.std.specs.Prelude.{◌≡◌, ◌⊎◌, ◌<◌, ◌^◌, [], true, false, length, is_some, IfOk, IfSome, OnOk, OnErr};
ghost use Rattle.cm_storage.specs.Held.{bodies_in};

use crate::bodies::are_same;
use crate::record::CycleRecord;
use fixed_num::BodyState;
use sequence::{Seq, Shared};
use std::alloc::{AllocError, Global};
use std::marker::Model;

/// The bodies that were told last where nothing else was, and a list of them to be shared by the records of the cycles
/// in which they stand. Contracts see the bodies, and whether a list is ready for the next record.
#[derive(Debug, Drop)]
pub struct Standing {
    told: Vec<BodyState>,
    /// A list of these bodies, once it was made.
    list: Option<Shared<Seq<BodyState>>>,
    /// The same list once more, for the next record.
    next: Option<Shared<Seq<BodyState>>>,
}

impl Model for Standing {
    ghost use Rattle.std.specs.Prelude.{is_some};
    ghost use Rattle.cm_storage.specs.Standing.{StandingFacts, HoldsThem};

    ghost Value = { StandingFacts };

    ghost view = { λ s. record { told = s.told.items; is_ready = is_some s.next } };

    ghost invariant = { λ s. HoldsThem s.told.items s.list s.next };
}

impl Standing {
    /// No body was told yet. It takes no memory.
    pub fn none(alloc: Global) -> Standing
        ensures { result ≡ record { told = []; is_ready = false } }
    {
        Standing {
            told: Vec::new(alloc),
            list: None,
            next: None,
        }
    }

    /// Takes the memory for a cycle of so many joints: for their bodies, and for a list of those that were told last.
    pub fn prepare(&mut self, alloc: Global, joints: usize) -> Result<(), AllocError>
        ensures told { self.new.told ≡ self.old.told }
        ensures ready { OnOk result (0 < length self.old.told → self.new.is_ready ≡ true) }
        ensures kept { OnErr result (self.new ≡ self.old) }
    {
        if self.next.is_some() {
            return Ok(());
        }
        match &self.list {
            Some(list) => {
                self.next = Some(list.share()?);
                Ok(())
            }
            None => self.renew(alloc, joints),
        }
    }

    /// The same, where there is no list of the bodies yet. It stands apart, because few cycles need it.
    #[inline(never)]
    fn renew(&mut self, alloc: Global, joints: usize) -> Result<(), AllocError>
        ensures told { self.new.told ≡ self.old.told }
        ensures ready { OnOk result (0 < length self.old.told → self.new.is_ready ≡ true) }
        ensures kept { OnErr result (self.new ≡ self.old) }
    {
        if self.told.is_empty() {
            return self.told.reserve(joints);
        }
        let list = list_of(alloc, self.told.as_slice())?;
        self.next = Some(list.share()?);
        self.list = Some(list);
        Ok(())
    }

    /// The record of the cycle of this number, in which these bodies alone were told, if a list of them is ready. Else
    /// they are those that were told last from now on, where there is room for them. It takes no memory.
    pub fn tell(&mut self, cycle: u64, bodies: &[BodyState]) -> Option<CycleRecord>
        ensures told { IfSome result (λ made. made ≡ bodies_in cycle bodies.now) }
        ensures ready { self.old.told ≡ bodies.now → cycle < 2 ^ 32 → is_some result ≡ self.old.is_ready }
        ensures after { (self.new.told ≡ bodies.now) ⊎ (self.new.told ≡ []) }
        ensures taken { self.new.is_ready ≡ false }
    {
        if are_same(self.told.as_slice(), bodies) && cycle < 1 << 32 {
            return self.tell_again(cycle as u32);
        }
        self.keep(bodies);
        None
    }

    /// The record of the cycle of this number, in which the same was told, if a list is ready.
    #[tactic(auto, using(crate::proofs::StandingLemmas::told_again))]
    fn tell_again(&mut self, cycle: u32) -> Option<CycleRecord>
        ensures told { IfSome result (λ made. made ≡ bodies_in cycle self.old.told) }
        ensures ready { is_some result ≡ self.old.is_ready }
        ensures after { self.new ≡ record { told = self.old.told; is_ready = false } }
    {
        match self.next.take() {
            Some(list) => Some(CycleRecord::of_bodies(cycle, list)),
            None => None,
        }
    }

    /// These bodies are those that were told last, where there is room for them.
    fn keep(&mut self, bodies: &[BodyState])
        ensures after { (self.new.told ≡ bodies.now) ⊎ (self.new.told ≡ []) }
        ensures taken { self.new.is_ready ≡ false }
    {
        self.list = None;
        self.next = None;
        self.told.clear();
        if bodies.len() <= self.told.capacity() {
            let _kept = self.told.extend_from_slice(bodies);
        }
    }
}

/// A list of these bodies, with one holder.
fn list_of(alloc: Global, bodies: &[BodyState]) -> Result<Shared<Seq<BodyState>>, AllocError>
    ensures { IfOk result (λ list. list ≡ bodies.now) }
{
    let mut list = Vec::with_capacity(alloc, bodies.len())?;
    list.extend_from_slice(bodies)?;
    Shared::new(alloc, Seq::from_vec(list))
}
