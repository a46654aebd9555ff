//! A controller whose outputs are values that were set, of any kind that gives what is wanted of it.

use cm_document::{CtlKind, Mail, Params};
use cm_model::Tick;
use cm_storage::Done;
use ctl_trait::{CfgFault, Controller, SetPart};
use fixed_num::{Fx, Value};
use std::alloc::Global;
use std::marker::PhantomData;

/// What tells a kind of controllers over set values from the others.
pub trait SetKind: Drop {
    ghost use Rattle.std.specs.Prelude.{◌≡◌, ℕ, Bool};
    ghost use Rattle.cm_document.specs.Params.{kind_of};
    ghost use Rattle.cm_document.specs.declared.description.CtlKind.{CtlKind};
    ghost use Rattle.cm_document.specs.declared.description.Params.{Params};
    ghost use Rattle.ctl_forward.specs.SetRows.{GivesWhatIsSet};

    /// The kind.
    ghost own: { CtlKind };

    /// The parameters of a controller with so many claims.
    ghost with_claims: { ℕ → Params };

    /// Whether it exports a reference for each claim.
    ghost exporting: { Bool };

    /// The kind.
    fn kind() -> CtlKind
        ensures { result ≡ own };

    /// Whether it exports a reference for each claim.
    fn is_exporting() -> bool
        ensures { result ≡ exporting };

    /// How many claims its parameters tell of.
    fn claims(params: &Params) -> u32
        requires { kind_of params.now ≡ own }
        ensures { params.now ≡ with_claims result };

    /// Its rows of the table of controllers.
    ghost row: { (outs : ℕ) → GivesWhatIsSet own (with_claims outs) outs exporting };
}

/// A controller over set values: if it is chained it gives its references, else the values that it was sent last.
/// Before any mail these are unset.
#[derive(Debug, Drop)]
pub struct SetCtl<K> {
    part: Option<SetPart>,
    kind: PhantomData<K>,
}

impl<K: SetKind> SetCtl<K> {
    ghost use Rattle.std.specs.Prelude.{◌≡◌};
    ghost use Rattle.cm_model.specs.State.{fresh};

    /// A controller that is not configured.
    pub fn blank() -> SetCtl<K>
        ensures { ⟦<SetCtl<K> as Controller>⟧.meaning result ≡ fresh K.own }
    {
        SetCtl {
            part: None,
            kind: PhantomData,
        }
    }
}

impl<K: SetKind> Controller for SetCtl<K> {
    ghost use Rattle.ctl_trait.specs.Parts.{data_of};

    ghost meaning = { λ c. data_of K.own K.with_claims c.part };

    fn kind(&self) -> CtlKind {
        K::kind()
    }

    fn configure(&mut self, alloc: Global, params: &Params) -> Result<(), CfgFault> {
        self.part = Some(SetPart::make(alloc, K::claims(params))?);
        Ok(())
    }

    fn ready(&self, _cycle: u64) -> bool {
        true
    }

    fn activate(&mut self, _states: &[Fx], chained: bool) {
        let takes_references = K::is_exporting() && chained;
        if let Some(part) = &mut self.part {
            part.start(takes_references);
        }
    }

    fn take(&mut self, mail: Mail) {
        if let (Some(part), Mail::Values(values)) = (&mut self.part, &mail) {
            part.take(values.as_slice());
        }
    }

    fn update(&mut self, _tick: Tick, _states: &[Fx], refs: &[Value], outs: &mut [Value]) -> Done {
        if let Some(part) = &self.part {
            let takes_references = K::is_exporting() && part.is_chained();
            outs.copy_from_slice(if takes_references { refs } else { part.set() });
        }
        Done::Ok
    }

    fn deactivate(&mut self) {
        if let Some(part) = &mut self.part {
            part.stop();
        }
    }

    fn cleanup(&mut self) {
        self.part = None;
    }
}
