//! `Checked`: a description that was read and in which no fault stands.

ghost use Rattle.std.specs.Prelude.{◌≡◌, IfOk};
ghost use Rattle.cm_document.specs.Valid.{IsValid};

use crate::description::Description;
use std::alloc::AllocError;
use std::marker::Model;

/// A description in which no fault stands, and which some text of TOML describes. Contracts see the description.
#[derive(Debug, PartialEq, Eq, Drop)]
pub struct Checked {
    description: Description,
}

impl Model for Checked {
    ghost use Rattle.cm_document.specs.Valid.{IsValid};
    ghost use Rattle.cm_document.specs.declared.description.Description.{Description};

    ghost Value = { Description };

    ghost view = { λ s. s.description };

    ghost invariant = { λ s. IsValid s.description };

    ghost inverse = { λ d. record { description = d } };
}

impl Checked {
    /// Holds a description that was read and found valid. `desc_check` alone calls it.
    pub fn hold(description: Description) -> Checked
        requires valid { IsValid description }
        ensures { result ≡ description }
    {
        Checked { description }
    }

    /// The description, which is valid.
    pub fn description(&self) -> &Description
        ensures same { result.now ≡ self.now }
        ensures valid { IsValid self.now }
    {
        &self.description
    }

    /// A copy, which is held as well.
    pub fn copy(&self) -> Result<Checked, AllocError>
        ensures { IfOk result (λ copy. copy ≡ self.now) }
    {
        Ok(Checked {
            description: self.description.clone()?,
        })
    }

    /// The description, no longer held.
    pub fn into_description(self) -> Description
        ensures same { result ≡ self }
        ensures valid { IsValid self }
    {
        self.description
    }
}
