//! What is wrong with one value, before its place is known.

ghost use Rattle.std.specs.Prelude.{◌≡◌};
ghost use Rattle.desc_text.specs.Refusals.{fault_at};

use cm_document::{DescFault, Text, Wrong};
use iface_names::NameFault;
use std::alloc::AllocError;

/// Why a value was not read.
#[derive(Clone, Copy, Debug, PartialEq, Eq)]
pub enum Refused {
    /// It is not of the form.
    Wrong(Wrong),
    /// Memory ran out.
    Memory,
}

impl From<AllocError> for Refused {
    ghost use Rattle.std.specs.Prelude.{◌≡◌};
    ghost use Rattle.desc_text.specs.declared.faults.Refused.TheVariants.{Memory};

    ghost from_gives = { λ _ e. e ≡ Memory };

    fn from(_fault: AllocError) -> Refused {
        Refused::Memory
    }
}

impl From<Wrong> for Refused {
    ghost use Rattle.std.specs.Prelude.{◌≡◌};
    ghost use Rattle.desc_text.specs.declared.faults.Refused.TheVariants as refused;

    ghost from_gives = { λ w e. e ≡ refused.Wrong w };

    fn from(wrong: Wrong) -> Refused {
        Refused::Wrong(wrong)
    }
}

impl From<NameFault> for Refused {
    ghost use Rattle.std.specs.Prelude.{◌≡◌};
    ghost use Rattle.desc_text.specs.Refusals.{refusal_of};

    ghost from_gives = { λ fault e. e ≡ refusal_of fault };

    fn from(fault: NameFault) -> Refused {
        match fault {
            NameFault::BadName => Refused::Wrong(Wrong::Value),
            NameFault::Memory => Refused::Memory,
        }
    }
}

impl Refused {
    /// The same with the place of the value.
    pub fn at(self, path: Text) -> DescFault
        ensures { result ≡ fault_at path self }
    {
        match self {
            Refused::Wrong(Wrong::Float) => DescFault::FloatGiven(path),
            Refused::Wrong(Wrong::Value) => DescFault::BadValue(path),
            Refused::Memory => DescFault::Memory,
        }
    }
}
