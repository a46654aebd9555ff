//! Why a controller is not configured.

use std::alloc::AllocError;
use thiserror::Error;

/// Why a controller is not configured. It is then as it was.
#[derive(Clone, Copy, Debug, PartialEq, Eq, Error)]
pub enum CfgFault {
    /// Its parameters say that it refuses.
    #[error("refused")]
    Refused,
    /// Memory ran out.
    #[error("out of memory")]
    Memory,
}

impl From<AllocError> for CfgFault {
    ghost use Rattle.std.specs.Prelude.{◌≡◌};
    ghost use Rattle.ctl_trait.specs.declared.fault.CfgFault.TheVariants.{Memory};

    ghost from_gives = { λ _ e. e ≡ Memory };

    fn from(_fault: AllocError) -> CfgFault {
        CfgFault::Memory
    }
}
