//! Why there is no plan of a start.

use cm_model::Cause;
use fixed_num::Memory;
use iface_names::Name;
use std::alloc::AllocError;
use thiserror::Error;

/// Why there is no plan of a start, in the order in which a reason counts.
#[derive(Debug, PartialEq, Eq, Drop, Error)]
pub enum SpawnFault {
    /// No controller of this name is described.
    #[error("not_described {0}")]
    NotDescribed(Name),
    /// It is wanted twice.
    #[error("twice {0}")]
    Twice(Name),
    /// The stock has no blank of its kind that is not taken for those before it.
    #[error("no_blank {0}")]
    NoBlank(Name),
    /// Its parameters refuse to be configured.
    #[error("refuses_config {0}")]
    RefusesConfig(Name),
    /// Whatever happens, it is never active together with all others that are wanted and no more.
    #[error("never {0} {1}")]
    Never(Name, Cause),
    /// In no cycle is each of them ready while each component that one uses is inactive or active.
    #[error("no_cycle")]
    NoCycle,
    /// Memory ran out.
    #[error("out of memory")]
    Memory,
}

impl From<Memory> for SpawnFault {
    ghost use Rattle.std.specs.Prelude.{◌≡◌};
    ghost use Rattle.spawn_plan.specs.declared.fault.SpawnFault.TheVariants.{Memory as memory_ran_out};

    ghost from_gives = { λ _ e. e ≡ memory_ran_out };

    fn from(_fault: Memory) -> SpawnFault {
        SpawnFault::Memory
    }
}

impl From<AllocError> for SpawnFault {
    ghost use Rattle.std.specs.Prelude.{◌≡◌};
    ghost use Rattle.spawn_plan.specs.declared.fault.SpawnFault.TheVariants.{Memory as memory_ran_out};

    ghost from_gives = { λ _ e. e ≡ memory_ran_out };

    fn from(_fault: AllocError) -> SpawnFault {
        SpawnFault::Memory
    }
}
