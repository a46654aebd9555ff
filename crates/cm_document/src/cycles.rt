//! Lists of cycles.

ghost use Rattle.std.specs.Prelude.{◌≡◌, [], IfOk};
ghost use Rattle.cm_document.specs.Cycles.{is_listed};

use std::alloc::{AllocError, Global};
use std::marker::Model;
use std::sync::Arc;

/// Cycles as they are listed. They are kept once for all that hold them, so a clone takes no memory. Contracts see the
/// list.
#[derive(Debug, Drop)]
pub struct Cycles {
    kept: Arc<CycleLists>,
}

/// A list of cycles, twice.
#[derive(Debug, Drop)]
struct CycleLists {
    listed: Vec<u64>,
    /// The same cycles in ascending order, so that one is found without a look at all of them.
    ascending: Vec<u64>,
}

impl Model for Cycles {
    ghost use Rattle.std.specs.Prelude.{ℕ, List};
    ghost use Rattle.cm_document.specs.Cycles.{LooksUp};

    ghost Value = { List ℕ };

    ghost view = { λ c. c.kept.value.listed.items };

    ghost invariant = { λ c. LooksUp c.kept.value };
}

impl Cycles {
    /// No cycle.
    pub fn none(alloc: Global) -> Result<Cycles, AllocError>
        ensures { IfOk result (λ cycles. cycles ≡ []) }
    {
        Cycles::of(alloc, Vec::new(alloc))
    }

    /// These cycles, whatever their order, and each as often as it likes.
    pub fn of(alloc: Global, listed: Vec<u64>) -> Result<Cycles, AllocError>
        ensures { IfOk result (λ cycles. cycles ≡ listed.items) }
    {
        let kept = CycleLists::of(alloc, listed)?;
        Ok(Cycles {
            kept: Arc::new(alloc, kept)?,
        })
    }

    /// Whether the cycle is listed.
    pub fn has(&self, cycle: u64) -> bool
        ensures { result ≡ is_listed self.now cycle }
    {
        self.kept.as_ref().has(cycle)
    }

    /// The cycles as they are listed.
    pub fn as_slice(&self) -> &[u64]
        ensures { result.now ≡ self.now }
    {
        self.kept.as_ref().listed.as_slice()
    }
}

impl CycleLists {
    ghost use Rattle.cm_document.specs.Cycles.{LooksUp};

    /// The list, and its cycles in ascending order.
    fn of(alloc: Global, listed: Vec<u64>) -> Result<CycleLists, AllocError>
        ensures list { IfOk result (λ kept. kept.listed.items ≡ listed.items) }
        ensures look_up { IfOk result LooksUp }
    {
        let mut ascending = listed.to_vec(alloc)?;
        ascending.sort_unstable();
        Ok(CycleLists { listed, ascending })
    }

    /// Whether the cycle is listed.
    fn has(&self, cycle: u64) -> bool
        requires { LooksUp self.now }
        ensures { result ≡ is_listed self.now.listed.items cycle }
    {
        self.ascending.binary_search(&cycle).is_ok()
    }
}

impl Clone for Cycles {
    ghost use Rattle.std.specs.Prelude.{◌≡◌};

    ghost is_clone = { λ x y. y ≡ x };

    fn clone(&self) -> Result<Cycles, AllocError> {
        Ok(Cycles {
            kept: self.kept.clone()?,
        })
    }
}

impl PartialEq for Cycles {
    ghost use Rattle.std.specs.Cmp.Rules.{comparing};
    ghost use Rattle.std.specs.Cmp.Lexicographic.{pointwise};
    ghost use Rattle.std.specs.Prelude.{nat_eq};
    ghost use Rattle.std.proofs.Common.{rules};

    ghost eq = { pointwise nat_eq };

    ghost laws = { Prim.search (comparing, rules) };

    fn eq(&self, other: &Cycles) -> bool {
        self.as_slice() == other.as_slice()
    }
}

impl Eq for Cycles {
    ghost use Rattle.std.specs.Cmp.Rules.{comparing};
    ghost use Rattle.std.proofs.Common.{rules};

    ghost laws = { Prim.search (comparing, rules) };
}
