//! `StoredValue`: a value in eight bytes.

ghost use Rattle.std.specs.Prelude.{◌≡◌};

use crate::fx::Fx;
use crate::value::Value;
use std::marker::Model;

/// A value as long lists keep it: eight bytes, half of what `Value` takes. Contracts see the value.
#[derive(Clone, Copy, Debug)]
pub struct StoredValue {
    // `i64::MIN`, which is no number of micro-units, stands for a value that nobody has set.
    micro: i64,
}

impl Model for StoredValue {
    ghost use Rattle.std.specs.Prelude.{refl};
    ghost use Rattle.fixed_num.specs.declared.value.Value.{Value as AnyValue};

    ghost Value = { AnyValue };

    ghost use Rattle.fixed_num.specs.Stored.{held, stored_as, IsStored, stored_as-held};

    ghost view = { λ s. held s.micro };

    ghost invariant = { λ s. IsStored s.micro };

    ghost inverse = { λ v. record { micro = stored_as v } };

    ghost inverse_ok = { λ s h i. record { micro = stored_as-held s.micro h i } };
}

impl StoredValue {
    /// The value, stored.
    #[tactic(auto, using(crate::specs::Stored::storing))]
    pub fn of(value: Value) -> StoredValue
        ensures { result ≡ value }
    {
        match value {
            Value::Unset => StoredValue { micro: i64::MIN },
            Value::Num(number) => StoredValue {
                micro: number.micro(),
            },
        }
    }

    /// The value.
    #[tactic(auto, using(crate::specs::Stored::storing))]
    pub fn get(self) -> Value
        ensures { result ≡ self }
    {
        if self.micro == i64::MIN {
            Value::Unset
        } else {
            Value::Num(Fx::from_micro(self.micro))
        }
    }
}

impl PartialEq for StoredValue {
    ghost use Rattle.std.specs.Cmp.Rules.{comparing};
    ghost use Rattle.std.proofs.Common.{rules};
    ghost use Rattle.std.specs.Ordering.{on, int_eq};
    ghost use Rattle.fixed_num.specs.Stored.{stored_as};

    ghost eq = { on stored_as int_eq };

    ghost laws = { Prim.search (comparing, rules) };

    #[tactic(auto, using(crate::specs::Stored::storing))]
    fn eq(&self, other: &StoredValue) -> bool {
        self.micro == other.micro
    }
}

impl Eq for StoredValue {
    ghost use Rattle.std.specs.Cmp.Rules.{comparing};
    ghost use Rattle.std.proofs.Common.{rules};

    ghost laws = { Prim.search (comparing, rules) };
}
