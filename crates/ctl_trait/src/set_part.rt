//! What a configured controller keeps whose outputs are values that were set.

ghost use Rattle.std.specs.Prelude.{◌≡◌, length, map, replicate, Some, None, IfOk};
ghost use Rattle.fixed_num.specs.declared.value.Value.TheVariants.{Unset, Num};
ghost use Rattle.ctl_trait.specs.Parts.{is_chained_part};

use fixed_num::{Fx, Value};
use std::alloc::{AllocError, Global};
use std::marker::Model;

/// A value for each claim, in room that `make` took, and while it runs, whether it is chained. A configured forward,
/// passthrough or mock keeps such a part. Contracts see both (`Part`).
#[derive(Debug, Drop)]
pub struct SetPart {
    set: Vec<Value>,
    chained: Option<bool>,
}

impl Model for SetPart {
    ghost use Rattle.ctl_trait.specs.Parts.{Part};

    ghost Value = { Part };

    ghost view = { λ s. record { set = s.set.items; chained = s.chained } };
}

impl SetPart {
    /// A part with so many claims, which does not run.
    pub fn make(alloc: Global, claims: u32) -> Result<SetPart, AllocError>
        ensures { IfOk result (λ part. part ≡ record { set = replicate claims Unset; chained = None }) }
    {
        Ok(SetPart {
            set: vec![in alloc; Value::Unset; claims as usize]?,
            chained: None,
        })
    }

    /// It runs, and no value is set.
    pub fn start(&mut self, chained: bool)
        ensures { self.new ≡ record { set = replicate (length self.old.set) Unset; chained = Some chained } }
    {
        self.set.fill(Value::Unset);
        self.chained = Some(chained);
    }

    /// It does not run any more.
    pub fn stop(&mut self)
        ensures { self.new ≡ record self.old { chained = None } }
    {
        self.chained = None;
    }

    /// These values are set, one for each claim.
    pub fn take(&mut self, values: &[Fx])
        requires { length values.now ≡ length self.old.set }
        ensures { self.new ≡ record self.old { set = map Num values.now } }
    {
        set_numbers(&mut self.set, values);
    }

    /// The values that are set.
    pub fn set(&self) -> &[Value]
        ensures { result.now ≡ self.now.set }
    {
        self.set.as_slice()
    }

    /// Whether it runs chained.
    pub fn is_chained(&self) -> bool
        ensures { result ≡ is_chained_part self.now }
    {
        self.chained.unwrap_or(false)
    }
}

/// Each place holds the number at its index, of as many as there are places.
pub fn set_numbers(places: &mut [Value], numbers: &[Fx])
    requires { length numbers.now ≡ length places.old }
    ensures { places.new ≡ map Num numbers.now }
{
    for i in 0..places.len() {
        places[i] = Value::Num(numbers[i]);
    }
}
