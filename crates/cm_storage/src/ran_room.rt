//! The list of updated controllers while it is filled.

ghost use Rattle.std.specs.Prelude.{◌≡◌, ◌≤◌, [], ◌∷◌, ◌++◌, length, IfOk, vec_len, vec_capacity, ◌+◌};

use crate::ran::{Done, RanHead, RanList};
use fixed_num::{Fx, StoredValue, Value};
use std::alloc::{AllocError, Global};
use std::marker::Model;

/// The list of updated controllers while it is filled, within room that was reserved for controllers, values and
/// numbers.
#[derive(Debug, Drop)]
pub struct RanRoom {
    heads: Vec<RanHead>,
    values: Vec<StoredValue>,
    numbers: Vec<Fx>,
}

impl Model for RanRoom {
    ghost use Rattle.cm_storage.specs.Ran.{Filling};

    ghost Value = { Filling };

    ghost use Rattle.std.specs.Prelude.{◌-◌, vec_len, vec_capacity};
    ghost use Rattle.cm_storage.specs.Rans.{rans, IsWhole};

    ghost view = { λ list. record {
      rans = rans list.heads.items list.values.items list.numbers.items;
      heads = vec_capacity list.heads - vec_len list.heads;
      values = vec_capacity list.values - vec_len list.values;
      numbers = vec_capacity list.numbers - vec_len list.numbers;
    } };

    ghost invariant = { λ list. IsWhole list.heads.items list.values.items list.numbers.items };
}

impl RanRoom {
    ghost use Rattle.cm_storage.specs.Ran.{Fits, TakesRoom};

    /// An empty list with room for so many controllers, values and numbers.
    pub fn with_room(
        alloc: Global,
        heads: usize,
        values: usize,
        numbers: usize,
    ) -> Result<RanRoom, AllocError>
        ensures { IfOk result (λ room. room ≡ record { rans = []; heads = heads; values = values; numbers = numbers }) }
    {
        Ok(RanRoom {
            heads: Vec::with_capacity(alloc, heads)?,
            values: Vec::with_capacity(alloc, values)?,
            numbers: Vec::with_capacity(alloc, numbers)?,
        })
    }

    /// One controller more. It takes no memory.
    #[tactic(auto, using(crate::proofs::RanLemmas::one_more))]
    pub fn push(&mut self, serial: u32, done: Done, outs: &[Value], published: &[Fx])
        requires { Fits self.old outs.now published.now }
        ensures rans { self.new.rans
            ≡ self.old.rans
            ++ record { serial = serial; done = done; outs = outs.now; published = published.now } ∷ [] }
        ensures room { TakesRoom self.old self.new outs.now published.now }
    {
        push_values(&mut self.values, outs);
        push_numbers(&mut self.numbers, published);
        self.heads.push_reserved(RanHead {
            serial,
            done,
            outs: outs.len() as u8,
            published: published.len() as u8,
        });
    }

    /// The list. It takes no memory.
    pub fn into_list(self) -> RanList
        ensures { result ≡ self.rans }
    {
        RanList {
            heads: self.heads,
            values: self.values,
            numbers: self.numbers,
        }
    }
}

/// Values more, within the capacity.
fn push_values(list: &mut Vec<StoredValue>, values: &[Value])
    requires { vec_len list.old + length values.now ≤ vec_capacity list.old }
    ensures items { list.new.items ≡ list.old.items ++ values.now }
    ensures capacity { vec_capacity list.new ≡ vec_capacity list.old }
{
    for value in values {
        list.push_reserved(StoredValue::of(*value));
    }
}

/// Numbers more, within the capacity.
fn push_numbers(list: &mut Vec<Fx>, numbers: &[Fx])
    requires { vec_len list.old + length numbers.now ≤ vec_capacity list.old }
    ensures items { list.new.items ≡ list.old.items ++ numbers.now }
    ensures capacity { vec_capacity list.new ≡ vec_capacity list.old }
{
    for number in numbers {
        list.push_reserved(*number);
    }
}
