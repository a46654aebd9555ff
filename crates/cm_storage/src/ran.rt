//! The controllers that a cycle updated: a list that is read one by one, and is kept flat.

ghost use Rattle.std.specs.Prelude.{◌≡◌};

use fixed_num::{Fx, StoredValue};
use std::alloc::Global;
use std::iter::Iterator;
use std::marker::Model;

/// How an update went.
#[derive(Clone, Copy, Debug, PartialEq, Eq)]
pub enum Done {
    /// It computed.
    Ok,
    /// It failed, and applied nothing.
    Error,
}

/// What is kept of one controller: its values stand in two lists that all controllers of the cycle share.
#[derive(Clone, Copy, Debug, PartialEq, Eq)]
pub(crate) struct RanHead {
    pub(crate) serial: u32,
    pub(crate) done: Done,
    /// How many of the values are its outputs.
    pub(crate) outs: u8,
    /// How many of the numbers it published.
    pub(crate) published: u8,
}

/// The controllers that a cycle updated, in the order of their updates. Three vectors hold them all.
#[derive(Clone, Debug, Drop)]
pub struct RanList {
    pub(crate) heads: Vec<RanHead>,
    pub(crate) values: Vec<StoredValue>,
    pub(crate) numbers: Vec<Fx>,
}

impl Model for RanList {
    ghost use Rattle.std.specs.Prelude.{List};
    ghost use Rattle.cm_storage.specs.Ran.{Ran};

    ghost Value = { List Ran };

    ghost use Rattle.cm_storage.specs.Rans.{rans, IsWhole};

    ghost view = { λ list. rans list.heads.items list.values.items list.numbers.items };

    ghost invariant = { λ list. IsWhole list.heads.items list.values.items list.numbers.items };
}

/// One updated controller.
#[derive(Clone, Copy, Debug)]
pub struct RanRef<'a> {
    /// The number that its load gave.
    pub serial: u32,
    /// How its update went.
    pub done: Done,
    /// What it gave out, one for each claim; nothing after a failure.
    pub outs: &'a [StoredValue],
    /// What it published, which is nothing but for a broadcaster.
    pub published: &'a [Fx],
}

impl RanList {
    ghost use Rattle.std.specs.Prelude.{[], length, ◌==◌};

    /// Of no controller. It takes no memory.
    pub fn new(alloc: Global) -> RanList
        ensures { result ≡ [] }
    {
        RanList {
            heads: Vec::new(alloc),
            values: Vec::new(alloc),
            numbers: Vec::new(alloc),
        }
    }

    /// Whether it is of no controller.
    #[tactic(auto, using(crate::proofs::RanLemmas::rans_length))]
    pub fn is_empty(&self) -> bool
        ensures { result ≡ (length self.now == 0) }
    {
        self.heads.is_empty()
    }

    /// The controllers one by one.
    pub fn iter(&self) -> Rans<'_>
        ensures { result ≡ self.now }
    {
        Rans {
            heads: self.heads.as_slice(),
            values: self.values.as_slice(),
            numbers: self.numbers.as_slice(),
        }
    }
}

/// The controllers of a list that are left to be looked at.
#[derive(Debug, Drop)]
pub struct Rans<'a> {
    heads: &'a [RanHead],
    values: &'a [StoredValue],
    numbers: &'a [Fx],
}

impl<'a> Model for Rans<'a> {
    ghost use Rattle.std.specs.Prelude.{List};
    ghost use Rattle.cm_storage.specs.Ran.{Ran};

    ghost Value = { List Ran };

    ghost use Rattle.cm_storage.specs.Rans.{rans, IsWhole};

    ghost view = { λ list. rans list.heads.now list.values.now list.numbers.now };

    ghost invariant = { λ list. IsWhole list.heads.now list.values.now list.numbers.now };
}

impl<'a> Iterator for Rans<'a> {
    ghost use Rattle.std.specs.Iterator.{YieldsFirstBy, item_count};
    ghost use Rattle.cm_storage.specs.Rans.{ran_of};

    type Item = RanRef<'a>;

    ghost next_gives = { YieldsFirstBy ran_of (λ list. list) };

    ghost remaining = { item_count (λ list. list) };

    fn next(&mut self) -> Option<RanRef<'a>> {
        let (head, heads) = self.heads.split_first()?;
        let (outs, values) = self.values.split_at(head.outs as usize);
        let (published, numbers) = self.numbers.split_at(head.published as usize);
        self.heads = heads;
        self.values = values;
        self.numbers = numbers;
        Some(RanRef {
            serial: head.serial,
            done: head.done,
            outs,
            published,
        })
    }

    #[tactic(auto, using(crate::proofs::RanLemmas::rans_length))]
    fn size_hint(&self) -> (usize, Option<usize>) {
        (self.heads.len(), Some(self.heads.len()))
    }
}

impl Rans<'_> {
    ghost use Rattle.std.specs.Prelude.{[], length};

    /// How many are left to be looked at.
    #[tactic(auto, using(crate::proofs::RanLemmas::rans_length))]
    pub fn len(&self) -> usize
        ensures { result ≡ length self.now }
    {
        self.heads.len()
    }

    /// Of no controller.
    pub(crate) fn none() -> Self
        ensures { result ≡ [] }
    {
        Rans {
            heads: &[],
            values: &[],
            numbers: &[],
        }
    }
}
