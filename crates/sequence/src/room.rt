//! A list with room that was reserved: within it an item is added without memory.

ghost use Rattle.std.specs.Prelude.{◌≡◌, ◌+◌, ◌-◌, ◌<◌, [], ◌∷◌, ◌++◌, length, IfOk};

use crate::seq::Seq;
use std::alloc::{AllocError, Global};
use std::marker::Model;

/// A list while it is filled. Contracts see its items and how many more it has room for.
#[derive(Debug, Drop)]
pub struct ListRoom<T> {
    items: Vec<T>,
}

impl<T> Model for ListRoom<T> {
    ghost use Rattle.std.specs.Prelude.{◌-◌, vec_len, vec_capacity};
    ghost use Rattle.sequence.specs.Room.{Room};

    ghost Value = { Room T };

    ghost view = { λ s. record { items = s.items.items; room = vec_capacity s.items - vec_len s.items } };
}

impl<T> ListRoom<T> {
    /// An empty list with room for so many items.
    pub fn with_room(alloc: Global, room: usize) -> Result<ListRoom<T>, AllocError>
        ensures { IfOk result (λ list. list ≡ record { items = []; room = room }) }
    {
        Ok(ListRoom {
            items: Vec::with_capacity(alloc, room)?,
        })
    }

    /// One item more, at the end. It takes no memory.
    pub fn push(&mut self, item: T)
        requires room { 0 < self.old.room }
        ensures { self.new ≡ record { items = self.old.items ++ item ∷ []; room = self.old.room - 1 } }
    {
        self.items.push_reserved(item);
    }

    /// How many more items it has room for.
    pub fn room(&self) -> usize
        ensures { result ≡ self.now.room }
    {
        self.items.capacity() - self.items.len()
    }

    /// No item any more. The room stays, so it takes no memory and gives none back.
    pub fn clear(&mut self)
    where
        T: Drop,
        ensures { self.new ≡ record { items = []; room = self.old.room + length self.old.items } }
    {
        self.items.clear();
    }

    /// The items so far.
    pub fn as_slice(&self) -> &[T]
        ensures { result.now ≡ self.now.items }
    {
        self.items.as_slice()
    }

    /// The list. It takes no memory.
    pub fn into_list(self) -> Seq<T>
        ensures { result ≡ self.items }
    {
        Seq::from_vec(self.items)
    }
}
