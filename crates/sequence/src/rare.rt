//! A list that is empty nearly always.

ghost use Rattle.std.specs.Prelude.{◌≡◌, [], IfOk};

use std::alloc::{AllocError, Global};
use std::marker::Model;

/// A list that is empty nearly always: sixteen bytes, and none on the heap while it is. Contracts see the list.
#[derive(Debug, Drop)]
pub struct Rare<T> {
    items: Option<Box<Vec<T>>>,
}

impl<T> Model for Rare<T> {
    ghost use Rattle.std.specs.Prelude.{List, [], Some, None};
    ghost use Rattle.std.specs.Option.{option_map_or};

    ghost Value = { List T };

    ghost view = { λ s. option_map_or (λ b. b.value.items) s.items [] };
}

impl<T> Rare<T> {
    /// No item.
    pub fn none() -> Rare<T>
        ensures { result ≡ [] }
    {
        Rare { items: None }
    }

    /// These items.
    pub fn of(alloc: Global, items: Vec<T>) -> Result<Rare<T>, AllocError>
    where
        T: Drop,
        ensures { IfOk result (λ list. list ≡ items.items) }
    {
        if items.is_empty() {
            return Ok(Rare { items: None });
        }
        Ok(Rare {
            items: Some(Box::new(alloc, items)?),
        })
    }

    /// These items, which stand on the heap already. It takes no memory.
    pub fn in_box(items: Box<Vec<T>>) -> Rare<T>
        ensures { result ≡ items.value.items }
    {
        Rare { items: Some(items) }
    }

    /// The items.
    pub fn as_slice(&self) -> &[T]
        ensures { result.now ≡ self.now }
    {
        match &self.items {
            Some(items) => items.as_slice(),
            None => &[],
        }
    }
}

impl<T: Clone> Clone for Rare<T> {
    ghost use Rattle.std.specs.List.{AllZip};

    ghost is_clone = { AllZip T.is_clone };

    fn clone(&self) -> Result<Rare<T>, AllocError> {
        let items = match &self.items {
            Some(items) => Some(items.clone()?),
            None => None,
        };
        Ok(Rare { items })
    }
}

impl<T: PartialEq> PartialEq for Rare<T> {
    ghost use Rattle.std.specs.Cmp.Lexicographic.{pointwise, lists_per};

    ghost eq = { pointwise T.eq };

    ghost laws = { lists_per T.laws };

    fn eq(&self, other: &Rare<T>) -> bool {
        self.as_slice() == other.as_slice()
    }
}

impl<T: Eq> Eq for Rare<T> {
    ghost use Rattle.std.specs.Cmp.Lexicographic.{lists_equiv};

    ghost laws = { lists_equiv T.Eq.laws };
}
