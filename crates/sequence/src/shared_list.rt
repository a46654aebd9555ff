//! A list that many hold and that is empty nearly always.

ghost use Rattle.std.specs.Prelude.{◌≡◌, [], IfOk};

use std::alloc::{AllocError, Global};
use std::marker::Model;
use std::sync::Arc;

/// A list with many holders that is empty nearly always: sixteen bytes at each, and none on the heap while it is empty.
/// A clone takes no memory. Contracts see the list.
#[derive(Debug, Drop)]
pub struct SharedList<T> {
    items: Option<Arc<Vec<T>>>,
}

impl<T> Model for SharedList<T> {
    ghost use Rattle.std.specs.Prelude.{List, []};
    ghost use Rattle.std.specs.Option.{option_map_or};

    ghost Value = { List T };

    ghost view = { λ s. option_map_or (λ a. a.value.items) s.items [] };
}

impl<T: Drop> SharedList<T> {
    /// No item.
    pub fn none() -> SharedList<T>
        ensures { result ≡ [] }
    {
        SharedList { items: None }
    }

    /// These items, with one holder. Without memory they are dropped.
    pub fn of(alloc: Global, items: Vec<T>) -> Result<SharedList<T>, AllocError>
        ensures { IfOk result (λ list. list ≡ items.items) }
    {
        if items.is_empty() {
            return Ok(SharedList { items: None });
        }
        Ok(SharedList {
            items: Some(Arc::new(alloc, items)?),
        })
    }

    /// The items.
    pub fn as_slice(&self) -> &[T]
        ensures { result.now ≡ self.now }
    {
        match &self.items {
            Some(items) => items.as_ref().as_slice(),
            None => &[],
        }
    }
}

impl<T: Drop> Clone for SharedList<T> {
    ghost use Rattle.std.specs.Prelude.{◌≡◌};

    ghost is_clone = { λ list clone. clone ≡ list };

    fn clone(&self) -> Result<SharedList<T>, AllocError> {
        let items = match &self.items {
            Some(items) => Some(items.clone()?),
            None => None,
        };
        Ok(SharedList { items })
    }
}

impl<T: PartialEq + Drop> PartialEq for SharedList<T> {
    ghost use Rattle.std.specs.Cmp.Lexicographic.{pointwise, lists_per};

    ghost eq = { pointwise T.eq };

    ghost laws = { lists_per T.laws };

    fn eq(&self, other: &SharedList<T>) -> bool {
        self.as_slice() == other.as_slice()
    }
}

impl<T: Eq + Drop> Eq for SharedList<T> {
    ghost use Rattle.std.specs.Cmp.Lexicographic.{lists_equiv};

    ghost laws = { lists_equiv T.Eq.laws };
}
