//! The items of lists whose length is known.

ghost use Rattle.std.specs.Prelude.{◌≡◌, [], ◌∷◌, length};

/// The one item of a list that has one.
pub fn only<T: Copy>(items: &[T]) -> T
    requires { length items.now ≡ 1 }
    ensures { items.now ≡ result ∷ [] }
{
    items[0]
}

/// The two items of a list that has two.
pub fn both<T: Copy>(items: &[T]) -> (T, T)
    requires { length items.now ≡ 2 }
    ensures { items.now ≡ result.0 ∷ result.1 ∷ [] }
{
    (items[0], items[1])
}
