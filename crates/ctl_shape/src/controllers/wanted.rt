//! What is wanted of a controller that has one reference.

ghost use Rattle.std.specs.Prelude.{◌≡◌, if◌then◌else◌};

use fixed_num::Value;

/// The reference where it is chained, else what was set.
pub(crate) fn wanted_of(chained: bool, set: Value, reference: Value) -> Value
    ensures { result ≡ (if chained then reference else set) }
{
    if chained { reference } else { set }
}
