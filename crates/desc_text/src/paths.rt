//! Where a key or an item stands in a description, as faults print it.

ghost use Rattle.std.specs.Prelude.{◌≡◌, ◌++◌, IfOk};
ghost use Rattle.cm_document.specs.Forms.{item_path, inside};

use cm_document::Text;
use std::alloc::{AllocError, Global};

/// A copy of a path.
pub fn text_of(alloc: Global, path: &str) -> Result<Text, AllocError>
    ensures { IfOk result (λ t. t ≡ path.now) }
{
    Ok(Text::from_string(String::from_str(alloc, path)?))
}

/// A key of the table with this prefix.
pub fn key_path(alloc: Global, prefix: &str, key: &str) -> Result<Text, AllocError>
    ensures { IfOk result (λ t. t ≡ prefix.now ++ key.now) }
{
    Ok(Text::from_string(format!(in alloc; "{prefix}{key}")?))
}

/// An item of the list at this path; the first has the index 0.
pub fn item_path(alloc: Global, path: &str, index: usize) -> Result<Text, AllocError>
    ensures { IfOk result (λ t. t ≡ item_path path.now index) }
{
    Ok(Text::from_string(format!(in alloc; "{path}[{index}]")?))
}

/// What stands before the keys of a table that is an item of the list at this path.
pub fn item_prefix(alloc: Global, path: &str, index: usize) -> Result<Text, AllocError>
    ensures { IfOk result (λ t. t ≡ inside (item_path path.now index)) }
{
    Ok(Text::from_string(format!(in alloc; "{path}[{index}].")?))
}
