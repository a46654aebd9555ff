//! The keys of a table: which it may have, and what stands at one.

ghost use Rattle.std.specs.Prelude.{◌≡◌, ◌++◌, map, option_map};
ghost use Rattle.std.specs.List.{list_any};
ghost use Rattle.sequence.specs.Answers.{Answers};
ghost use Rattle.toml.specs.Data.{get_member, same_key};
ghost use Rattle.toml.specs.View.{view, table_view};
ghost use Rattle.cm_document.specs.Tables.{unlisted, none_unlisted, required_read, defaulted_read};

use crate::forms::Form;
use crate::paths::key_path;
use cm_document::DescFault;
use std::alloc::Global;
use toml::{Table, Value};

/// A table that is being read.
#[derive(Drop)]
pub struct Keys<'a> {
    /// Where memory comes from.
    pub alloc: Global,
    /// The table.
    pub table: &'a Table,
    /// What stands before a key in its path, as `component[0].`; at the top, nothing.
    pub prefix: &'a str,
}

impl Keys<'_> {
    /// The table has no keys but the listed ones: else BadKey with the first of the others, least by bytes.
    pub fn none_but(&self, listed: &[&str]) -> Result<(), DescFault>
        ensures { Answers DescFault.Memory
            (none_unlisted self.now.prefix.now
            (unlisted (map (λ k. k.now) listed.now) (table_view self.now.table.now))) result }
    {
        // A table keeps its keys in the order of their bytes.
        'members: for (key, _value) in self.table.iter() {
            if !is_listed(listed, key.as_str()) {
                let path = key_path(self.alloc, self.prefix, key.as_str())?;
                return Err(DescFault::BadKey(path));
            }
        }
        Ok(())
    }

    /// What stands at a key, read as this form; BadKey where the key is missing.
    pub fn required<F: Form>(&self, key: &str, form: &F) -> Result<F::Read, DescFault>
        ensures { Answers DescFault.Memory
            (required_read (F.form form.now) (self.now.prefix.now ++ key.now)
            (get_member key.now (table_view self.now.table.now))) result }
    {
        let path = key_path(self.alloc, self.prefix, key)?;
        match look_up(self.table, key) {
            Some(value) => form.read(self.alloc, path.as_str(), value),
            None => Err(DescFault::BadKey(path)),
        }
    }

    /// What stands at a key, read as this form; the default where the key is missing.
    pub fn defaulted<F: Form>(
        &self,
        key: &str,
        form: &F,
        default: F::Read,
    ) -> Result<F::Read, DescFault>
        ensures { Answers DescFault.Memory
            (defaulted_read (F.form form.now) default (self.now.prefix.now ++ key.now)
            (get_member key.now (table_view self.now.table.now))) result }
    {
        match look_up(self.table, key) {
            Some(value) => {
                let path = key_path(self.alloc, self.prefix, key)?;
                form.read(self.alloc, path.as_str(), value)
            }
            None => Ok(default),
        }
    }
}

/// The value at a key of a table.
pub fn look_up<'a>(table: &'a Table, key: &str) -> Option<&'a Value>
    ensures { option_map (λ v. view v.now) result ≡ get_member key.now (table_view table.now) }
{
    table.get(key)
}

fn is_listed(listed: &[&str], key: &str) -> bool
    ensures { result ≡ list_any (same_key key.now) (map (λ k. k.now) listed.now) }
{
    listed.iter().any(|other| same_key(key, other))
}

/// Whether the two keys, or words, have the same bytes.
pub fn same_key(key: &str, other: &str) -> bool
    ensures { result ≡ same_key key.now other.now }
{
    key == other
}
