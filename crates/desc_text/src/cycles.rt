//! Lists of cycles.

ghost use Rattle.std.specs.Prelude.{◌++◌, []};
ghost use Rattle.sequence.specs.Answers.{Answers};
ghost use Rattle.toml.specs.Data.{get_member};
ghost use Rattle.toml.specs.View.{table_view};
ghost use Rattle.cm_document.specs.Forms.{list_of, whole_in};
ghost use Rattle.cm_document.specs.Tables.{defaulted_read};

use crate::forms::{Form, ListOf};
use crate::keys::Keys;
use crate::values::Cycle;
use cm_document::{Cycles, DescFault};
use std::alloc::Global;
use toml::Value;

/// A list of cycles, which is kept once for all that hold it.
#[derive(Drop)]
pub struct CycleList;

impl Form for CycleList {
    type Read = Cycles;

    ghost form = { λ _. list_of whole_in };

    fn read(&self, alloc: Global, path: &str, value: &Value) -> Result<Cycles, DescFault> {
        let listed = ListOf(Cycle).read(alloc, path, value)?;
        Ok(Cycles::of(alloc, listed.into_vec())?)
    }
}

/// The cycles that are listed at a key of a table, none if the key is missing.
pub fn cycles_at(keys: &Keys<'_>, key: &str) -> Result<Cycles, DescFault>
    ensures { Answers DescFault.Memory
        (defaulted_read (list_of whole_in) [] (keys.now.prefix.now ++ key.now)
        (get_member key.now (table_view keys.now.table.now))) result }
{
    let none = Cycles::none(keys.alloc)?;
    keys.defaulted(key, &CycleList, none)
}
