//! The table of a group.

ghost use Rattle.cm_document.specs.Described.{group_table};
ghost use Rattle.cm_document.specs.Tables.{walk};

use crate::forms::{ListOf, One, TableForm};
use crate::keys::Keys;
use crate::values::Named;
use cm_document::{DescFault, GroupDesc};

/// The keys that a group may have.
const KEYS: [&str; 2] = ["name", "members"];

/// The table of a group.
#[derive(Drop)]
pub struct GroupTable;

impl TableForm for GroupTable {
    type Read = GroupDesc;

    ghost table_form = { λ _. walk group_table };

    #[tactic(auto, unfolding(cm_document::specs::Described::group_table))]
    fn read(&self, keys: &Keys<'_>) -> Result<GroupDesc, DescFault> {
        keys.none_but(&KEYS)?;
        let name = keys.required("name", &One(Named))?;
        let members = keys.required("members", &ListOf(Named))?;
        Ok(GroupDesc { name, members })
    }
}
