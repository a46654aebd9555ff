//! The table of a component.

ghost use Rattle.cm_document.specs.Described.{component_table};
ghost use Rattle.cm_document.specs.Tables.{walk};

use crate::cycles::cycles_at;
use crate::forms::{One, TableForm, TablesOf};
use crate::joint::Joint;
use crate::keys::Keys;
use crate::values::Named;
use crate::words::{ComponentKinds, LivesAtStart, LivesOnError, WordOf};
use cm_document::{CompDesc, DescFault, Life};

/// The keys that a component may have.
const KEYS: [&str; 7] = [
    "name",
    "kind",
    "initial",
    "on_error",
    "fail_read",
    "fail_write",
    "joint",
];

/// The table of a component.
#[derive(Drop)]
pub struct ComponentTable;

impl TableForm for ComponentTable {
    type Read = CompDesc;

    ghost table_form = { λ _. walk component_table };

    #[tactic(auto, unfolding(cm_document::specs::Described::component_table))]
    fn read(&self, keys: &Keys<'_>) -> Result<CompDesc, DescFault> {
        keys.none_but(&KEYS)?;
        let name = keys.required("name", &One(Named))?;
        let kind = keys.required("kind", &One(WordOf(ComponentKinds)))?;
        let initial = keys.defaulted("initial", &One(WordOf(LivesAtStart)), Life::Active)?;
        let on_error = keys.defaulted("on_error", &One(WordOf(LivesOnError)), Life::Unconfigured)?;
        let fail_read = cycles_at(keys, "fail_read")?;
        let fail_write = cycles_at(keys, "fail_write")?;
        let joints = keys.required("joint", &TablesOf(Joint))?;
        Ok(CompDesc {
            name,
            kind,
            initial,
            on_error,
            fail_read,
            fail_write,
            joints,
        })
    }
}
