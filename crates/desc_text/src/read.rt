//! The whole description: its text, and the top table of its tree.

ghost use Rattle.std.specs.Prelude.{◌≡◌, true, false, [], ◌++◌, codes, IfOk};
ghost use Rattle.sequence.specs.Answers.{Answers};
ghost use Rattle.toml.specs.View.{view, table_view};
ghost use Rattle.cm_document.specs.Described.{tree_of, description_in, description_form, described_states, top_table};
ghost use Rattle.cm_document.specs.Described.{is_second, is_two, controller_form, group_table, states_of};
ghost use Rattle.cm_document.specs.Forms.{tables_of};
ghost use Rattle.cm_document.specs.Tables.{defaulted_read, walk};
ghost use Rattle.cm_document.specs.Valid.{IsDescribed};
ghost use Rattle.toml.specs.Data.{get_member};

use crate::component::ComponentTable;
use crate::controller::ControllerTable;
use crate::forms::{One, TablesOf};
use crate::group::GroupTable;
use crate::keys::{Keys, look_up};
use crate::states::every_state;
use crate::values::{Cycle, Whole, whole_of};
use cm_document::{CompDesc, CtlDesc, DescFault, Description, GroupDesc, SECOND_VERSION};
use sequence::Seq;
use std::alloc::Global;
use toml::{Table, Value};

/// The keys that the top table may have in the first version, and in one that there is not.
const KEYS: [&str; 5] = [
    "version",
    "update_rate",
    "cycles",
    "component",
    "controller",
];

/// Those that it may have in the second version.
const SECOND_KEYS: [&str; 6] = [
    "version",
    "update_rate",
    "cycles",
    "component",
    "controller",
    "group",
];

/// The description in a text of TOML 1.1, or the first fault of its walk with the path of the key: `NotToml` where the
/// text has no tree, `BadKey` at a key that is not listed or that is missing, `FloatGiven` at a float for a number,
/// `BadValue` at any other value that is not of its form. In a table the unlisted keys come first, then the listed ones
/// in their order. Ranges, counts and repeated names are not looked at here.
#[tactic(auto, using(crate::proofs::TreeLemmas::tree_of_parsed, crate::proofs::TreeLemmas::tree_of_refused, cm_document::proofs::ValidLemmas::read_IsDescribed))]
pub fn read_description(alloc: Global, text: &[u8]) -> Result<Description, DescFault>
    ensures reads { Answers DescFault.Memory (description_in (tree_of text.now)) result }
    ensures described { IfOk result IsDescribed }
{
    match toml::table_from_slice(alloc, text) {
        Ok(table) => top(alloc, &table),
        Err(fault) => {
            if fault.is_memory() {
                Err(DescFault::Memory)
            } else {
                Err(DescFault::NotToml)
            }
        }
    }
}

/// The top table, of whose version it depends which keys it may have.
#[tactic(auto, unfolding(cm_document::specs::Described::description_form))]
fn top(alloc: Global, table: &Table) -> Result<Description, DescFault>
    ensures { Answers DescFault.Memory (description_form.read [] (table_view table.now)) result }
{
    if is_second(table) {
        second(alloc, table)
    } else {
        first(alloc, table)
    }
}

/// Whether the whole 2 stands at the key of the version.
fn is_second(table: &Table) -> bool
    ensures { result ≡ is_second (table_view table.now) }
{
    match look_up(table, "version") {
        Some(value) => is_two(value),
        None => false,
    }
}

/// Whether the value is the whole 2.
fn is_two(value: &Value) -> bool
    ensures { result ≡ is_two (view value.now) }
{
    match whole_of(value) {
        Ok(number) => number == SECOND_VERSION,
        Err(_) => false,
    }
}

/// The top table of the first version: it has no groups.
#[tactic(auto, unfolding(cm_document::specs::Described::top_table))]
fn first(alloc: Global, table: &Table) -> Result<Description, DescFault>
    ensures { Answers DescFault.Memory
        ((walk (top_table (described_states (table_view table.now)) false)).read [] (table_view table.now)) result }
{
    let keys = Keys {
        alloc,
        table,
        prefix: "",
    };
    keys.none_but(&KEYS)?;
    let version = keys.required("version", &One(Whole))?;
    let update_rate = keys.required("update_rate", &One(Whole))?;
    let cycles = keys.required("cycles", &One(Cycle))?;
    let components = keys.defaulted("component", &TablesOf(ComponentTable), Seq::new(alloc))?;
    let controllers = controllers(&keys, components.as_slice())?;
    let groups = Seq::new(alloc);
    Ok(Description {
        version,
        update_rate,
        cycles,
        components,
        controllers,
        groups,
    })
}

/// The top table of the second version.
#[tactic(auto, unfolding(cm_document::specs::Described::top_table))]
fn second(alloc: Global, table: &Table) -> Result<Description, DescFault>
    ensures { Answers DescFault.Memory
        ((walk (top_table (described_states (table_view table.now)) true)).read [] (table_view table.now)) result }
{
    let top = Keys {
        alloc,
        table,
        prefix: "",
    };
    top.none_but(&SECOND_KEYS)?;
    let version = top.required("version", &One(Whole))?;
    let update_rate = top.required("update_rate", &One(Whole))?;
    let cycles = top.required("cycles", &One(Cycle))?;
    let components = top.defaulted("component", &TablesOf(ComponentTable), Seq::new(alloc))?;
    let controllers = controllers(&top, components.as_slice())?;
    let groups = groups(&top)?;
    Ok(Description {
        version,
        update_rate,
        cycles,
        components,
        controllers,
        groups,
    })
}

/// The groups, none if the key is missing.
fn groups(keys: &Keys<'_>) -> Result<Seq<GroupDesc>, DescFault>
    ensures { Answers DescFault.Memory
        (defaulted_read (tables_of (walk group_table)) [] (keys.now.prefix.now ++ codes "group")
        (get_member (codes "group") (table_view keys.now.table.now))) result }
{
    keys.defaulted("group", &TablesOf(GroupTable), Seq::new(keys.alloc))
}

/// The controllers; `all` stands for the states of these components.
fn controllers(keys: &Keys<'_>, components: &[CompDesc]) -> Result<Seq<CtlDesc>, DescFault>
    ensures { Answers DescFault.Memory
        (defaulted_read (tables_of (controller_form (states_of components.now))) []
        (keys.now.prefix.now ++ codes "controller")
        (get_member (codes "controller") (table_view keys.now.table.now))) result }
{
    let all = every_state(keys.alloc, components)?;
    let form = TablesOf(ControllerTable { all });
    keys.defaulted("controller", &form, Seq::new(keys.alloc))
}
