//! A description, printed as a text that is read as it.

mod controllers;
mod parts;
pub(crate) mod rows;

ghost use Rattle.std.specs.Prelude.{◌≡◌, Ok, IfOk, OnOk, drop, map};
ghost use Rattle.std.specs.List.{AllByRecursion};
ghost use Rattle.toml.specs.Data.{table};
ghost use Rattle.toml.specs.View.{array_view, items_of, table_view};
ghost use Rattle.cm_document.specs.Described.{tree_of, description_in};
ghost use Rattle.desc_text.specs.Printed.{component_tree, controller_tree, group_tree};
ghost use Rattle.desc_text.specs.Printed.{description_rows, description_tree};
ghost use Rattle.desc_text.specs.Printed.{with_rows};
ghost use Rattle.desc_text.specs.Readable.{ComponentIsReadable, ControllerIsReadable, IsReadable};

use cm_document::{CompDesc, CtlDesc, Description, GroupDesc};
use controllers::controller_table;
use fixed_num::Memory;
use parts::{component_table, group_table};
use rows::{put_list, put_whole};
use std::alloc::Global;
use toml::{Table, Value};

/// The text of a description of the second version: the walk reads it as this description. An empty list is left out,
/// except for the reads of a broadcaster. Each quantity is a text. The layout is that of `toml`.
pub fn print_description(alloc: Global, description: &Description) -> Result<Vec<u8>, Memory>
    requires { IsReadable description.now }
    ensures { IfOk result (λ text. description_in (tree_of text.items) ≡ Ok description.now) }
{
    let tree = description_table(alloc, description)?;
    match toml::table_to_string(alloc, &tree) {
        Ok(text) => Ok(text.into_bytes()),
        Err(_) => Err(Memory),
    }
}

/// The table that a description is printed as.
fn description_table(alloc: Global, description: &Description) -> Result<Table, Memory>
    requires { IsReadable description.now }
    ensures { IfOk result (λ made. table_view made ≡ description_tree description.now) }
{
    let mut made = Table::new(alloc);
    put_whole(alloc, &mut made, "version", u64::from(description.version))?;
    put_whole(
        alloc,
        &mut made,
        "update_rate",
        u64::from(description.update_rate),
    )?;
    put_whole(alloc, &mut made, "cycles", description.cycles)?;
    put_tables(alloc, &mut made, description)?;
    Ok(made)
}

/// Puts in what is described: components, controllers and groups.
fn put_tables(alloc: Global, made: &mut Table, description: &Description) -> Result<(), Memory>
    requires { IsReadable description.now }
    ensures { OnOk result (table_view made.new
        ≡ with_rows (drop 3 (description_rows description.now)) (table_view made.old)) }
{
    let components = component_tables(alloc, description.components.as_slice())?;
    put_list(alloc, made, "component", components)?;
    let controllers = controller_tables(alloc, description.controllers.as_slice())?;
    put_list(alloc, made, "controller", controllers)?;
    let groups = group_tables(alloc, description.groups.as_slice())?;
    put_list(alloc, made, "group", groups)
}

/// The tables of these components.
fn component_tables(alloc: Global, components: &[CompDesc]) -> Result<Vec<Value>, Memory>
    requires { AllByRecursion ComponentIsReadable components.now }
    ensures { IfOk result (λ list. array_view list
        ≡ items_of (map (λ c. table (component_tree c)) components.now)) }
{
    let mut list = Vec::new(alloc);
    for component in components {
        list.push(Value::Table(component_table(alloc, component)?))?;
    }
    Ok(list)
}

/// The tables of these controllers.
fn controller_tables(alloc: Global, controllers: &[CtlDesc]) -> Result<Vec<Value>, Memory>
    requires { AllByRecursion ControllerIsReadable controllers.now }
    ensures { IfOk result (λ list. array_view list
        ≡ items_of (map (λ c. table (controller_tree c)) controllers.now)) }
{
    let mut list = Vec::new(alloc);
    for controller in controllers {
        list.push(Value::Table(controller_table(alloc, controller)?))?;
    }
    Ok(list)
}

/// The tables of these groups.
fn group_tables(alloc: Global, groups: &[GroupDesc]) -> Result<Vec<Value>, Memory>
    ensures { IfOk result (λ list. array_view list ≡ items_of (map (λ g. table (group_tree g)) groups.now)) }
{
    let mut list = Vec::new(alloc);
    for group in groups {
        list.push(Value::Table(group_table(alloc, group)?))?;
    }
    Ok(list)
}
