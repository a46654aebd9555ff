//! The tables of components, joints and groups.

ghost use Rattle.std.specs.Prelude.{◌≡◌, IfOk, OnOk, drop, map, take};
ghost use Rattle.toml.specs.Data.{table};
ghost use Rattle.toml.specs.View.{array_view, items_of, table_view};
ghost use Rattle.desc_text.specs.Printed.{joint_rows, joint_tree, component_rows, component_tree, group_tree, kinds};
ghost use Rattle.desc_text.specs.Printed.{with_row, with_rows};
ghost use Rattle.desc_text.specs.Readable.{ComponentIsReadable};

use crate::print::rows::{put_cycles, put_list, put_names, put_quantity, put_text};
use cm_document::{CompDesc, GroupDesc, JointDesc};
use fixed_num::Memory;
use iface_names::Kind;
use std::alloc::Global;
use toml::{Table, Value};

/// The table of a component.
pub fn component_table(alloc: Global, component: &CompDesc) -> Result<Table, Memory>
    requires { ComponentIsReadable component.now }
    ensures { IfOk result (λ made. table_view made ≡ component_tree component.now) }
{
    let mut made = Table::new(alloc);
    put_states(alloc, &mut made, component)?;
    put_cycles(
        alloc,
        &mut made,
        "fail_read",
        component.fail_read.as_slice(),
    )?;
    put_cycles(
        alloc,
        &mut made,
        "fail_write",
        component.fail_write.as_slice(),
    )?;
    let joints = joint_tables(alloc, component.joints.as_slice())?;
    put_list(alloc, &mut made, "joint", joints)?;
    Ok(made)
}

/// Puts in what it is, and its states at start and after a failure.
fn put_states(alloc: Global, made: &mut Table, component: &CompDesc) -> Result<(), Memory>
    ensures { OnOk result (table_view made.new
        ≡ with_rows (take 4 (component_rows component.now)) (table_view made.old)) }
{
    put_text(alloc, made, "name", component.name.as_str())?;
    put_text(alloc, made, "kind", component.kind.word())?;
    put_text(alloc, made, "initial", component.initial.word())?;
    put_text(alloc, made, "on_error", component.on_error.word())
}

/// The tables of these joints.
fn joint_tables(alloc: Global, joints: &[JointDesc]) -> Result<Vec<Value>, Memory>
    ensures { IfOk result (λ list. array_view list ≡ items_of (map (λ j. table (joint_tree j)) joints.now)) }
{
    let mut list = Vec::new(alloc);
    for joint in joints {
        list.push(Value::Table(joint_table(alloc, joint)?))?;
    }
    Ok(list)
}

/// The table of a joint.
fn joint_table(alloc: Global, joint: &JointDesc) -> Result<Table, Memory>
    ensures { IfOk result (λ made. table_view made ≡ joint_tree joint.now) }
{
    let mut made = Table::new(alloc);
    put_text(alloc, &mut made, "name", joint.name.as_str())?;
    put_body(alloc, &mut made, joint)?;
    put_kinds(alloc, &mut made, "command", joint.commands.as_slice())?;
    put_kinds(alloc, &mut made, "state", joint.states.as_slice())?;
    Ok(made)
}

/// Puts in its limits and where it is at start.
fn put_body(alloc: Global, made: &mut Table, joint: &JointDesc) -> Result<(), Memory>
    ensures { OnOk result (table_view made.new
        ≡ with_rows (take 5 (drop 1 (joint_rows joint.now))) (table_view made.old)) }
{
    put_quantity(alloc, made, "vmax", joint.vmax)?;
    put_quantity(alloc, made, "gain", joint.gain)?;
    put_quantity(alloc, made, "damping", joint.damping)?;
    put_quantity(alloc, made, "position", joint.position)?;
    put_quantity(alloc, made, "velocity", joint.velocity)
}

/// Puts kinds of interfaces in, if there are any.
fn put_kinds(alloc: Global, made: &mut Table, key: &str, said: &[Kind]) -> Result<(), Memory>
    ensures { OnOk result (table_view made.new ≡ with_row (key.now, kinds said.now) (table_view made.old)) }
{
    let mut list = Vec::new(alloc);
    for kind in said {
        list.push(Value::string(alloc, kind.word())?)?;
    }
    put_list(alloc, made, key, list)
}

/// The table of a group.
pub fn group_table(alloc: Global, group: &GroupDesc) -> Result<Table, Memory>
    ensures { IfOk result (λ made. table_view made ≡ group_tree group.now) }
{
    let mut made = Table::new(alloc);
    put_text(alloc, &mut made, "name", group.name.as_str())?;
    put_names(alloc, &mut made, "members", group.members.as_slice())?;
    Ok(made)
}
