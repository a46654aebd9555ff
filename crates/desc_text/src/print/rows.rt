//! The rows of a table that is made: a key, and what stands there.

ghost use Rattle.std.specs.Prelude.{◌≡◌, pos, map, Some, OnOk, IfOk};
ghost use Rattle.toml.specs.Data.{string, integer, boolean};
ghost use Rattle.toml.specs.View.{view, array_view, items_of, table_view};
ghost use Rattle.iface_names.specs.Interfaces.{interface_text};
ghost use Rattle.desc_text.specs.Printed.{with_member, with_row, if_items, text, whole, quantity, names};
ghost use Rattle.desc_text.specs.Printed.{interfaces, cycles};
ghost use Rattle.cm_document.specs.Given.{IsWhole, AreWholes};

use fixed_num::{Fx, Memory};
use iface_names::{IfaceName, Name};
use std::alloc::Global;
use toml::{Table, Value};

/// Puts a value in at a key.
pub fn put(alloc: Global, made: &mut Table, key: &str, value: Value) -> Result<(), Memory>
    ensures { OnOk result (table_view made.new ≡ with_member key.now (view value) (table_view made.old)) }
{
    let key = String::from_str(alloc, key)?;
    made.insert(key, value)?;
    Ok(())
}

/// Puts a text in.
pub fn put_text(alloc: Global, made: &mut Table, key: &str, said: &str) -> Result<(), Memory>
    ensures { OnOk result (table_view made.new ≡ with_row (key.now, text said.now) (table_view made.old)) }
{
    let value = Value::string(alloc, said)?;
    put(alloc, made, key, value)
}

/// Puts a whole in.
pub fn put_whole(alloc: Global, made: &mut Table, key: &str, number: u64) -> Result<(), Memory>
    requires { IsWhole number }
    ensures { OnOk result (table_view made.new ≡ with_row (key.now, whole number) (table_view made.old)) }
{
    put(alloc, made, key, Value::Integer(number as i64))
}

/// Puts a quantity in, as a text.
pub fn put_quantity(alloc: Global, made: &mut Table, key: &str, number: Fx) -> Result<(), Memory>
    ensures { OnOk result (table_view made.new ≡ with_row (key.now, quantity number) (table_view made.old)) }
{
    let spelled = number.text(alloc)?;
    put(alloc, made, key, Value::String(spelled))
}

/// Puts `true` or `false` in.
pub fn put_flag(alloc: Global, made: &mut Table, key: &str, flag: bool) -> Result<(), Memory>
    ensures { OnOk result
        (table_view made.new ≡ with_row (key.now, Some (boolean flag)) (table_view made.old)) }
{
    put(alloc, made, key, Value::Boolean(flag))
}

/// Puts a list in, if it is not empty.
pub fn put_list(alloc: Global, made: &mut Table, key: &str, list: Vec<Value>) -> Result<(), Memory>
    ensures { OnOk result
        (table_view made.new ≡ with_row (key.now, if_items (array_view list)) (table_view made.old)) }
{
    if list.is_empty() {
        return Ok(());
    }
    put(alloc, made, key, Value::Array(list))
}

/// Puts names in, if there are any.
pub fn put_names(alloc: Global, made: &mut Table, key: &str, list: &[Name]) -> Result<(), Memory>
    ensures { OnOk result (table_view made.new ≡ with_row (key.now, names list.now) (table_view made.old)) }
{
    let texts = name_texts(alloc, list)?;
    put_list(alloc, made, key, texts)
}

fn name_texts(alloc: Global, names: &[Name]) -> Result<Vec<Value>, Memory>
    ensures { IfOk result (λ list. array_view list ≡ items_of (map string names.now)) }
{
    let mut list = Vec::new(alloc);
    for name in names {
        list.push(Value::string(alloc, name.as_str())?)?;
    }
    Ok(list)
}

/// Puts interfaces in, if there are any.
pub fn put_interfaces(
    alloc: Global,
    made: &mut Table,
    key: &str,
    list: &[IfaceName],
) -> Result<(), Memory>
    ensures { OnOk result
        (table_view made.new ≡ with_row (key.now, interfaces list.now) (table_view made.old)) }
{
    let texts = interface_texts(alloc, list)?;
    put_list(alloc, made, key, texts)
}

/// The texts of these interfaces.
pub(crate) fn interface_texts(alloc: Global, interfaces: &[IfaceName]) -> Result<Vec<Value>, Memory>
    ensures { IfOk result
        (λ list. array_view list ≡ items_of (map (λ it. string (interface_text it)) interfaces.now)) }
{
    let mut list = Vec::new(alloc);
    for interface in interfaces {
        let mut text = String::new(alloc);
        write!(text, "{interface}")?;
        list.push(Value::String(text))?;
    }
    Ok(list)
}

/// Puts cycles in, if there are any.
pub fn put_cycles(alloc: Global, made: &mut Table, key: &str, list: &[u64]) -> Result<(), Memory>
    requires { AreWholes list.now }
    ensures { OnOk result (table_view made.new ≡ with_row (key.now, cycles list.now) (table_view made.old)) }
{
    let numbers = numbers(alloc, list)?;
    put_list(alloc, made, key, numbers)
}

fn numbers(alloc: Global, cycles: &[u64]) -> Result<Vec<Value>, Memory>
    requires { AreWholes cycles.now }
    ensures { IfOk result (λ list. array_view list ≡ items_of (map (λ n. integer (pos n)) cycles.now)) }
{
    let mut list = Vec::new(alloc);
    for cycle in cycles {
        list.push(Value::Integer(*cycle as i64))?;
    }
    Ok(list)
}
