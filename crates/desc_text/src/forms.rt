//! The forms that the value of a key can be asked to have: one value, a list, a list of tables.

ghost use Rattle.std.specs.Prelude.{◌≡◌, List, [], Result};
ghost use Rattle.sequence.specs.Answers.{Answers};
ghost use Rattle.toml.specs.Data.{Data, Members};
ghost use Rattle.toml.specs.View.{view, items_view, table_view};
ghost use Rattle.cm_document.specs.Forms.{Form, one, list_after, items_from, item_path, tables_of, tables_from, placed};
ghost use Rattle.cm_document.specs.Reading.{fault_as};
ghost use Rattle.cm_document.specs.declared.faults.Wrong.{Wrong};
ghost use Rattle.desc_text.specs.declared.faults.Refused.TheVariants as refused;

use crate::faults::Refused;
use crate::keys::Keys;
use crate::paths::{item_path, item_prefix, text_of};
use cm_document::DescFault;
use sequence::Seq;
use std::alloc::Global;
use toml::Value;

/// How one value is read. An item of a list may look at those before it; a value alone has none before it.
pub trait Rule {
    /// What it is read as.
    type Read: Drop;

    ghost rule: { List Self.Read → Data → Result Self.Read Wrong };

    /// The value as it was read, or what is wrong with it.
    fn read(alloc: Global, before: &[Self::Read], value: &Value) -> Result<Self::Read, Refused>
        ensures { Answers Refused.Memory (fault_as refused.Wrong (rule before.now (view value.now))) result };
}

/// How the value of a key is read.
pub trait Form {
    /// What it is read as.
    type Read: Drop;

    ghost form: { Self → Form Data Self.Read };

    /// The value at this path as it was read, or its first fault.
    fn read(&self, alloc: Global, path: &str, value: &Value) -> Result<Self::Read, DescFault>
        ensures { Answers DescFault.Memory ((form self.now).read path.now (view value.now)) result };
}

/// How a table is read.
pub trait TableForm {
    /// What it is read as.
    type Read: Drop;

    ghost table_form: { Self → Form Members Self.Read };

    /// The table as it was read, or its first fault.
    fn read(&self, keys: &Keys<'_>) -> Result<Self::Read, DescFault>
        ensures { Answers DescFault.Memory
            ((table_form self.now).read keys.now.prefix.now (table_view keys.now.table.now)) result };
}

/// One value, read by this rule.
#[derive(Drop)]
pub struct One<R>(pub R);

impl<R: Rule> Form for One<R> {
    type Read = R::Read;

    ghost form = { λ _. one (R.rule []) };

    fn read(&self, alloc: Global, path: &str, value: &Value) -> Result<R::Read, DescFault> {
        match R::read(alloc, &[], value) {
            Ok(read) => Ok(read),
            Err(refused) => Err(refused.at(text_of(alloc, path)?)),
        }
    }
}

/// A list, each item read by this rule.
#[derive(Drop)]
pub struct ListOf<R>(pub R);

impl<R: Rule> Form for ListOf<R> {
    type Read = Seq<R::Read>;

    ghost form = { λ _. list_after R.rule };

    fn read(&self, alloc: Global, path: &str, value: &Value) -> Result<Seq<R::Read>, DescFault> {
        match value {
            Value::Array(items) => each_item::<R>(alloc, path, items),
            _ => Err(DescFault::BadValue(text_of(alloc, path)?)),
        }
    }
}

/// The items in written order: the first fault counts.
#[tactic(auto, using(crate::proofs::ItemLemmas::items_from_read, crate::proofs::ItemLemmas::items_from_fault))]
fn each_item<R: Rule>(alloc: Global, path: &str, items: &[Value]) -> Result<Seq<R::Read>, DescFault>
    ensures { Answers DescFault.Memory (items_from R.rule path.now 0 (items_view items.now) []) result }
{
    let mut found = Seq::new(alloc);
    for (index, item) in items.iter().enumerate() {
        found.push(item_at::<R>(alloc, path, index, found.as_slice(), item)?)?;
    }
    Ok(found)
}

/// One item, after those before it.
fn item_at<R: Rule>(
    alloc: Global,
    path: &str,
    index: usize,
    before: &[R::Read],
    item: &Value,
) -> Result<R::Read, DescFault>
    ensures { Answers DescFault.Memory (placed (item_path path.now index) (R.rule before.now (view item.now))) result }
{
    match R::read(alloc, before, item) {
        Ok(read) => Ok(read),
        Err(refused) => Err(refused.at(item_path(alloc, path, index)?)),
    }
}

/// An array of tables, each of this form.
#[derive(Drop)]
pub struct TablesOf<T>(pub T);

impl<T: TableForm> Form for TablesOf<T> {
    type Read = Seq<T::Read>;

    ghost form = { λ s. tables_of (T.table_form s.0) };

    fn read(&self, alloc: Global, path: &str, value: &Value) -> Result<Seq<T::Read>, DescFault> {
        match value {
            Value::Array(items) => each_table(alloc, &self.0, path, items),
            _ => Err(DescFault::BadValue(text_of(alloc, path)?)),
        }
    }
}

/// The tables in written order: the first fault counts. An item that is no table is one in its turn.
#[tactic(auto, using(crate::proofs::ItemLemmas::tables_from_read, crate::proofs::ItemLemmas::tables_from_fault, crate::proofs::ItemLemmas::tables_from_other))]
fn each_table<T: TableForm>(
    alloc: Global,
    form: &T,
    path: &str,
    items: &[Value],
) -> Result<Seq<T::Read>, DescFault>
    ensures { Answers DescFault.Memory (tables_from (T.table_form form.now) path.now 0 (items_view items.now) [])
        result }
{
    let mut found = Seq::new(alloc);
    for (index, item) in items.iter().enumerate() {
        let Some(table) = item.as_table() else {
            return Err(DescFault::BadValue(item_path(alloc, path, index)?));
        };
        let prefix = item_prefix(alloc, path, index)?;
        let keys = Keys {
            alloc,
            table,
            prefix: prefix.as_str(),
        };
        found.push(form.read(&keys)?)?;
    }
    Ok(found)
}
