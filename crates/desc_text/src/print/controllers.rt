//! The table of a controller.

ghost use Rattle.std.specs.Prelude.{◌≡◌, IfOk, OnOk};
ghost use Rattle.toml.specs.View.{table_view};
ghost use Rattle.cm_document.specs.Params.{kind_of, reads_asked};
ghost use Rattle.desc_text.specs.Printed.{controller_tree, head_rows, reads_row, with_row, with_rows};
ghost use Rattle.desc_text.specs.Readable.{ControllerIsReadable};

use crate::own_keys::put_params;
use crate::print::rows::{interface_texts, put, put_interfaces, put_names, put_text, put_whole};
use cm_document::{CtlDesc, KeyAsked};
use fixed_num::Memory;
use std::alloc::Global;
use toml::{Table, Value};

/// The table of a controller.
pub fn controller_table(alloc: Global, controller: &CtlDesc) -> Result<Table, Memory>
    requires { ControllerIsReadable controller.now }
    ensures { IfOk result (λ made. table_view made ≡ controller_tree controller.now) }
{
    let mut made = Table::new(alloc);
    put_head(alloc, &mut made, controller)?;
    put_reads(alloc, &mut made, controller)?;
    put_params(alloc, &mut made, &controller.params)?;
    Ok(made)
}

/// Puts in what a controller of every type has.
fn put_head(alloc: Global, made: &mut Table, controller: &CtlDesc) -> Result<(), Memory>
    requires { ControllerIsReadable controller.now }
    ensures { OnOk result (table_view made.new ≡ with_rows (head_rows controller.now) (table_view made.old)) }
{
    put_text(alloc, made, "name", controller.name.as_str())?;
    put_text(alloc, made, "type", controller.params.kind().word())?;
    put_whole(alloc, made, "update_rate", u64::from(controller.rate))?;
    put_names(alloc, made, "fallback", controller.fallback.as_slice())?;
    put_interfaces(alloc, made, "claims", controller.claims.as_slice())
}

/// Puts in what it reads: where `all` may stand, also nothing.
fn put_reads(alloc: Global, made: &mut Table, controller: &CtlDesc) -> Result<(), Memory>
    ensures { OnOk result (table_view made.new
        ≡ with_row (reads_row (reads_asked (kind_of controller.now.params)) controller.now) (table_view made.old)) }
{
    match controller.params.kind().reads_asked() {
        KeyAsked::ListedOrAll => {
            let texts = interface_texts(alloc, controller.reads())?;
            put(alloc, made, "reads", Value::Array(texts))
        }
        _ => put_interfaces(alloc, made, "reads", controller.reads()),
    }
}
