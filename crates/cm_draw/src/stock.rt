//! What is asked, drawn over the program's stock.

ghost use Rattle.cm_stock.specs.Stocks.{AreBlanks};
ghost use Rattle.std.specs.Prelude.{◌≤◌, length};
ghost use Rattle.cm_document.specs.declared.limits.TheConstants.{LONGEST_DOCUMENT};
ghost use Rattle.cm_model.specs.Blanks.{blanks_of_each};
ghost use Rattle.cm_program.specs.declared.stock.TheConstants.{BLANKS};

use crate::made::draw_made;
use crate::traced::draw_traced;
use crate::words::{DrawJob, Drawn};
use cm_document::LONGEST_DOCUMENT;
use cm_program::stock::BLANKS;
use cm_stock::Stock;
use cm_top::Status;
use ctl_any::boxed_blanks;
use ctl_trait::Controller;
use fixed_num::Memory;
use outside_io::{ReadFault, Sink, Source, read_whole};
use std::alloc::Global;

/// Draws over the program's stock, which is that of `cm`.
pub(crate) fn draw_stocked<S: Source, K: Sink>(
    alloc: Global,
    asked: &DrawJob,
    source: &mut S,
    sink: &mut K,
) -> Result<Status, Memory> {
    let blanks = boxed_blanks(alloc, BLANKS)?;
    Ok(draw_over(alloc, asked, source, sink, blanks))
}

/// Draws over a stock of these blanks.
fn draw_over<S: Source, K: Sink, C: Controller>(
    alloc: Global,
    asked: &DrawJob,
    source: &mut S,
    sink: &mut K,
    blanks: Vec<C>,
) -> Status
    requires { AreBlanks C.meaning blanks.items (blanks_of_each BLANKS) }
{
    draw(alloc, asked, source, sink, Stock::make(blanks))
}

/// Reads a document, and writes what is asked of it. A document that is refused writes nothing.
fn draw<S: Source, K: Sink, C: Controller>(
    alloc: Global,
    asked: &DrawJob,
    source: &mut S,
    sink: &mut K,
    stock: Stock<C>,
) -> Status {
    match read_whole(alloc, source, LONGEST_DOCUMENT) {
        Ok(bytes) => draw_bytes(alloc, asked, bytes.as_slice(), sink, stock),
        Err(ReadFault::Failed) => Status::ReadFault,
        Err(ReadFault::TooLong) => Status::TooLong,
        Err(ReadFault::Memory) => Status::Memory,
    }
}

/// Draws the document that these bytes are.
fn draw_bytes<K: Sink, C: Controller>(
    alloc: Global,
    asked: &DrawJob,
    bytes: &[u8],
    sink: &mut K,
    stock: Stock<C>,
) -> Status
    requires { length bytes.now ≤ LONGEST_DOCUMENT }
{
    match &asked.drawn {
        Drawn::Made(made) => draw_made(alloc, &asked.written, *made, bytes, sink, stock),
        Drawn::Told => draw_traced(alloc, &asked.written, bytes, sink, stock),
    }
}
