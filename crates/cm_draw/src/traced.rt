//! The run that a stored trace tells, drawn as far as the trace is legal.

ghost use Rattle.std.specs.Prelude.{◌≤◌, length};
ghost use Rattle.cm_document.specs.declared.limits.TheConstants.{LONGEST_DOCUMENT};
ghost use Rattle.cm_document.specs.ScriptLaws.{MeetsRules};

use crate::output::write_text;
use crate::words::Written;
use cm_document::{Document, DocumentFault};
use cm_stock::Stock;
use cm_top::Status;
use ctl_trait::Controller;
use document_text::{Traced, read_traced};
use draw_page::{WrongTrace, trace_page_of, trace_whys_of};
use outside_io::Sink;
use script_text::{bare_line, first_line};
use std::alloc::Global;
use trace_check::{Replayed, replay_over};

/// Draws the stored trace of the document that these bytes are, as far as it is legal.
pub(crate) fn draw_traced<K: Sink, C: Controller>(
    alloc: Global,
    written: &Written,
    bytes: &[u8],
    sink: &mut K,
    stock: Stock<C>,
) -> Status
    requires { length bytes.now ≤ LONGEST_DOCUMENT }
{
    match read_traced(alloc, bytes) {
        Ok(traced) => draw_trace(alloc, written, &traced, sink, stock),
        Err(DocumentFault::Description(problem)) => Status::BadDescription(problem),
        Err(DocumentFault::Script(fault)) => Status::BadScript(fault),
        Err(DocumentFault::Memory) => Status::Memory,
    }
}

/// Replays a stored trace over the program's stock, and draws what its lines told.
fn draw_trace<K: Sink, C: Controller>(
    alloc: Global,
    written: &Written,
    traced: &Traced<'_>,
    sink: &mut K,
    stock: Stock<C>,
) -> Status
    requires short { length traced.now.trace.now ≤ LONGEST_DOCUMENT }
    requires rules { MeetsRules traced.now.document.script }
{
    let Document {
        description,
        script,
    } = &traced.document;
    let Ok(replay) = replay_over(alloc, description, script, stock, traced.trace) else {
        return Status::Memory;
    };
    let wrong = wrong_of(&replay, traced.trace);
    let description = description.description();
    let text = match written {
        Written::Page(name) => trace_page_of(
            alloc,
            name.as_str(),
            description,
            script,
            replay.told(),
            wrong,
        ),
        Written::Whys => trace_whys_of(alloc, description, script, replay.told(), wrong),
    };
    write_text(sink, text)
}

/// Where a replay goes wrong, with the line that came.
fn wrong_of<'a, C: Controller>(replay: &'a Replayed<C>, trace: &'a [u8]) -> Option<WrongTrace<'a>> {
    let wrong = replay.wrong()?;
    Some(WrongTrace {
        line: wrong.line,
        came: line_at(trace, wrong.line),
        expected: wrong.expected.as_slice(),
    })
}

/// The line of this number, without its end; nothing past the last.
fn line_at(text: &[u8], number: u32) -> &[u8] {
    let mut rest = text;
    let mut before = 1u32;
    while !rest.is_empty() {
        let (line, more) = first_line(rest);
        if before == number {
            return bare_line(line);
        }
        before = before.saturating_add(1);
        rest = more;
    }
    rest
}
