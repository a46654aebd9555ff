//! The summary of a history, a line a piece.

ghost use Rattle.std.specs.Prelude.{◌≡◌, flat_map, Err, OnOk, OnErr, string_bytes};
ghost use Rattle.std.specs.Io.KnownBytes.{Appends};
ghost use Rattle.outside_io.specs.Bytes.{AppendsPrefix};
ghost use Rattle.outside_io.specs.Faults.{IsToldAs};
ghost use Rattle.summary_text.specs.Summary.{summary};

use crate::lines::summary_lines;
use crate::tally::Tally;
use cm_document::Checked;
use cm_model::Entry;
use outside_io::{Sink, write_whole};
use std::alloc::Global;
use trace_text::OutFault;

/// Writes a line as one piece, and again what the sink did not take of it.
fn write_line<K: Sink>(sink: &mut K, line: &String) -> Result<(), OutFault>
    ensures ok { OnOk result (Appends (K.taken sink.old) (K.taken sink.new) (string_bytes line.now)) }
    ensures err { OnErr result (AppendsPrefix (K.taken sink.old) (K.taken sink.new) (string_bytes line.now)) }
    ensures flushed { K.flushed sink.new ≡ K.flushed sink.old }
    ensures fault { IsToldAs (Err OutFault.Failed) result (K.faults sink.old) (K.faults sink.new) }
{
    write_whole(sink, line.as_bytes())?;
    Ok(())
}

fn write_lines<K: Sink>(sink: &mut K, lines: &[String]) -> Result<(), OutFault>
    ensures ok { OnOk result (Appends (K.taken sink.old) (K.taken sink.new) (flat_map string_bytes lines.now)) }
    ensures err { OnErr result
        (AppendsPrefix (K.taken sink.old) (K.taken sink.new) (flat_map string_bytes lines.now)) }
    ensures flushed { K.flushed sink.new ≡ K.flushed sink.old }
    ensures fault { IsToldAs (Err OutFault.Failed) result (K.faults sink.old) (K.faults sink.new) }
{
    for line in lines {
        write_line(sink, line)?;
    }
    Ok(())
}

/// Writes the summary of a history, a line a piece. It is counted in one pass over the entries, before anything is
/// written. After either fault the sink has taken a front of it. Nothing is flushed.
#[tactic(auto, using(crate::proofs::LineLemmas::lines_are_summary))]
pub fn write_summary<K: Sink>(
    alloc: Global,
    sink: &mut K,
    checked: &Checked,
    history: &[Entry],
) -> Result<(), OutFault>
    ensures ok { OnOk result
        (Appends (K.taken sink.old) (K.taken sink.new) (summary checked.now history.now)) }
    ensures err { OnErr result
        (AppendsPrefix (K.taken sink.old) (K.taken sink.new) (summary checked.now history.now)) }
    ensures flushed { K.flushed sink.new ≡ K.flushed sink.old }
    ensures fault { IsToldAs (Err OutFault.Failed) result (K.faults sink.old) (K.faults sink.new) }
{
    let tally = Tally::of(history);
    let lines = summary_lines(alloc, checked.description(), &tally)?;
    write_lines(sink, lines.as_slice())
}
