//! The program's stock, a box for each blank.

ghost use Rattle.cm_stock.specs.Stocks.{AreBlanks};
ghost use Rattle.std.specs.Prelude.{◌≡◌, map, string_bytes, IfOk, OnErr};
ghost use Rattle.cm_top.specs.Calls.Run.{source_facts, sink_facts};
ghost use Rattle.cm_model.specs.Blanks.{blanks_of_each};
ghost use Rattle.cm_program.specs.Ran.{RanWords};

use cm_stock::Stock;
use cm_top::{Status, run};
use ctl_any::boxed_blanks;
use ctl_trait::Controller;
use fixed_num::Memory;
use outside_io::{OpenGate, Sink, Source, YieldPace};
use std::sync::Wait;
use std::thread::Threads;

/// How many blanks of each kind the program has in stock.
pub const BLANKS: u32 = 32;

/// Runs the words over the program's stock, a box for each blank.
pub(crate) fn run_stocked<R, S, K>(
    rt: &R,
    words: &[String],
    source: &mut S,
    sink: &mut K,
) -> Result<Status, Memory>
where
    R: Threads + Wait + Sync + AllocGlobal,
    S: Source,
    K: Sink,
    ensures ran { IfOk result (RanWords (source_facts S.left S.faults) (sink_facts K.taken K.flushed K.faults)
        (map string_bytes words.now) (blanks_of_each BLANKS) source.old source.new sink.old sink.new) }
    // If blanks can't be had, nothing was read and nothing written.
    ensures kept { OnErr result ((source.new ≡ source.old) × (sink.new ≡ sink.old)) }
{
    let blanks = boxed_blanks(rt.alloc(), BLANKS)?;
    Ok(run_over(rt, words, source, sink, blanks))
}

/// Runs the words over a stock of these blanks, so many of each kind. The history is left to the system, which takes it
/// back at once when the program ends: to free each entry would take as long as a tenth of a run.
fn run_over<R, S, K, C>(
    rt: &R,
    words: &[String],
    source: &mut S,
    sink: &mut K,
    blanks: Vec<C>,
) -> Status
where
    R: Threads + Wait + Sync + AllocGlobal,
    S: Source,
    K: Sink,
    C: Controller + Send,
    requires { AreBlanks C.meaning blanks.items (blanks_of_each BLANKS) }
    ensures { RanWords (source_facts S.left S.faults) (sink_facts K.taken K.flushed K.faults)
        (map string_bytes words.now) (blanks_of_each BLANKS) source.old source.new sink.old sink.new result }
{
    let stock = Stock::make(blanks);
    let alloc = rt.alloc();
    let (status, book) = run(
        rt,
        alloc,
        words,
        source,
        sink,
        stock,
        &mut YieldPace,
        &OpenGate,
    );
    if let Some(book) = book {
        let _left = book.history.leak();
    }
    status
}
