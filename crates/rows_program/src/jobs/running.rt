//! A live run of a document, whose threads are held in an order.

ghost use Rattle.std.specs.Prelude.{◌<◌, ◌^◌, length};
ghost use Rattle.std.specs.List.{All};
ghost use Rattle.cm_model.specs.Controllers.{IsBlank};

use crate::jobs::ordered::{InOrder, OrderedPace};
use crate::jobs::waiting::told;
use cm_stock::Stock;
use cm_top::{Status, run};
use ctl_trait::Controller;
use outside_io::{MemSink, MemSource};
use pages_calls::stocks::few_blanks;
use pages_cases::pages::{expanded, halves, hold_told, joined};
use pages_runs::runs::{IN_STOCK, OF_PROGRAM, ample_sink};
use std::alloc::Global;
use std::sync::Wait;
use std::test::Fail;
use std::thread::Threads;

/// A document of one joint with a controller, and with a mock for which that one stands in. The cycles and the script
/// stand behind it.
pub(crate) const ARM: &str = r#"version = 1
update_rate = 100
component = [
    { name = "arm", kind = "actuator", joint = [
        { name = "j1", vmax = 1, command = ["position"], state = ["position"] },
    ] },
]
controller = [
    { name = "fwd", type = "forward", claims = ["j1/position"] },
    { name = "mk", type = "mock", fallback = ["fwd"], fail_update = [1] },
]
"#;

/// What stands before the marks, in the last line of a case.
const ORDER: &str = "order: ";

/// Fails at the first case of a page of which something else is told than it says, in one of so many runs. A case is
/// the end of a document of the arm, and then a line with the order of its threads.
pub(crate) fn hold<R: Threads + Wait + Sync>(
    rt: &R,
    alloc: Global,
    page: &str,
    times: u32,
) -> Result<(), Fail> {
    for case in page.split("\n\n") {
        hold_case(rt, alloc, case, times)?;
    }
    Ok(())
}

fn hold_case<R: Threads + Wait + Sync>(
    rt: &R,
    alloc: Global,
    case: &str,
    times: u32,
) -> Result<(), Fail> {
    let case = expanded(alloc, case)?;
    let (text, want) = halves(case.as_str(), "=> ")?;
    for _ in 0..times {
        let told = told_of(rt, alloc, text)?;
        hold_told(alloc, text, told.as_str(), want)?;
    }
    Ok(())
}

/// How the live run of a case ends and what it prints.
pub(crate) fn told_of<R: Threads + Wait + Sync>(
    rt: &R,
    alloc: Global,
    text: &str,
) -> Result<String, Fail> {
    let (script, marks) = halves(text, ORDER)?;
    let ran = run_in_order(rt, alloc, ARM, script, marks.trim_end())?;
    Ok(ran.told)
}

/// A live run whose threads come by these marks in order; nobody is held at others. The document has two parts.
pub(crate) fn run_in_order<R: Threads + Wait + Sync>(
    rt: &R,
    alloc: Global,
    head: &str,
    script: &str,
    marks: &str,
) -> Result<Ran, Fail> {
    let document = joined(alloc, head, script)?;
    let order = InOrder::read(alloc, marks)?;
    let ran = run_live(rt, alloc, document.as_str(), &order)?;
    if !order.has_come_through() {
        return Err(Fail::new(format!(in alloc; "held too long: {marks}")?));
    }
    Ok(ran)
}

/// How a run ended with what it printed, and how often it called its pace.
#[derive(Drop)]
pub(crate) struct Ran {
    pub told: String,
    pub pauses: u64,
}

/// Runs the document live.
fn run_live<R: Threads + Wait + Sync>(
    rt: &R,
    alloc: Global,
    document: &str,
    order: &InOrder,
) -> Result<Ran, Fail> {
    let words = [String::from_str(alloc, "live")?];
    let mut source = OF_PROGRAM.source(alloc, document)?;
    let mut sink = ample_sink(alloc)?;
    let ended = run_stocked(rt, alloc, &words, &mut source, &mut sink, order)?;
    all_told(alloc, ended, sink.bytes())
}

/// What is told of a run that ended so, and printed these bytes.
fn all_told(alloc: Global, ended: Ended, printed: &[u8]) -> Result<Ran, Fail> {
    let Ended { status, pauses } = ended;
    Ok(Ran {
        told: told(alloc, status, printed)?,
        pauses,
    })
}

/// How a run ended, and how often it called its pace.
#[derive(Drop)]
struct Ended {
    status: Status,
    pauses: u64,
}

/// Runs the words over the program's stock.
fn run_stocked<R: Threads + Wait + Sync>(
    rt: &R,
    alloc: Global,
    words: &[String],
    source: &mut MemSource,
    sink: &mut MemSink,
    order: &InOrder,
) -> Result<Ended, Fail> {
    let blanks = few_blanks(alloc, IN_STOCK)?;
    Ok(run_held(rt, alloc, words, source, sink, blanks, order))
}

/// Runs the words over a stock of these blanks.
fn run_held<R: Threads + Wait + Sync, C: Controller + Send>(
    rt: &R,
    alloc: Global,
    words: &[String],
    source: &mut MemSource,
    sink: &mut MemSink,
    blanks: Vec<C>,
    order: &InOrder,
) -> Ended
    requires blank { All (λ c. IsBlank (C.meaning c)) blanks.items }
    requires few { length blanks.items < 2 ^ 32 }
{
    let mut pace = OrderedPace { order, calls: 0 };
    let stock = Stock::make(blanks);
    let (status, _) = run(rt, alloc, words, source, sink, stock, &mut pace, order);
    Ended {
        status,
        pauses: pace.calls,
    }
}
