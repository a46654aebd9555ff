//! Runs by their words. Neither pace nor gate is called, but by a live run.

ghost use Rattle.std.specs.Prelude.{◌<◌, ◌^◌, length};
ghost use Rattle.std.specs.List.{All};
ghost use Rattle.cm_model.specs.Controllers.{IsBlank};

use cm_stock::Stock;
use cm_top::{Status, run};
use ctl_trait::Controller;
use outside_io::{Gate, MemSink, MemSource, Pace, Point};
use pages_calls::stocks::few_blanks;
use pages_cases::pages::{expanded, halves, hold_told, written_out};
use pages_runs::runs::{IN_STOCK, OF_PROGRAM, ample_sink, in_words};
use std::alloc::Global;
use std::str;
use std::sync::Wait;
use std::sync::atomic::{AtomicU64, Ordering};
use std::test::Fail;
use std::thread::Threads;

/// A pace that counts its calls.
#[derive(Drop)]
struct CountingPace {
    calls: u64,
}

impl Pace for CountingPace {
    fn pause(&mut self, _cycle: u64) {
        self.calls = self.calls.saturating_add(1);
    }
}

/// A gate that counts its calls.
#[derive(Drop)]
struct CountingGate {
    calls: AtomicU64,
}

impl Gate for CountingGate {
    fn at(&self, _point: Point) {
        self.calls.fetch_add(1, Ordering::SeqCst);
    }
}

/// One operator, whose second line comes while the cycle is aloft where turns are made, and before it where none are.
const DOCUMENT: &str = r#"version = 1
update_rate = 100
cycles = 1
[[controller]]
name = "mk"
type = "mock"
--- script ---
session a
load mk
load mk
schedule
step a
begin
step a
end
"#;

/// What a run of it prints.
const BY_RUN: &str = "a load mk: ok 0
a load mk: loaded
loop begin 0: none
loop end 0: none
loop close: none
";

/// What its turns print.
const BY_STEPS: &str = "a load mk: ok 0
loop begin 0: none
a load mk: loaded
loop end 0: none
loop close: none
";

/// How a run of it ends by words, between which a bar stands.
const WORDS: &str = r"run => ok
run|--workers|2 => ok
run|--workers|1 => ok
run|-- => ok
--|run => ok
steps => ok
--|steps => ok
steps|--workers=8 => ok
 => usage: cm run|steps|live|upgrade|check|plan [--make N] [--workers N]
walk => usage: cm run|steps|live|upgrade|check|plan [--make N] [--workers N]
run|run => usage: cm run|steps|live|upgrade|check|plan [--make N] [--workers N]
run|steps => usage: cm run|steps|live|upgrade|check|plan [--make N] [--workers N]
Run => usage: cm run|steps|live|upgrade|check|plan [--make N] [--workers N]
run\s => usage: cm run|steps|live|upgrade|check|plan [--make N] [--workers N]
--help => usage: cm run|steps|live|upgrade|check|plan [--make N] [--workers N]
run|--make => usage: cm run|steps|live|upgrade|check|plan [--make N] [--workers N]
run|--make| => usage: cm run|steps|live|upgrade|check|plan [--make N] [--workers N]
run|--make|0 => usage: cm run|steps|live|upgrade|check|plan [--make N] [--workers N]
run|--make|1001 => usage: cm run|steps|live|upgrade|check|plan [--make N] [--workers N]
run|--make|1|--make|2 => usage: cm run|steps|live|upgrade|check|plan [--make N] [--workers N]
run|--workers|9 => usage: cm run|steps|live|upgrade|check|plan [--make N] [--workers N]
upgrade|--workers|1 => usage: cm run|steps|live|upgrade|check|plan [--make N] [--workers N]
check|--workers|2 => usage: cm run|steps|live|upgrade|check|plan [--make N] [--workers N]";

/// A document without operators, so that a live run leaves nothing to its threads.
const ALONE: &str = "version = 1
update_rate = 100
cycles = 2
--- script ---
";

/// What a live run of it prints.
const BY_LIVE: &str = "loop begin 0: none
loop end 0: none
loop begin 1: none
loop end 1: none
loop close: none
";

/// How often a live run of it calls pace and gate: each cycle has a pause behind it, and is begun, about to be
/// computed, and computed.
const CALLS_OF_LIVE: u64 = 2 + 3 * 2;

/// Words with a number of rounds, and the summary of the made document of so many, whatever the source gives. Zeros may
/// lead a number; of the smallest, of two rounds, of five and of the largest.
const MADE: &str = "\
run|--make|1
=> cycles 10
entries 45
updates 79
asks 3 done 3 refused 0 ended 0
joint j0 0.000000
joint j1 0.090000
<2..8 * joint j# 0.000000
>

run|--make|1|--workers|4
=> cycles 10
entries 45
updates 79
asks 3 done 3 refused 0 ended 0
joint j0 0.000000
joint j1 0.090000
<2..8 * joint j# 0.000000
>

--make=0002|steps
=> cycles 20
entries 71
updates 158
asks 5 done 5 refused 0 ended 0
joint j0 0.000000
joint j1 0.190000
joint j2 0.100000
<3..8 * joint j# 0.000000
>

run|--make|05
=> cycles 50
entries 149
updates 395
asks 11 done 11 refused 0 ended 0
joint j0 0.000000
joint j1 0.370000
joint j2 0.400000
joint j3 0.110000
joint j4 0.200000
joint j5 0.100000
<6..8 * joint j# 0.000000
>

--make|1000|run
=> cycles 10000
entries 26019
updates 79000
asks 2001 done 2001 refused 0 ended 0
joint j0 0.000000
joint j1 0.410000
joint j2 0.780000
joint j3 0.150000
joint j4 0.520000
joint j5 0.890000
joint j6 0.260000
joint j7 0.630000
";

/// What is printed by words that are accepted and name no number.
fn trace_by(words: &str) -> &'static str {
    if words.contains("steps") {
        BY_STEPS
    } else {
        BY_RUN
    }
}

#[test]
fn jobs_run_by_their_words_and_nobody_waits(rt: HostRuntime) -> Result<(), Fail> {
    for row in WORDS.lines() {
        hold_row(&rt, rt.alloc(), row)?;
    }
    Ok(())
}

fn hold_row<R: Threads + Wait + Sync>(rt: &R, alloc: Global, row: &str) -> Result<(), Fail> {
    let (given, want) = halves(row, " => ")?;
    let trace = if want == "ok" { trace_by(given) } else { "" };
    hold_run(rt, alloc, given, want, trace)
}

#[test]
fn a_live_run_calls_pace_and_gate(rt: HostRuntime) -> Result<(), Fail> {
    hold_live(&rt, rt.alloc(), "live")?;
    hold_live(&rt, rt.alloc(), "live|--workers|2")
}

fn hold_live<R: Threads + Wait + Sync>(rt: &R, alloc: Global, given: &str) -> Result<(), Fail> {
    let want = Want {
        ended: "ok",
        printed: BY_LIVE,
        calls: CALLS_OF_LIVE,
    };
    hold_words(rt, alloc, given, ALONE, &want)
}

#[test]
fn made_documents_are_run_by_their_words(rt: HostRuntime) -> Result<(), Fail> {
    for case in MADE.split("\n\n") {
        hold_made(&rt, rt.alloc(), case)?;
    }
    Ok(())
}

fn hold_made<R: Threads + Wait + Sync>(rt: &R, alloc: Global, case: &str) -> Result<(), Fail> {
    let case = expanded(alloc, case)?;
    let (given, summary) = halves(case.as_str(), "\n=> ")?;
    hold_run(rt, alloc, given, "ok", summary)
}

/// How often the made document of one round is run live.
const TIMES: u32 = 50;

/// How often such a run calls pace and gate at least: ten cycles as above, and before and behind each of 21 lines. A
/// line that waits calls the gate more often.
const CALLS_OF_MADE: u64 = 10 + 3 * 10 + 2 * 21;

/// What may differ between live runs of the made document of one round.
#[derive(Clone, Copy)]
struct Counts {
    updates: u32,
    done: u32,
    ended: u32,
    hundredths: u32,
}

#[test]
fn a_made_document_is_run_live(rt: HostRuntime) -> Result<(), Fail> {
    for _ in 0..TIMES {
        hold_made_live(&rt, rt.alloc())?;
    }
    Ok(())
}

fn hold_made_live<R: Threads + Wait + Sync>(rt: &R, alloc: Global) -> Result<(), Fail> {
    let ran = ran_by(rt, alloc, "live|--make|1", "")?;
    hold_ended(alloc, &ran, "ok")?;
    if ran.calls < CALLS_OF_MADE {
        return Err(Fail::new("too few calls of pace and gate"));
    }
    hold_summary(alloc, ran.printed.as_str())
}

/// Fails unless a live run of the made document of one round may have this summary.
fn hold_summary(alloc: Global, summary: &str) -> Result<(), Fail> {
    let counts = counts_in(summary)?;
    if !may_be(counts) {
        return Err(Fail::new(String::from_str(alloc, summary)?));
    }
    let want = summary_with(alloc, counts)?;
    hold_told(alloc, "a live run", summary, want.as_str())
}

/// The numbers of a summary.
fn counts_in(summary: &str) -> Result<Counts, Fail> {
    Ok(Counts {
        updates: number_between(summary, "updates ", "\n")?,
        done: number_between(summary, " done ", " refused")?,
        ended: number_between(summary, " ended ", "\n")?,
        hundredths: number_between(summary, "joint j1 0.0", "0000\n")?,
    })
}

/// The number between the first two such signs.
fn number_between(text: &str, before: &str, behind: &str) -> Result<u32, Fail> {
    let (_, rest) = halves(text, before)?;
    let (number, _) = halves(rest, behind)?;
    Ok(number.parse()?)
}

/// The session asks three times, each time behind the Told of the time before, so each begin decides one request. If
/// the close decides one, it was the last. Behind the begin that does the first, `k`, cycles have eight updates each.
/// They have seven from the second on, `m`, and eight again from the third on, `n`: so `8 (10 - k)`, less `10 - m` or
/// `n - m`, for `k < m < n < 10`. Joint j1 moves by a hundredth in each cycle behind the first.
fn may_be(counts: Counts) -> bool {
    let fits = match counts.done {
        0 => counts.updates == 0 && counts.hundredths == 0,
        1 => 8 <= counts.updates && counts.updates <= 80 && counts.updates % 8 == 0,
        2 => 15 <= counts.updates && counts.updates <= 79,
        3 => 23 <= counts.updates && counts.updates <= 79 && counts.ended == 0,
        _ => false,
    };
    fits && counts.ended <= 1 && counts.hundredths <= 9
}

/// The summary with these counts. The loop makes 21 entries, and the session one for each of its 21 lines and one for
/// each ticket. A request behind the close has no ticket. None is refused, and no other joint moves.
fn summary_with(alloc: Global, counts: Counts) -> Result<String, Fail> {
    let Counts {
        updates,
        done,
        ended,
        hundredths,
    } = counts;
    let asks = done.saturating_add(ended);
    let entries = asks.saturating_add(21 + 21);
    let summary = format!(in alloc;
        "cycles 10
entries {entries}
updates {updates}
asks {asks} done {done} refused 0 ended {ended}
joint j0 0.000000
joint j1 0.0{hundredths}0000
<2..8 * joint j# 0.000000
>"
    )?;
    expanded(alloc, summary.as_str())
}

/// How a run ends, what it prints, and how often it calls pace and gate.
#[derive(Clone, Copy)]
struct Want<'a> {
    ended: &'a str,
    printed: &'a str,
    calls: u64,
}

/// Fails where a run by the words of a row ends otherwise, or prints something else, or calls pace or gate.
fn hold_run<R: Threads + Wait + Sync>(
    rt: &R,
    alloc: Global,
    given: &str,
    want: &str,
    trace: &str,
) -> Result<(), Fail> {
    let want = Want {
        ended: want,
        printed: trace,
        calls: 0,
    };
    hold_words(rt, alloc, given, DOCUMENT, &want)
}

/// Fails where a run of the document by these words ends otherwise, or prints something else, or calls pace and gate
/// more or less often, or leaves a book where it should leave none, or none where it should.
fn hold_words<R: Threads + Wait + Sync>(
    rt: &R,
    alloc: Global,
    given: &str,
    document: &str,
    want: &Want<'_>,
) -> Result<(), Fail> {
    let ran = ran_by(rt, alloc, given, document)?;
    if ran.calls != want.calls {
        return Err(Fail::new("other calls of pace and gate"));
    }
    hold_ended(alloc, &ran, want.ended)?;
    hold_told(alloc, "its words", ran.printed.as_str(), want.printed)
}

/// Fails where a run ended otherwise, or a book is there without a run or is not there with one.
fn hold_ended(alloc: Global, ran: &Ran, want: &str) -> Result<(), Fail> {
    if ran.has_book != (want == "ok") {
        return Err(Fail::new("a book without a run, or a run without a book"));
    }
    hold_told(alloc, "its words", ran.ended.as_str(), want)
}

/// How a run ended, what it printed, whether it left a book, and how often pace and gate were called.
#[derive(Drop)]
struct Ran {
    ended: String,
    printed: String,
    has_book: bool,
    calls: u64,
}

/// The run of a document by the words of a row, over the program's stock.
fn ran_by<R: Threads + Wait + Sync>(
    rt: &R,
    alloc: Global,
    given: &str,
    document: &str,
) -> Result<Ran, Fail> {
    let words = words(alloc, given)?;
    let mut source = OF_PROGRAM.source(alloc, document)?;
    let mut sink = ample_sink(alloc)?;
    let counted = run_stocked(rt, alloc, words.as_slice(), &mut source, &mut sink)?;
    in_full(alloc, counted, sink.bytes())
}

/// A run that was counted, in words, with what it printed.
fn in_full(alloc: Global, counted: Counted, printed: &[u8]) -> Result<Ran, Fail> {
    let Counted {
        status,
        has_book,
        calls,
    } = counted;
    Ok(Ran {
        ended: in_words(alloc, status)?,
        printed: String::from_str(alloc, str::from_utf8(printed)?)?,
        has_book,
        calls,
    })
}

/// The status of a run, whether it left a book, and how often pace and gate were called.
#[derive(Drop)]
struct Counted {
    status: Status,
    has_book: bool,
    calls: u64,
}

/// Runs the words over the program's stock.
fn run_stocked<R: Threads + Wait + Sync>(
    rt: &R,
    alloc: Global,
    words: &[String],
    source: &mut MemSource,
    sink: &mut MemSink,
) -> Result<Counted, Fail> {
    let blanks = few_blanks(alloc, IN_STOCK)?;
    Ok(run_counted(rt, alloc, words, source, sink, blanks))
}

/// Runs the words over a stock of these blanks.
fn run_counted<R: Threads + Wait + Sync, C: Controller + Send>(
    rt: &R,
    alloc: Global,
    words: &[String],
    source: &mut MemSource,
    sink: &mut MemSink,
    blanks: Vec<C>,
) -> Counted
    requires blank { All (λ c. IsBlank (C.meaning c)) blanks.items }
    requires few { length blanks.items < 2 ^ 32 }
{
    let mut pace = CountingPace { calls: 0 };
    let gate = CountingGate {
        calls: AtomicU64::new(0),
    };
    let stock = Stock::make(blanks);
    let (status, book) = run(rt, alloc, words, source, sink, stock, &mut pace, &gate);
    Counted {
        status,
        has_book: book.is_some(),
        calls: pace.calls.saturating_add(gate.calls.load(Ordering::SeqCst)),
    }
}

/// The words of a row; of an empty one none.
fn words(alloc: Global, given: &str) -> Result<Vec<String>, Fail> {
    let mut words = Vec::new(alloc);
    if given.is_empty() {
        return Ok(words);
    }
    for word in given.split('|') {
        words.push(written_out(alloc, word)?)?;
    }
    Ok(words)
}
