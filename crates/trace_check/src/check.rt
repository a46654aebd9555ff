//! The check of a stored trace.

ghost use Rattle.std.specs.Prelude.{◌≡◌, ◌<◌, ◌≤◌, ◌-◌, ◌^◌, length, map, nat_lt, sum_by};
ghost use Rattle.cm_document.specs.Lines.{raw_lines};
ghost use Rattle.cm_document.specs.ScriptLaws.{MeetsRules};
ghost use Rattle.cm_document.specs.declared.description.TheConstants.{NUMBER_OF_KINDS};
ghost use Rattle.cm_model.specs.Blanks.{blanks_of};
ghost use Rattle.trace_laws.specs.Judged.{judged};
ghost use Rattle.trace_laws.specs.Stocks.{at_most, at_most_of};
ghost use Rattle.trace_check.specs.Checks.{Judges, Tells};

use crate::fault::{TraceFault, WrongLine};
use crate::replay::replay_over;
use cm_document::{CONTROLLER_KINDS, Checked, CtlKind, Script};
use cm_model::Blanks;
use cm_stock::Stock;
use ctl_any::counted;
use ctl_trait::Controller;
use fixed_num::Memory;
use script_text::first_line;
use std::alloc::Global;

/// Whether a text is the trace of a legal, whole history of a document over a stock of these blanks. Else the answer is
/// the first wrong line, and the line that was to come there. The text is replayed on a desk of its own, line by line,
/// over controllers without boxes: so it takes time in proportion to the run that the lines tell. It has no more blanks
/// of a kind than the text has lines.
pub fn check_trace(
    alloc: Global,
    checked: &Checked,
    script: &Script,
    blanks: &Blanks,
    text: &[u8],
) -> Result<(), TraceFault>
    requires short { length text.now < 2 ^ 32 - 1 }
    requires rules { MeetsRules script.now }
    ensures judges { Judges (record { description = checked.now; script = script.now }) blanks.now text.now
        result }
    ensures tells { Tells (judged (record { description = checked.now; script = script.now }) blanks.now text.now)
        result }
{
    let counts = at_most(blanks, lines_in(text));
    if !are_few(&counts, &CONTROLLER_KINDS) {
        return Err(TraceFault::Memory);
    }
    let boxes = counted(alloc, &counts)?;
    // Its contract says that the description is valid.
    checked.description();
    check_over(alloc, checked, script, Stock::make(boxes), text)
}

/// Whether a stock can count so many blanks of these kinds. More would take terabytes.
fn are_few(counts: &Blanks, kinds: &[(&str, CtlKind)]) -> bool
    requires { length kinds.now ≤ NUMBER_OF_KINDS }
    ensures { result ≡ nat_lt (sum_by (λ row. blanks_of counts.now row.1) kinds.now) (2 ^ 32) }
{
    let mut sum = 0u64;
    for row in kinds {
        sum += counts.of(row.1) as u64;
    }
    sum < 1 << 32
}

/// The check over this stock.
fn check_over<C: Controller>(
    alloc: Global,
    checked: &Checked,
    script: &Script,
    stock: Stock<C>,
    text: &[u8],
) -> Result<(), TraceFault>
    requires short { length text.now < 2 ^ 32 - 1 }
    requires rules { MeetsRules script.now }
    ensures { Tells (judged (record { description = checked.now; script = script.now }) stock text.now) result }
{
    match replay_over(alloc, checked, script, stock, text) {
        Ok(replay) => match replay.into_wrong() {
            Some(WrongLine { line, expected }) => Err(TraceFault::NotLegal { line, expected }),
            None => Ok(()),
        },
        Err(Memory) => Err(TraceFault::Memory),
    }
}

/// How many lines a text has.
fn lines_in(text: &[u8]) -> u32
    requires short { length text.now < 2 ^ 32 - 1 }
    ensures { result ≡ length (raw_lines text.now) }
{
    let mut rest = text;
    let mut count = 0;
    while !rest.is_empty() {
        let (_, more) = first_line(rest);
        count += 1;
        rest = more;
    }
    count
}

/// The same counts, but at most so many of each kind.
fn at_most(counts: &Blanks, most: u32) -> Blanks
    ensures { result ≡ at_most most counts.now }
{
    at_most_of(counts, most, &CONTROLLER_KINDS)
}

/// The same of these kinds, and none of the others.
fn at_most_of(counts: &Blanks, most: u32, kinds: &[(&str, CtlKind)]) -> Blanks
    ensures { result ≡ at_most_of most counts.now (map (λ row. row.1) kinds.now) }
{
    let mut few = Blanks::of_each(0);
    for row in kinds {
        few = few.with(row.1, most.min(counts.of(row.1)));
    }
    few
}
