//! The lines of a text, replayed one after another on a desk.

ghost use Rattle.std.specs.Prelude.{◌≡◌, ◌+◌, ◌-◌, ◌<◌, ◌^◌, [], length, IfOk, OnOk};
ghost use Rattle.cm_document.specs.Lines.{without_last};
ghost use Rattle.cm_document.specs.ScriptLaws.{MeetsRules};
ghost use Rattle.trace_check.specs.Checks.{HasReplayed};
ghost use Rattle.trace_check.specs.Standing.{StandsAt, KnowsNames};
ghost use Rattle.desk_turns.specs.Jobs.{GoesOn};
ghost use Rattle.trace_check.specs.Steps.{HasMadeNext, HasReplayedLine, HasReplayedLines, made_next};

use crate::callers::{caller_named, first_word};
use crate::fault::WrongLine;
use crate::printing::make_line;
use cm_desk::Desk;
use cm_document::{Checked, Script, Turn};
use cm_model::Entry;
use cm_stock::Stock;
use ctl_trait::Controller;
use desk_turns::RunningJob;
use fixed_num::Memory;
use script_text::first_line;
use sequence::Seq;
use std::alloc::Global;
use std::marker::Model;
use trace_text::Lines;

/// What the lines of a text told, up to the first that is wrong.
#[derive(Drop)]
pub struct Replayed<C: Controller> {
    desk: Desk<C>,
    /// How many entries of the desk they told. One more was made if a line was to come that did not.
    told: usize,
    wrong: Option<WrongLine>,
}

impl<C: Controller> Model for Replayed<C> {
    ghost use Rattle.std.specs.Prelude.{◌≤◌, length, take};
    ghost use Rattle.trace_check.specs.Checks.{ReplayFacts};

    ghost Value = { ReplayFacts };

    ghost view = { λ r. record { told = take r.told r.desk.made; wrong = r.wrong } };

    ghost invariant = { λ r. r.told ≤ length r.desk.made };
}

impl<C: Controller> Replayed<C> {
    ghost use Rattle.std.specs.Prelude.{option_map};

    /// The entries that the lines told.
    pub fn told(&self) -> &[Entry]
        ensures { result.now ≡ self.now.told }
    {
        &self.desk.history()[..self.told]
    }

    /// The first wrong line, if there is one.
    pub fn wrong(&self) -> Option<&WrongLine>
        ensures { option_map (λ wrong. wrong.now) result ≡ self.now.wrong }
    {
        self.wrong.as_ref()
    }

    /// The first wrong line, if there is one, given away.
    pub fn into_wrong(self) -> Option<WrongLine>
        ensures { result ≡ self.wrong }
    {
        let Replayed { wrong, .. } = self;
        wrong
    }
}

/// Replays a text over this stock: each line is to be the next one of the caller that it names. It ends at the first
/// line that is not. It takes time in proportion to the run that the lines tell.
pub fn replay_over<C: Controller>(
    alloc: Global,
    checked: &Checked,
    script: &Script,
    stock: Stock<C>,
    text: &[u8],
) -> Result<Replayed<C>, Memory>
    requires short { length text.now < 2 ^ 32 - 1 }
    requires rules { MeetsRules script.now }
    ensures { IfOk result
        (HasReplayed (record { description = checked.now; script = script.now }) stock text.now) }
{
    let mut job = RunningJob::start(alloc, checked.copy()?, script, stock)?;
    match replay_lines(alloc, checked, script, &mut job, text) {
        Ok((told, wrong)) => Ok(Replayed {
            desk: job.into_desk(),
            told,
            wrong,
        }),
        Err(Memory) => {
            drop(job);
            Err(Memory)
        }
    }
}

/// Replays the lines of a text on a job that has not begun: how many lines told an entry, and the first wrong one.
fn replay_lines<C: Controller>(
    alloc: Global,
    checked: &Checked,
    script: &Script,
    job: &mut RunningJob<'_, C>,
    text: &[u8],
) -> Result<(usize, Option<WrongLine>), Memory>
    requires short { length text.now < 2 ^ 32 - 1 }
    requires rules { MeetsRules script.now }
    requires first { StandsAt (record { description = checked.now; script = script.now })
        job.old.desk.opening.blanks [] job.old }
    ensures { IfOk result (λ told. HasReplayedLines (record { description = checked.now; script = script.now })
        job.old.desk.opening.blanks text.now job.new told.0 told.1) }
{
    let mut lines = Lines::over(alloc, checked, script)?;
    let mut rest = text;
    let mut told = 0;
    while !rest.is_empty() {
        let (line, more) = first_line(rest);
        if let Some(expected) = wrong_line(alloc, checked, script, job, &mut lines, line)? {
            return Ok((told, Some(wrong_behind(told, expected))));
        }
        told += 1;
        rest = more;
    }
    if job.is_through() {
        return Ok((told, None));
    }
    Ok((told, Some(wrong_behind(told, Seq::new(alloc)))))
}

/// The line behind so many is wrong.
fn wrong_behind(told: usize, expected: Seq<u8>) -> WrongLine
    requires few { told < 2 ^ 32 - 1 }
    ensures { (result.line ≡ told + 1) × (result.expected ≡ expected) }
{
    WrongLine {
        line: told as u32 + 1,
        expected,
    }
}

/// Replays a line: the caller that it names makes its next call. If this prints another line, or there is none, the
/// line is wrong, and the answer is what was to come in its place.
fn wrong_line<'a, C: Controller>(
    alloc: Global,
    checked: &'a Checked,
    script: &Script,
    job: &mut RunningJob<'_, C>,
    lines: &mut Lines<'a>,
    line: &[u8],
) -> Result<Option<Seq<u8>>, Memory>
    requires rules { MeetsRules script.now }
    requires stands { StandsAt (record { description = checked.now; script = script.now })
        job.old.desk.opening.blanks job.old.desk.made job.old }
    requires knows { KnowsNames (record { description = checked.now; script = script.now })
        job.old.desk.made lines.old }
    ensures { IfOk result (HasReplayedLine (record { description = checked.now; script = script.now })
        job.old.desk.opening.blanks line.now job.old job.new lines.new) }
{
    let Some(who) = caller_named(script.sessions.as_slice(), first_word(line)) else {
        return Ok(Some(Seq::new(alloc)));
    };
    if !make_next(alloc, job, who)? {
        return Ok(Some(Seq::new(alloc)));
    }
    let Some(entry) = job.desk().history().last() else {
        unreachable!();
    };
    make_line(alloc, checked.description(), entry, lines)?;
    if lines.line() == line {
        return Ok(None);
    }
    Ok(Some(bare_copy(alloc, lines.line())?))
}

/// The caller of this number makes its next call, if it has one that is enabled: whether it did.
fn make_next<C: Controller>(
    alloc: Global,
    job: &mut RunningJob<'_, C>,
    who: u32,
) -> Result<bool, Memory>
    ensures { IfOk result (λ made. HasMadeNext made who job.old job.new) }
{
    let before = job.desk().history().len();
    advance(alloc, job, who)?;
    Ok(job.desk().history().len() > before)
}

/// The caller of this number makes its next call, if it has one that is enabled: a session its line, the loop its call.
#[tactic(auto, using(crate::proofs::NextLemmas::goes_by_loop, crate::proofs::NextLemmas::goes_by_turn))]
fn advance<C: Controller>(
    alloc: Global,
    job: &mut RunningJob<'_, C>,
    who: u32,
) -> Result<(), Memory>
    ensures { OnOk result (GoesOn (made_next who) job.old job.new) }
{
    if who == job.desk().sessions() {
        job.go_on(alloc)?;
        return Ok(());
    }
    job.turn(alloc, &Turn::Step(who))?;
    Ok(())
}

/// A line once more, without its line feed.
fn bare_copy(alloc: Global, line: &[u8]) -> Result<Seq<u8>, Memory>
    ensures { IfOk result (λ copy. copy ≡ without_last 10 line.now) }
{
    let mut copy = Vec::new(alloc);
    copy.extend_from_slice(without_feed(line))?;
    Ok(Seq::from_vec(copy))
}

/// A line without its line feed, if it has one.
#[tactic(auto, using(crate::proofs::WordLemmas::ending_lines))]
fn without_feed(line: &[u8]) -> &[u8]
    ensures { result.now ≡ without_last 10 line.now }
{
    match line.split_last() {
        Some((last, front)) => { if *last == b'\n' { front } else { line } }
        None => line,
    }
}
