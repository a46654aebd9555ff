//! The lines of a cycle in which nothing happens. Long runs have mostly such, so each is made of the last one of its
//! kind: nearly always its last two digits alone are others.

ghost use Rattle.std.specs.Prelude.{◌≡◌, ◌+◌, ◌-◌, ◌/◌, ◌%◌, ◌≤◌, ◌++◌, codes};
ghost use Rattle.std.specs.Prelude.{length, slice_set, IfSome, IsSomeAnd, OnOk};
ghost use Rattle.cm_document.specs.CallText.{call_text};
ghost use Rattle.cm_storage.specs.Kept.{call_of};
ghost use Rattle.trace_text.specs.Quiet.{quiet_end, quiet_text, DifferAtPair, IsNextWith};

use crate::line::LineText;
use cm_storage::CycleCall;
use fixed_num::Memory;
use std::alloc::Global;
use std::marker::Model;

/// What stands behind the number.
const QUIET_END: &str = ": none\n";

/// The line of a begin or an end of which there is nothing to tell, kept for the next one of its kind. Contracts see
/// its bytes.
#[derive(Drop)]
pub(crate) struct QuietLine {
    text: LineText,
    /// The call that it tells, where it is whole.
    told: Option<CycleCall>,
}

impl Model for QuietLine {
    ghost use Rattle.std.specs.Prelude.{◌≡◌, ℕ, List, IfSome};
    ghost use Rattle.trace_text.specs.Quiet.{quiet_text};

    ghost Value = { List ℕ };

    ghost view = { λ line. line.text };

    ghost invariant = { λ line. IfSome line.told (λ call. line.text ≡ quiet_text call) };
}

impl QuietLine {
    /// No line yet.
    pub(crate) fn none(alloc: Global) -> QuietLine {
        QuietLine {
            text: LineText::none(alloc),
            told: None,
        }
    }

    /// The line with its end.
    pub(crate) fn as_slice(&self) -> &[u8]
        ensures { result.now ≡ self.now }
    {
        self.text.as_slice()
    }

    /// Makes it the line of this call.
    pub(crate) fn tell(&mut self, call: CycleCall) -> Result<(), Memory>
        ensures { OnOk result (self.new ≡ quiet_text call) }
    {
        if let Some(pair) = other_digits(self.told, call) {
            put_digits(&mut self.text, pair);
            self.told = Some(call);
            return Ok(());
        }
        self.told = None;
        make_quiet(&mut self.text, call)?;
        self.told = Some(call);
        Ok(())
    }
}

/// The last two digits of this call's number, where its line is that of the call before but for these.
fn other_digits(told: Option<CycleCall>, call: CycleCall) -> Option<u8>
    ensures { IfSome result
        (λ pair.
        IsSomeAnd told (λ before. DifferAtPair quiet_end (quiet_text before) (quiet_text call) pair)) }
{
    match (told?, call) {
        (CycleCall::Begin(last), CycleCall::Begin(cycle)) => next_digits(last, cycle),
        (CycleCall::End(last), CycleCall::End(cycle)) => next_digits(last, cycle),
        _ => None,
    }
}

/// The last two digits of a number, where it is the next one and the digits before these stay.
pub(crate) fn next_digits(last: u64, number: u64) -> Option<u8>
    ensures { IfSome result (λ pair. IsNextWith last number pair) }
{
    let pair = number % 100;
    if pair == 0 || last < 10 || number - 1 != last {
        return None;
    }
    Some(pair as u8)
}

/// Puts two other digits before the end of a line.
fn put_digits(line: &mut LineText, pair: u8)
    requires { 9 ≤ length line.old }
    ensures { line.new
        ≡ slice_set (slice_set line.old (length line.old - 9) (48 + pair / 10))
        (length line.old - 8) (48 + pair % 10) }
{
    let end = line.len() - QUIET_END.len();
    line.set(end - 2, b'0' + pair / 10);
    line.set(end - 1, b'0' + pair % 10);
}

/// Makes the line of a call of which there is nothing to tell.
fn make_quiet(line: &mut LineText, call: CycleCall) -> Result<(), Memory>
    ensures { OnOk result (line.new ≡ quiet_text call) }
{
    line.clear();
    push_turn(line, call)?;
    line.push_word(QUIET_END)
}

/// Appends the loop's begin or end of a cycle.
pub(crate) fn push_turn(line: &mut LineText, call: CycleCall) -> Result<(), Memory>
    ensures { OnOk result (line.new ≡ line.old ++ codes "loop " ++ call_text (call_of call)) }
{
    match call {
        CycleCall::Begin(cycle) => line.push_counted("loop begin ", cycle),
        CycleCall::End(cycle) => line.push_counted("loop end ", cycle),
    }
}
