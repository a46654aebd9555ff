//! The line of a cycle in which no controller runs and the bodies stand: it is made of that of the cycle before,
//! because its last two digits alone are others.

ghost use Rattle.std.specs.Prelude.{◌≡◌, ◌+◌, ◌-◌, ◌/◌, ◌%◌, ◌<◌, ◌≤◌, length};
ghost use Rattle.std.specs.Prelude.{slice_set, IfOk, IfSome, IsSomeAnd, OnOk};
ghost use Rattle.trace_text.specs.Quiet.{IsNextWith};
ghost use Rattle.trace_text.specs.Standing.{IsStanding, standing_text};

use crate::line::LineText;
use crate::names::Names;
use crate::quiet::next_digits;
use crate::records::push_some_bodies;
use cm_storage::are_same;
use fixed_num::{BodyState, Memory};
use std::alloc::Global;
use std::marker::Model;

/// The line of an end of a cycle of which bodies alone are told, kept for the next one. Contracts see the names that it
/// is told with, and its bytes.
#[derive(Drop)]
pub(crate) struct StandingLine<'n, 'd> {
    names: &'n Names<'d>,
    text: LineText,
    /// Where the number of the cycle ends.
    head: usize,
    /// The cycle, where the line is whole.
    told: Option<u64>,
    /// The bodies that are told.
    bodies: Vec<BodyState>,
}

impl<'n, 'd> Model for StandingLine<'n, 'd> {
    ghost use Rattle.std.specs.Prelude.{IfSome};
    ghost use Rattle.trace_text.specs.Standing.{StandingFacts, IsStanding};

    ghost Value = { StandingFacts };

    ghost view = { λ line. record { names = line.names.now; text = line.text } };

    ghost invariant = { λ line. IfSome line.told
        (λ cycle. IsStanding line.names.now cycle line.bodies.items line.head line.text) };
}

impl<'n, 'd> StandingLine<'n, 'd> {
    ghost use Rattle.std.specs.Prelude.{[]};

    /// No line yet, of those that are told with these names.
    pub(crate) fn none(alloc: Global, names: &'n Names<'d>) -> StandingLine<'n, 'd>
        ensures { result ≡ record { names = names.now; text = [] } }
    {
        StandingLine {
            names,
            text: LineText::none(alloc),
            head: 0,
            told: None,
            bodies: Vec::new(alloc),
        }
    }

    /// The names that lines are told with.
    pub(crate) fn names(&self) -> &'n Names<'d>
        ensures { result.now ≡ self.now.names }
    {
        self.names
    }

    /// The line with its end.
    pub(crate) fn as_slice(&self) -> &[u8]
        ensures { result.now ≡ self.now.text }
    {
        self.text.as_slice()
    }

    /// Makes it the line of this cycle of which these bodies are told.
    pub(crate) fn tell(&mut self, cycle: u64, bodies: &[BodyState]) -> Result<(), Memory>
        requires { 0 < length bodies.now }
        ensures told { OnOk result (self.new.text ≡ standing_text self.old.names cycle bodies.now) }
        ensures names { self.new.names ≡ self.old.names }
    {
        if are_same(self.bodies.as_slice(), bodies) {
            if let Some(pair) = digits_after(self.told, cycle) {
                put_digits(&mut self.text, self.head, pair);
                self.told = Some(cycle);
                return Ok(());
            }
        }
        self.told = None;
        self.head = make_standing(&mut self.text, self.names, cycle, bodies)?;
        self.bodies.clear();
        self.bodies.extend_from_slice(bodies)?;
        self.told = Some(cycle);
        Ok(())
    }
}

/// The last two digits of a cycle's number, where it is the next one and the digits before these stay.
fn digits_after(told: Option<u64>, cycle: u64) -> Option<u8>
    ensures { IfSome result (λ pair. IsSomeAnd told (λ last. IsNextWith last cycle pair)) }
{
    match told {
        Some(last) => next_digits(last, cycle),
        None => None,
    }
}

/// Puts two other digits before this place of a line.
fn put_digits(line: &mut LineText, head: usize, pair: u8)
    requires { (2 ≤ head) × (head ≤ length line.old) }
    ensures { line.new
        ≡ slice_set (slice_set line.old (head - 2) (48 + pair / 10)) (head - 1) (48 + pair % 10) }
{
    line.set(head - 2, b'0' + pair / 10);
    line.set(head - 1, b'0' + pair % 10);
}

/// Makes the line anew. It tells where the number ends.
fn make_standing(
    text: &mut LineText,
    names: &Names<'_>,
    cycle: u64,
    bodies: &[BodyState],
) -> Result<usize, Memory>
    requires { 0 < length bodies.now }
    ensures { IfOk result (λ head. IsStanding names.now cycle bodies.now head text.new) }
{
    text.clear();
    text.push_counted("loop end ", cycle)?;
    let head = text.len();
    text.push_word(": ")?;
    push_some_bodies(text, names, bodies)?;
    text.push_word("\n")?;
    Ok(head)
}
