//! What became of a call: how it is marked, and who of those that a request names is switched.

use crate::present::Asked;
use crate::rows::Event;
use cm_document::{CtlDesc, GroupDesc};
use cm_model::{Cause, Dropped, Outcome, Why};
use draw_causes::is_own;
use iface_names::Name;

/// What became of a call that asked for something.
#[derive(Clone, Copy)]
pub enum Became<'a> {
    /// It was a request, and a begin or the close decided it.
    Decided(&'a Outcome),
    /// It did nothing, for this reason. A request got no ticket.
    Not(Why),
}

/// A request that was decided, fallbacks that were asked for, or a call that did nothing.
#[derive(Drop)]
pub struct Answered<'a> {
    /// The cycle at whose begin it was decided, or before whose end the call came; the number of cycles where all had
    /// ended.
    pub cycle: u64,
    /// The ticket of a request that got one.
    pub ticket: Option<u32>,
    /// The name of the session that asked, and what it asked, where that is known.
    pub asked: Option<Asked<'a>>,
    /// The described groups that it named, each once.
    pub groups: Vec<&'a GroupDesc>,
    /// The controllers whose fallbacks were asked for because their updates failed, in the order of these; of a
    /// request, none.
    pub failed: Vec<&'a CtlDesc>,
    /// What became of it.
    pub became: Became<'a>,
}

impl Answered<'_> {
    /// What it comes to, as it is marked.
    pub fn event(&self) -> Event {
        match self.became {
            Became::Decided(outcome) => event_of(outcome),
            Became::Not(_) => Event::Refused,
        }
    }
}

/// What a request comes to, as it is marked.
pub fn event_of(outcome: &Outcome) -> Event {
    match outcome {
        Outcome::Done { dropped } => done_without(dropped.as_slice()),
        Outcome::Refused(..) => Event::Refused,
        Outcome::LoopEnded => Event::Ended,
    }
}

/// A request is carried out without these.
fn done_without(dropped: &[Dropped]) -> Event {
    if dropped.is_empty() {
        Event::Done
    } else {
        Event::Partly
    }
}

/// Whether a controller that was to leave stays: another one that stays claims a reference of its own.
pub fn stays(name: &Name, dropped: &[Dropped]) -> bool {
    dropped
        .iter()
        .any(|it| it.name == *name && is_own(&it.cause, name))
}

/// Whether a controller that was to come is left out.
pub fn is_left_out(name: &Name, dropped: &[Dropped]) -> bool {
    dropped
        .iter()
        .any(|it| it.name == *name && speaks_against(&it.cause, name))
}

/// Whether this keeps a controller that is ready for it from becoming active.
fn speaks_against(cause: &Cause, name: &Name) -> bool {
    match cause {
        Cause::MissingFollower(_) => !is_own(cause, name),
        Cause::Unavailable(_) | Cause::Conflict(..) | Cause::ModeRefused(_) | Cause::NotReady => {
            true
        }
        _ => false,
    }
}
