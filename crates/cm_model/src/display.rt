//! How reasons, causes, and outcomes print in a trace.

ghost use Rattle.std.specs.Prelude.{Some, flat_map, codes, ◌++◌};
ghost use Rattle.std.specs.Fmt.{DisplaysOnOk};
ghost use Rattle.cm_model.specs.Causes.{dropped_text, drops_text};

use crate::cause::{Cause, Decision, Dropped, Outcome};
use crate::reply::Why;
use std::fmt;
use std::fmt::{Display, Formatter, Write};

impl Display for Why {
    ghost use Rattle.std.specs.Prelude.{Some};
    ghost use Rattle.cm_model.specs.Trace.{why_word};

    ghost output = { λ why. Some (why_word why) };

    fn fmt<W: Write>(&self, f: &mut Formatter<W>) -> fmt::Result {
        f.write_str(self.word())
    }
}

impl Why {
    ghost use Rattle.std.specs.Prelude.{◌≡◌};
    ghost use Rattle.cm_model.specs.Trace.{why_word};

    /// The word of a trace.
    pub fn word(self) -> &'static str
        ensures { result.now ≡ why_word self }
    {
        match self {
            Why::NotDescribed => "not_described",
            Why::Loaded => "loaded",
            Why::StockEmpty => "stock_empty",
            Why::NotLoaded => "not_loaded",
            Why::Active => "active",
            Why::Refused => "refused",
            Why::NotInactive => "not_inactive",
            Why::NotActive => "not_active",
            Why::Chained => "chained",
            Why::TakesNone => "takes_none",
            Why::WrongCount => "wrong_count",
            Why::LoopEnded => "loop_ended",
            Why::QueueFull => "queue_full",
        }
    }
}

impl Display for Cause {
    ghost use Rattle.std.specs.Prelude.{Some};
    ghost use Rattle.cm_model.specs.Causes.{cause_text};

    ghost output = { λ cause. Some (cause_text cause) };

    fn fmt<W: Write>(&self, f: &mut Formatter<W>) -> fmt::Result {
        match self {
            Cause::NoGroup => f.write_str("no_group"),
            Cause::Unknown => f.write_str("unknown"),
            Cause::Twice => f.write_str("twice"),
            Cause::NotActive => f.write_str("not_active"),
            Cause::NotConfigured => f.write_str("not_configured"),
            Cause::AlreadyActive => f.write_str("already_active"),
            Cause::MissingFollower(missing) => {
                let interface = missing.get();
                write!(f, "missing_follower {interface}")
            }
            Cause::Unavailable(needed) => {
                let interface = needed.get();
                write!(f, "unavailable {interface}")
            }
            Cause::Conflict(claimed, owner) => {
                let interface = claimed.get();
                write!(f, "conflict {interface} {owner}")
            }
            Cause::ModeRefused(joint) => write!(f, "mode_refused {joint}"),
            Cause::NotReady => f.write_str("not_ready"),
            Cause::NoSuchMove => f.write_str("no_such_move"),
            Cause::InUse(controller) => write!(f, "in_use {controller}"),
        }
    }
}

impl Display for Dropped {
    ghost use Rattle.std.specs.Prelude.{Some};
    ghost use Rattle.cm_model.specs.Causes.{dropped_text};

    ghost output = { λ dropped. Some (dropped_text dropped) };

    fn fmt<W: Write>(&self, f: &mut Formatter<W>) -> fmt::Result {
        let name = &self.name;
        let cause = &self.cause;
        write!(f, "{name} {cause}")
    }
}

impl Display for Outcome {
    ghost use Rattle.std.specs.Prelude.{Some};
    ghost use Rattle.cm_model.specs.Causes.{outcome_text};

    ghost output = { λ outcome. Some (outcome_text outcome) };

    fn fmt<W: Write>(&self, f: &mut Formatter<W>) -> fmt::Result {
        match self {
            Outcome::Done { dropped } => {
                f.write_str("done")?;
                write_drops(dropped.as_slice(), f)
            }
            Outcome::Refused(name, cause) => {
                let cause = cause.get();
                write!(f, "refused {name} {cause}")
            }
            Outcome::LoopEnded => f.write_str("loop_ended"),
        }
    }
}

/// What was dropped, where anything was.
fn write_drops<W: Write>(dropped: &[Dropped], f: &mut Formatter<W>) -> fmt::Result
    ensures { DisplaysOnOk W.write_str_gives f.old result (Some (drops_text dropped.now)) f.new }
{
    let Some((first, others)) = dropped.split_first() else {
        return Ok(());
    };
    write!(f, " dropped {first}")?;
    write_others(others, f)
}

/// The names after the first, each after a comma.
fn write_others<W: Write>(others: &[Dropped], f: &mut Formatter<W>) -> fmt::Result
    ensures { DisplaysOnOk W.write_str_gives f.old result
        (Some (flat_map (λ other. codes ", " ++ dropped_text other) others.now)) f.new }
{
    for dropped in others {
        write!(f, ", {dropped}")?;
    }
    Ok(())
}

impl Display for Decision {
    ghost use Rattle.std.specs.Prelude.{Some};
    ghost use Rattle.cm_model.specs.Causes.{decision_text};

    ghost output = { λ decision. Some (decision_text decision) };

    fn fmt<W: Write>(&self, f: &mut Formatter<W>) -> fmt::Result {
        let outcome = &self.outcome;
        match self.ticket {
            Some(ticket) => write!(f, "{ticket} {outcome}"),
            None => write!(f, "fallback {outcome}"),
        }
    }
}
