//! Replies, as a line of a page tells them.

use cm_model::{CompLine, CtlLine, Decision, Entry, IfaceLine, Reply};
use cm_storage::{CycleRecord, RanRef};
use fixed_num::Value;
use pages_cases::pages::push_parted;
use std::alloc::Global;
use std::test::Fail;

/// What stands between two entries of a history.
const BETWEEN: &str = " / ";

/// Appends an entry of a history: who called, the call and the reply.
pub fn push_entry(alloc: Global, told: &mut String, entry: &Entry) -> Result<(), Fail> {
    let mut reply = String::new(alloc);
    push_reply(&mut reply, &entry.reply)?;
    push_parted(told, BETWEEN, "")?;
    write!(told, "{} {}: {reply}", entry.who, entry.call)?;
    Ok(())
}

/// Appends what a reply tells.
pub fn push_reply(told: &mut String, reply: &Reply) -> Result<(), Fail> {
    match reply {
        Reply::Done => told.push_str("ok")?,
        Reply::Serial(serial) => write!(told, "ok {serial}")?,
        Reply::Queued(ticket) => write!(told, "queued {ticket}")?,
        Reply::Not(why) => write!(told, "{why}")?,
        Reply::Outcome(outcome) => write!(told, "{}", outcome.get())?,
        Reply::Controllers(lines) => push_controllers(told, lines.get().as_slice())?,
        Reply::Interfaces(lines) => push_interfaces(told, lines.get().as_slice())?,
        Reply::Components(lines) => push_components(told, lines.get().as_slice())?,
        Reply::Decisions(decisions) => push_decisions(told, decisions.as_slice())?,
        Reply::Cycle(record) => push_record(told, record)?,
    }
    Ok(())
}

/// Appends the controllers as a trace has them: `fwd forward active 0 every 1`, and ` chained` behind it.
fn push_controllers(told: &mut String, lines: &[CtlLine]) -> Result<(), Fail> {
    for line in lines {
        push_controller(told, line)?;
    }
    push_none(told)
}

fn push_controller(told: &mut String, line: &CtlLine) -> Result<(), Fail> {
    push_parted(told, "; ", line.name.get().as_str())?;
    write!(
        told,
        " {} {} {}",
        line.kind.word(),
        line.life.word(),
        line.serial
    )?;
    if let Some(divisor) = line.divisor {
        write!(told, " every {divisor}")?;
    }
    told.push_str(if line.chained { " chained" } else { "" })?;
    Ok(())
}

/// Appends the interfaces by place, each with what it holds, and a command interface with the serial of its owner:
/// `state 0.000000`, `command 0.125000 0`, `command unset free`, `command unavailable`.
fn push_interfaces(told: &mut String, lines: &[IfaceLine]) -> Result<(), Fail> {
    for line in lines {
        push_parted(told, "; ", if line.command { "command" } else { "state" })?;
        push_held(told, line)?;
    }
    push_none(told)
}

fn push_held(told: &mut String, line: &IfaceLine) -> Result<(), Fail> {
    if !line.available {
        told.push_str(" unavailable")?;
        return Ok(());
    }
    push_value(told, line.value.get())?;
    match line.owner {
        Some(owner) => write!(told, " {owner}")?,
        None if line.command => told.push_str(" free")?,
        None => {}
    }
    Ok(())
}

/// Appends the lifecycle state of each component, as described.
fn push_components(told: &mut String, lines: &[CompLine]) -> Result<(), Fail> {
    for line in lines {
        push_parted(told, "; ", line.life.word())?;
    }
    push_none(told)
}

fn push_decisions(told: &mut String, decisions: &[Decision]) -> Result<(), Fail> {
    for decision in decisions {
        push_parted(told, "; ", "")?;
        write!(told, "{decision}")?;
    }
    push_none(told)
}

fn push_none(told: &mut String) -> Result<(), Fail> {
    if told.is_empty() {
        told.push_str("none")?;
    }
    Ok(())
}

/// Appends the serial of each controller that ran with what it gave out, and of each that the end stops.
pub fn push_record(told: &mut String, record: &CycleRecord) -> Result<(), Fail> {
    push_runs(told, record)?;
    push_stops(told, record)?;
    push_none(told)
}

fn push_runs(told: &mut String, record: &CycleRecord) -> Result<(), Fail> {
    for ran in record.ran() {
        push_ran(told, &ran)?;
    }
    Ok(())
}

fn push_stops(told: &mut String, record: &CycleRecord) -> Result<(), Fail> {
    for serial in record.stops() {
        push_parted(told, "; ", "stop")?;
        write!(told, " {serial}")?;
    }
    Ok(())
}

fn push_ran(told: &mut String, ran: &RanRef<'_>) -> Result<(), Fail> {
    push_parted(told, "; ", "run")?;
    write!(told, " {}", ran.serial)?;
    for out in ran.outs {
        push_value(told, out.get())?;
    }
    Ok(())
}

fn push_value(told: &mut String, value: Value) -> Result<(), Fail> {
    match value {
        Value::Unset => told.push_str(" unset")?,
        Value::Num(number) => write!(told, " {number}")?,
    }
    Ok(())
}
