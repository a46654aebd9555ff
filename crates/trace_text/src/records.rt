//! How the record of a cycle prints in a trace: its items, joined by `; `. Nearly all bytes of a long trace are such,
//! so they are put down as bytes, without a formatter and without a look at whether they are text.

ghost use Rattle.std.specs.Prelude.{◌≡◌, ◌<◌, ◌++◌, length, map, codes, OnOk, IfOk};
ghost use Rattle.cm_storage.specs.Rans.{ran_of};
ghost use Rattle.cm_model.specs.Items.{nth_name, ran_text, failed_text, body_text, body_texts, stop_text, record_items};
ghost use Rattle.cm_model.specs.Trace.{joined};
ghost use Rattle.trace_text.specs.Joined.{before_item, Adds};

use crate::line::LineText;
use crate::names::Names;
use cm_storage::{CycleRecord, Done, FailedPart, RanRef, Rans};
use fixed_num::{BodyState, Memory};

/// Appends the items of a record, joined by `; `, or `none`.
pub(crate) fn push_record(
    text: &mut LineText,
    names: &Names<'_>,
    record: &CycleRecord,
) -> Result<(), Memory>
    ensures { OnOk result
        (text.new ≡ text.old ++ joined (record_items names.now record.now)) }
{
    let failures = push_failures(text, names, false, record.failed())?;
    let rans = push_rans(text, names, failures, record.ran())?;
    let bodies = push_bodies(text, names, rans, record.bodies())?;
    let stops = push_stops(text, names, bodies, record.stops())?;
    if stops {
        return Ok(());
    }
    push_none(text)
}

/// What stands in place of no item.
fn push_none(text: &mut LineText) -> Result<(), Memory>
    ensures { OnOk result (text.new ≡ text.old ++ codes "none") }
{
    text.push_word("none")
}

/// What stands before an item.
fn separate(text: &mut LineText, started: bool) -> Result<(), Memory>
    ensures { OnOk result (text.new ≡ text.old ++ before_item started) }
{
    text.push_word(if started { "; " } else { "" })
}

/// The components that failed.
fn push_failures(
    text: &mut LineText,
    names: &Names<'_>,
    started: bool,
    failed: &[FailedPart],
) -> Result<bool, Memory>
    ensures { IfOk result
        (λ after.
        Adds text.old text.new started
        (map (failed_text names.now) failed.now) after) }
{
    let mut started = started;
    for part in failed {
        separate(text, started)?;
        push_failure(text, names, part)?;
        started = true;
    }
    Ok(started)
}

fn push_failure(text: &mut LineText, names: &Names<'_>, part: &FailedPart) -> Result<(), Memory>
    ensures { OnOk result (text.new ≡ text.old ++ failed_text names.now part.now) }
{
    text.push_word("fail ")?;
    if let Some(component) = names.component(part.place) {
        text.push_word(component.name.as_str())?;
    }
    text.push_word(if part.reading { " read" } else { " write" })?;
    Ok(())
}

/// The controllers that were updated.
fn push_rans(
    text: &mut LineText,
    names: &Names<'_>,
    started: bool,
    rans: Rans<'_>,
) -> Result<bool, Memory>
    ensures { IfOk result
        (λ after.
        Adds text.old text.new started (map (ran_text names.now) rans.entry)
        after) }
{
    let mut started = started;
    for ran in rans {
        push_ran(text, names, started, &ran)?;
        started = true;
    }
    Ok(started)
}

fn push_ran(
    text: &mut LineText,
    names: &Names<'_>,
    started: bool,
    ran: &RanRef<'_>,
) -> Result<(), Memory>
    ensures { OnOk result
        (text.new ≡ text.old ++ before_item started ++ ran_text names.now (ran_of ran.now)) }
{
    match ran.done {
        Done::Ok => text.push_item(started, names.run(ran.serial), ran.outs, ran.published),
        Done::Error => push_erred(text, started, names.controller(ran.serial)),
    }
}

/// A controller whose update failed.
fn push_erred(text: &mut LineText, started: bool, name: &str) -> Result<(), Memory>
    ensures { OnOk result
        (text.new ≡ text.old ++ before_item started ++ codes "run " ++ name.now ++ codes " error") }
{
    separate(text, started)?;
    text.push_word("run ")?;
    text.push_word(name)?;
    text.push_word(" error")
}

/// The bodies of the joints.
fn push_bodies(
    text: &mut LineText,
    names: &Names<'_>,
    started: bool,
    bodies: &[BodyState],
) -> Result<bool, Memory>
    ensures { IfOk result
        (λ after.
        Adds text.old text.new started (body_texts names.now 0 bodies.now)
        after) }
{
    let mut started = started;
    for (place, body) in bodies.iter().enumerate() {
        push_body(text, names, started, place, body)?;
        started = true;
    }
    Ok(started)
}

/// Appends bodies, of which there are some, joined by `; `: the items of a record that tells nothing else.
pub(crate) fn push_some_bodies(
    text: &mut LineText,
    names: &Names<'_>,
    bodies: &[BodyState],
) -> Result<(), Memory>
    requires { 0 < length bodies.now }
    ensures { OnOk result (text.new ≡ text.old ++ joined (body_texts names.now 0 bodies.now)) }
{
    push_bodies(text, names, false, bodies)?;
    Ok(())
}

fn push_body(
    text: &mut LineText,
    names: &Names<'_>,
    started: bool,
    place: usize,
    body: &BodyState,
) -> Result<(), Memory>
    ensures { OnOk result
        (text.new ≡ text.old ++ before_item started
        ++ body_text (nth_name names.now.joints place) body.now) }
{
    let numbers = [body.x, body.v, body.f];
    text.push_item(started, names.body(place), &[], &numbers)
}

/// The controllers that were stopped.
fn push_stops(
    text: &mut LineText,
    names: &Names<'_>,
    started: bool,
    stops: &[u32],
) -> Result<bool, Memory>
    ensures { IfOk result
        (λ after.
        Adds text.old text.new started (map (stop_text names.now) stops.now)
        after) }
{
    let mut started = started;
    for serial in stops {
        separate(text, started)?;
        text.push_word("stop ")?;
        text.push_word(names.controller(*serial))?;
        started = true;
    }
    Ok(started)
}
