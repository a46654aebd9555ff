//! How replies other than records print in a trace: their items, joined by `; `. Lists are long, so they take no
//! formatter.

ghost use Rattle.std.specs.Prelude.{◌≡◌, ℕ, List, ◌++◌, true, map, flat_map, codes, OnOk};
ghost use Rattle.cm_model.specs.Causes.{outcome_text};
ghost use Rattle.cm_model.specs.Items.{Names as Told, controller_head, divisor_text, value_text, held_text, owner_text};
ghost use Rattle.cm_model.specs.Trace.{joined, reply_text};
ghost use Rattle.trace_text.specs.Replies.{is_in_words};

use crate::line::LineText;
use crate::names::Names;
use cm_model::{CompLine, CtlLine, Decision, IfaceLine, Outcome, Reply};
use fixed_num::{Memory, StoredValue};

/// Appends the text of a reply that is no record. What takes a formatter is made in these words first.
pub(crate) fn push_in_words(
    text: &mut LineText,
    words: &mut String,
    names: &Names<'_>,
    reply: &Reply,
) -> Result<(), Memory>
    requires { is_in_words reply.now ≡ true }
    ensures { OnOk result (text.new ≡ text.old ++ reply_text names.now reply.now) }
{
    match reply {
        Reply::Done => text.push_word("ok")?,
        Reply::Serial(serial) => text.push_counted("ok ", u64::from(*serial))?,
        Reply::Queued(ticket) => text.push_counted("queued ", u64::from(*ticket))?,
        Reply::Not(why) => text.push_word(why.word())?,
        Reply::Outcome(outcome) => push_outcome(text, words, outcome.get())?,
        Reply::Controllers(lines) => push_items(text, words, names, lines.get().as_slice())?,
        Reply::Interfaces(lines) => push_items(text, words, names, lines.get().as_slice())?,
        Reply::Components(lines) => push_items(text, words, names, lines.get().as_slice())?,
        Reply::Decisions(decisions) => push_items(text, words, names, decisions.as_slice())?,
        Reply::Cycle(_) => unreachable!(),
    }
    Ok(())
}

/// What became of a request.
fn push_outcome(text: &mut LineText, words: &mut String, outcome: &Outcome) -> Result<(), Memory>
    ensures { OnOk result (text.new ≡ text.old ++ outcome_text outcome.now) }
{
    words.clear();
    write!(words, "{outcome}")?;
    text.push_word(words.as_str())
}

// ---- Lists

/// An item of a list in a reply.
trait Item {
    ghost item_text: { Told → Self → List ℕ };

    /// Appends the item's text.
    fn push_to(
        &self,
        text: &mut LineText,
        words: &mut String,
        names: &Names<'_>,
    ) -> Result<(), Memory>
        ensures { OnOk result (text.new ≡ text.old ++ item_text names.now self.now) };
}

/// Appends the items, joined by `; `, or `none`.
fn push_items<T: Item>(
    text: &mut LineText,
    words: &mut String,
    names: &Names<'_>,
    items: &[T],
) -> Result<(), Memory>
    ensures { OnOk result
        (text.new ≡ text.old ++ joined (map (T.item_text names.now) items.now)) }
{
    let Some((first, others)) = items.split_first() else {
        text.push_word("none")?;
        return Ok(());
    };
    first.push_to(text, words, names)?;
    for item in others {
        text.push_word("; ")?;
        item.push_to(text, words, names)?;
    }
    Ok(())
}

impl Item for CtlLine {
    ghost use Rattle.cm_model.specs.Items.{controller_text};

    ghost item_text = { λ names line. controller_text line };

    fn push_to(
        &self,
        text: &mut LineText,
        _words: &mut String,
        _names: &Names<'_>,
    ) -> Result<(), Memory> {
        push_controller(text, self)?;
        text.push_counted(" ", u64::from(self.serial))?;
        push_divisor(text, self.divisor)?;
        if self.chained {
            text.push_word(" chained")?;
        }
        Ok(())
    }
}

/// The name, the kind and the lifecycle state of a controller.
fn push_controller(text: &mut LineText, line: &CtlLine) -> Result<(), Memory>
    ensures { OnOk result (text.new ≡ text.old ++ controller_head line.now) }
{
    text.push_word(line.name.get().as_str())?;
    text.push_word(" ")?;
    text.push_word(line.kind.word())?;
    text.push_word(" ")?;
    text.push_word(line.life.word())
}

/// In how many cycles a configured controller is updated once.
fn push_divisor(text: &mut LineText, divisor: Option<u32>) -> Result<(), Memory>
    ensures { OnOk result (text.new ≡ text.old ++ divisor_text divisor) }
{
    match divisor {
        Some(divisor) => text.push_counted(" every ", u64::from(divisor)),
        None => Ok(()),
    }
}

impl Item for Decision {
    ghost use Rattle.cm_model.specs.Causes.{decision_text};

    ghost item_text = { λ names decision. decision_text decision };

    fn push_to(
        &self,
        text: &mut LineText,
        words: &mut String,
        _names: &Names<'_>,
    ) -> Result<(), Memory> {
        words.clear();
        write!(words, "{self}")?;
        text.push_word(words.as_str())
    }
}

impl Item for CompLine {
    ghost use Rattle.cm_model.specs.Items.{component_text};

    ghost item_text = { component_text };

    fn push_to(
        &self,
        text: &mut LineText,
        _words: &mut String,
        names: &Names<'_>,
    ) -> Result<(), Memory> {
        if let Some(component) = names.component(self.place) {
            text.push_word(component.name.as_str())?;
            text.push_word(" ")?;
            text.push_word(component.kind.word())?;
        }
        text.push_word(" ")?;
        text.push_word(self.life.word())
    }
}

impl Item for IfaceLine {
    ghost use Rattle.cm_model.specs.Items.{iface_text};

    ghost item_text = { iface_text };

    fn push_to(
        &self,
        text: &mut LineText,
        _words: &mut String,
        names: &Names<'_>,
    ) -> Result<(), Memory> {
        text.push_word(if self.command { "command " } else { "state " })?;
        text.push_word(names.interface(self.place))?;
        push_held(text, names, self)
    }
}

/// A space, and what an interface holds and, of a command interface, who claims it; or that it is not available.
fn push_held(text: &mut LineText, names: &Names<'_>, line: &IfaceLine) -> Result<(), Memory>
    ensures { OnOk result (text.new ≡ text.old ++ codes " " ++ held_text names.now line.now) }
{
    if !line.available {
        text.push_word(" ")?;
        return text.push_word("unavailable");
    }
    push_value(text, line.value)?;
    if line.command {
        text.push_word(" ")?;
        text.push_word(owner(names, line.owner))?;
    }
    Ok(())
}

fn owner<'n>(names: &'n Names<'_>, owner: Option<u32>) -> &'n str
    ensures { result.now ≡ owner_text names.now owner }
{
    match owner {
        Some(serial) => names.controller(serial),
        None => "free",
    }
}

/// A space and a value.
fn push_value(text: &mut LineText, value: StoredValue) -> Result<(), Memory>
    ensures { OnOk result (text.new ≡ text.old ++ codes " " ++ value_text value) }
{
    text.push_item(false, "", &[value], &[])
}
