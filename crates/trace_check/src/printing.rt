//! The line of the entry that was made last.

ghost use Rattle.std.specs.Prelude.{◌≡◌, option_map, true, OnOk, Some};
ghost use Rattle.std.specs.List.{list_any};
ghost use Rattle.iface_names.specs.Names.{same_name};
ghost use Rattle.cm_model.specs.Trace.{loaded_by};
ghost use Rattle.trace_text.specs.OneByOne.{with_line};
ghost use Rattle.trace_check.specs.Steps.{IsDescribed, with_load};

use cm_document::Description;
use cm_model::{Entry, Reply};
use fixed_num::Memory;
use iface_names::Name;
use std::alloc::Global;
use trace_text::Lines;

/// Makes the line of an entry that was just made. If it loaded a controller, that has its name from then on.
pub fn make_line<'a>(
    alloc: Global,
    description: &'a Description,
    entry: &Entry,
    lines: &mut Lines<'a>,
) -> Result<(), Memory>
    requires described { IsDescribed description.now entry.now }
    ensures { OnOk result (lines.new ≡ with_line (with_load lines.old entry.now) entry.now) }
{
    if let Some(name) = loaded_name(description, entry) {
        lines.load(alloc, name)?;
    }
    lines.make(entry)
}

/// The described name of the controller that an entry loaded.
fn loaded_name<'a>(description: &'a Description, entry: &Entry) -> Option<&'a Name>
    requires described { IsDescribed description.now entry.now }
    ensures { option_map (λ name. name.now) result ≡ loaded_by entry.now.call entry.now.reply }
{
    match entry.reply {
        Reply::Serial(_) => match entry.call.load_name() {
            Some(name) => described_name(description, name),
            None => None,
        },
        _ => None,
    }
}

/// The same name as the description has it.
fn described_name<'a>(description: &'a Description, name: &Name) -> Option<&'a Name>
    requires { list_any (λ c. same_name c.name name.now) description.now.controllers ≡ true }
    ensures { option_map (λ found. found.now) result ≡ Some name.now }
{
    for controller in description.controllers.as_slice() {
        if controller.name == *name {
            return Some(&controller.name);
        }
    }
    None
}
