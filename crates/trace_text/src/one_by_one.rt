//! The lines of entries, one at a time: for a caller whose history grows meanwhile.

ghost use Rattle.std.specs.Prelude.{◌≡◌, [], IfOk, OnOk};
ghost use Rattle.cm_model.specs.Trace.{names_in};
ghost use Rattle.trace_text.specs.OneByOne.{with_controller, with_line};

use crate::line::LineText;
use crate::names::Names;
use crate::trace::make_line;
use cm_document::{Checked, Script, SessionText};
use cm_model::Entry;
use fixed_num::Memory;
use iface_names::Name;
use std::alloc::Global;
use std::marker::Model;

/// Where the line of one entry is made at a time. It knows the names of the controllers that it was told of, by serial.
/// They are lent from the description, so the history may grow meanwhile.
#[derive(Debug, Drop)]
pub struct Lines<'a> {
    sessions: &'a [SessionText],
    names: Names<'a>,
    line: LineText,
    words: String,
}

impl<'a> Model for Lines<'a> {
    ghost use Rattle.trace_text.specs.OneByOne.{LinesFacts};

    ghost Value = { LinesFacts };

    ghost view = { λ s. record { sessions = s.sessions.now; names = s.names; line = s.line } };
}

impl<'a> Lines<'a> {
    /// No controller is loaded yet, and no line made.
    pub fn over(
        alloc: Global,
        checked: &'a Checked,
        script: &'a Script,
    ) -> Result<Lines<'a>, Memory>
        ensures { IfOk result (λ lines. lines
            ≡ record { sessions = script.now.sessions; names = names_in checked.now []; line = [] }) }
    {
        Ok(Lines {
            sessions: script.sessions.as_slice(),
            names: Names::before_loads(alloc, checked.description())?,
            line: LineText::none(alloc),
            words: String::new(alloc),
        })
    }

    /// A controller of this name is given the next serial.
    pub fn load(&mut self, alloc: Global, name: &'a Name) -> Result<(), Memory>
        ensures { OnOk result (self.new ≡ with_controller self.old name.now) }
    {
        self.names.load(alloc, name)
    }

    /// Makes the line of an entry. What stood there before is gone.
    pub fn make(&mut self, entry: &Entry) -> Result<(), Memory>
        ensures { OnOk result (self.new ≡ with_line self.old entry.now) }
    {
        make_line(
            &mut self.line,
            &mut self.words,
            self.sessions,
            &self.names,
            entry,
        )
    }

    /// The line that was made last, with its line feed.
    pub fn line(&self) -> &[u8]
        ensures { result.now ≡ self.now.line }
    {
        self.line.as_slice()
    }
}
