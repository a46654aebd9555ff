//! Scripts: what each session asks, line by line, and the turns in which sessions and the loop go on.

ghost use Rattle.std.specs.Prelude.{◌≡◌};
ghost use Rattle.cm_document.specs.Grammars.{whole_grammar};

use crate::call::Call;
use iface_names::Name;
use sequence::Seq;

/// Which lines a script may have. Another counts as a line that says nothing.
#[derive(Clone, Copy, Debug, PartialEq, Eq)]
pub struct Grammar {
    /// `session NAME`, the first of the script.
    pub first_session: bool,
    /// `session NAME` after another session.
    pub further_session: bool,
    /// `load NAME`.
    pub load: bool,
    /// `configure NAME`.
    pub configure: bool,
    /// `cleanup NAME`.
    pub cleanup: bool,
    /// `unload NAME`.
    pub unload: bool,
    /// `rate NAME HZ`.
    pub rate: bool,
    /// `send NAME ..`, values or points.
    pub send: bool,
    /// `switch strict ..` and `switch best ..`.
    pub switch: bool,
    /// `hw NAME STATE`.
    pub hardware: bool,
    /// `await N`.
    pub await_cycles: bool,
    /// `list controllers`.
    pub list_controllers: bool,
    /// `list interfaces`.
    pub list_interfaces: bool,
    /// `list components`.
    pub list_components: bool,
    /// `schedule`, and the turns `step NAME`, `begin` and `end` after it.
    pub schedule: bool,
}

/// Every line.
pub fn whole_grammar() -> Grammar
    ensures { result ≡ whole_grammar }
{
    Grammar {
        first_session: true,
        further_session: true,
        load: true,
        configure: true,
        cleanup: true,
        unload: true,
        rate: true,
        send: true,
        switch: true,
        hardware: true,
        await_cycles: true,
        list_controllers: true,
        list_interfaces: true,
        list_components: true,
        schedule: true,
    }
}

/// What the first word of a line says that the line is.
#[derive(Clone, Copy, Debug, PartialEq, Eq)]
pub enum Verb {
    /// `session`.
    Session,
    /// `load`.
    Load,
    /// `configure`.
    Configure,
    /// `cleanup`.
    Cleanup,
    /// `unload`.
    Unload,
    /// `rate`.
    Rate,
    /// `send`.
    Send,
    /// `switch`.
    Switch,
    /// `hw`.
    Hardware,
    /// `await`.
    Await,
    /// `list`.
    List,
    /// `schedule`.
    Schedule,
    /// `step`.
    Step,
    /// `begin`.
    Begin,
    /// `end`.
    End,
}

/// What a line of a script says.
#[derive(Clone, Debug, PartialEq, Eq, Drop)]
pub enum ScriptLine {
    /// A session of this name begins.
    Session(Name),
    /// The session makes this call.
    Call(Call),
    /// From here on there are turns alone.
    Schedule,
    /// The session of this name makes its next step.
    Step(Name),
    /// A cycle begins.
    Begin,
    /// A cycle ends.
    End,
}

/// A session and the calls that it makes, in order.
#[derive(Clone, Debug, PartialEq, Eq, Drop)]
pub struct SessionText {
    /// The session's name, as the trace prints it.
    pub name: Name,
    /// Its calls.
    pub lines: Seq<Call>,
}

/// A turn of the schedule.
#[derive(Clone, Copy, Debug, PartialEq, Eq)]
pub enum Turn {
    /// The session of this number makes one step.
    Step(u32),
    /// A cycle begins, where none is aloft and one is left.
    Begin,
    /// The cycle that is aloft ends.
    End,
}

/// All sessions, the number of each being its place, and the turns.
#[derive(Clone, Debug, PartialEq, Eq, Drop)]
pub struct Script {
    /// The sessions, at most 8, in written order.
    pub sessions: Seq<SessionText>,
    /// The turns, in written order. Calls and turns are at most 10,000 together.
    pub schedule: Seq<Turn>,
}
