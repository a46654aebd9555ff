//! The trace of a history, a line a piece.

ghost use Rattle.std.specs.Prelude.{◌≡◌, ◌<◌, [], ◌++◌, true, length, codes, flat_map, Err, IfOk, IfSome, OnOk, OnErr};
ghost use Rattle.std.specs.Io.KnownBytes.{Appends};
ghost use Rattle.outside_io.specs.Bytes.{AppendsPrefix};
ghost use Rattle.outside_io.specs.Faults.{HasCause, IsToldAs};
ghost use Rattle.cm_document.specs.CallText.{call_text};
ghost use Rattle.cm_model.specs.Items.{Names as Told};
ghost use Rattle.cm_storage.specs.Kept.{call_of};
ghost use Rattle.cm_model.specs.Trace.{caller_text, line_text, reply_text, trace};
ghost use Rattle.trace_text.specs.Quiet.{quiet_text};
ghost use Rattle.trace_text.specs.Replies.{head_text, rest_text};
ghost use Rattle.trace_text.specs.Rooms.{text_in, TellsBodies};
ghost use Rattle.trace_text.specs.Standing.{bodies_of, standing_text};

use crate::items::push_in_words;
use crate::line::LineText;
use crate::names::Names;
use crate::quiet::{QuietLine, push_turn};
use crate::records::push_record;
use crate::standing::StandingLine;
use cm_document::{Checked, Script, SessionText};
use cm_model::{Entry, Reply};
use cm_storage::{CycleCall, CycleRecord};
use fixed_num::{BodyState, Memory};
use outside_io::{Failed, Sink, write_whole};
use std::alloc::Global;
use thiserror::Error;

/// Why a trace was not written whole.
#[derive(Clone, Copy, Debug, PartialEq, Eq, Error)]
pub enum OutFault {
    /// The sink failed.
    #[error("write fault")]
    Failed,
    /// Memory ran out.
    #[error("out of memory")]
    Memory,
}

impl From<Memory> for OutFault {
    ghost use Rattle.std.specs.Prelude.{◌≡◌};
    ghost use Rattle.trace_text.specs.declared.trace.OutFault.TheVariants.{Memory as memory_ran_out};

    ghost from_gives = { λ _ e. e ≡ memory_ran_out };

    fn from(_fault: Memory) -> OutFault {
        OutFault::Memory
    }
}

impl From<Failed> for OutFault {
    ghost use Rattle.std.specs.Prelude.{◌≡◌};
    ghost use Rattle.trace_text.specs.declared.trace.OutFault.TheVariants.{Failed as sink_failed};

    ghost from_gives = { λ _ e. e ≡ sink_failed };

    fn from(_fault: Failed) -> OutFault {
        OutFault::Failed
    }
}

/// The name of a session, or `loop`.
fn caller(sessions: &[SessionText], who: u32) -> &str
    ensures { result.now ≡ caller_text sessions.now who }
{
    match sessions.get(who as usize) {
        Some(session) => session.name.as_str(),
        None => "loop",
    }
}

/// The call of a cycle that an entry of the loop has, where it has one.
fn cycle_of_loop(sessions: &[SessionText], entry: &Entry) -> Option<CycleCall>
    ensures { IfSome result (λ call. head_text sessions.now entry.now ≡ codes "loop " ++ call_text (call_of call)) }
{
    match sessions.get(entry.who as usize) {
        Some(_) => None,
        None => entry.call.of_cycle(),
    }
}

/// Appends what stands before the reply in the line of an entry. Two lines of each cycle begin with the loop's call,
/// which prints in two pieces.
fn push_head(
    line: &mut LineText,
    words: &mut String,
    sessions: &[SessionText],
    entry: &Entry,
) -> Result<(), Memory>
    ensures { OnOk result (line.new ≡ line.old ++ head_text sessions.now entry.now) }
{
    if let Some(call) = cycle_of_loop(sessions, entry) {
        return push_turn(line, call);
    }
    line.push_word(caller(sessions, entry.who))?;
    line.push_word(" ")?;
    words.clear();
    entry.call.push_to(words)?;
    line.push_word(words.as_str())
}

/// Appends what stands behind the head of a line, with its end.
fn push_rest(
    line: &mut LineText,
    words: &mut String,
    names: &Names<'_>,
    reply: &Reply,
) -> Result<(), Memory>
    ensures { OnOk result (line.new ≡ line.old ++ rest_text names.now reply.now) }
{
    line.push_word(": ")?;
    push_reply(line, words, names, reply)?;
    line.push_word("\n")
}

/// Whether a begin decided nothing, or an end has nothing to tell: in most runs that is so in most cycles.
#[tactic(auto, using(crate::proofs::NoneLemmas::nothing_prints_as_none))]
fn has_no_item(reply: &Reply) -> bool
    ensures { result ≡ true → (names : Told) → reply_text names reply.now ≡ codes "none" }
{
    match reply {
        Reply::Decisions(decisions) => decisions.as_slice().is_empty(),
        Reply::Cycle(record) => record.tells_nothing(),
        _ => false,
    }
}

/// Appends a reply.
fn push_reply(
    line: &mut LineText,
    words: &mut String,
    names: &Names<'_>,
    reply: &Reply,
) -> Result<(), Memory>
    ensures { OnOk result (line.new ≡ line.old ++ reply_text names.now reply.now) }
{
    if let Reply::Cycle(record) = reply {
        return push_record(line, names, record);
    }
    push_in_words(line, words, names, reply)
}

/// The call of a cycle that an entry of the loop has, where there is nothing to tell of it.
fn quiet_call(sessions: &[SessionText], entry: &Entry) -> Option<CycleCall>
    ensures { IfSome result
        (λ call. (names : Told) → line_text sessions.now names entry.now ≡ quiet_text call) }
{
    if !has_no_item(&entry.reply) {
        return None;
    }
    cycle_of_loop(sessions, entry)
}

/// The cycle of an entry of the loop that is an end of which bodies alone are told.
#[tactic(auto, using(crate::proofs::StandingLemmas::bodies_alone))]
fn standing_cycle(sessions: &[SessionText], entry: &Entry) -> Option<u64>
    ensures line { IfSome result (λ cycle. (names : Told)
        → line_text sessions.now names entry.now ≡ standing_text names cycle (bodies_of entry.now.reply)) }
    ensures some { IfSome result (λ cycle. 0 < length (bodies_of entry.now.reply)) }
{
    if !tells_bodies_alone(&entry.reply) {
        return None;
    }
    match cycle_of_loop(sessions, entry)? {
        CycleCall::Begin(_) => None,
        CycleCall::End(cycle) => Some(cycle),
    }
}

/// Whether a reply is a record that tells bodies alone, and some.
fn tells_bodies_alone(reply: &Reply) -> bool
    ensures { result ≡ true → TellsBodies reply.now }
{
    let Reply::Cycle(record) = reply else {
        return false;
    };
    if !record.failed().is_empty() || !record.stops().is_empty() {
        return false;
    }
    has_nobody_run(record) && !record.bodies().is_empty()
}

/// Whether no controller was updated.
fn has_nobody_run(record: &CycleRecord) -> bool
    ensures { result ≡ true → record.now.ran ≡ [] }
{
    let mut rans = record.ran();
    match rans.next() {
        Some(_) => false,
        None => true,
    }
}

/// The bodies that a reply tells.
fn bodies_of(reply: &Reply) -> &[BodyState]
    ensures { result.now ≡ bodies_of reply.now }
{
    match reply {
        Reply::Cycle(record) => record.bodies(),
        _ => &[],
    }
}

/// Where lines are made, each in the room of one before it.
#[derive(Drop)]
struct Room<'n, 'd> {
    /// Of a begin of which there is nothing to tell.
    begin: QuietLine,
    /// Of an end of which there is nothing to tell.
    end: QuietLine,
    /// Of an end of which bodies alone are told.
    standing: StandingLine<'n, 'd>,
    /// Of any entry.
    line: LineText,
    /// What is told in words.
    words: String,
}

/// Which line of the room was made last.
#[derive(Clone, Copy, Debug)]
enum Made {
    /// That of a begin of which there is nothing to tell.
    Begin,
    /// That of an end of which there is nothing to tell.
    End,
    /// That of an end of which bodies alone are told.
    Standing,
    /// That of any entry.
    Line,
}

impl<'n, 'd> Room<'n, 'd> {
    /// Room for no byte yet, for lines that are told with these names.
    fn none(alloc: Global, names: &'n Names<'d>) -> Room<'n, 'd>
        ensures { result.standing.names ≡ names.now }
    {
        Room {
            begin: QuietLine::none(alloc),
            end: QuietLine::none(alloc),
            standing: StandingLine::none(alloc, names),
            line: LineText::none(alloc),
            words: String::new(alloc),
        }
    }

    /// The line that was made.
    fn text(&self, made: Made) -> &[u8]
        ensures { result.now ≡ text_in self.now made }
    {
        match made {
            Made::Begin => self.begin.as_slice(),
            Made::End => self.end.as_slice(),
            Made::Standing => self.standing.as_slice(),
            Made::Line => self.line.as_slice(),
        }
    }

    /// Makes the line of a begin or an end of a cycle of which there is nothing to tell.
    fn tell_quiet(&mut self, call: CycleCall) -> Result<Made, Memory>
        ensures made { IfOk result (λ made. text_in self.new made ≡ quiet_text call) }
        ensures names { self.new.standing.names ≡ self.old.standing.names }
    {
        match call {
            CycleCall::Begin(_) => {
                self.begin.tell(call)?;
                Ok(Made::Begin)
            }
            CycleCall::End(_) => {
                self.end.tell(call)?;
                Ok(Made::End)
            }
        }
    }
}

/// Makes the line of an entry. Both are only room: what stood there is gone.
pub(crate) fn make_line(
    line: &mut LineText,
    words: &mut String,
    sessions: &[SessionText],
    names: &Names<'_>,
    entry: &Entry,
) -> Result<(), Memory>
    ensures { OnOk result (line.new ≡ line_text sessions.now names.now entry.now) }
{
    line.clear();
    push_head(line, words, sessions, entry)?;
    push_rest(line, words, names, &entry.reply)
}

/// Makes the line of an entry in this room.
fn make_in(room: &mut Room<'_, '_>, sessions: &[SessionText], entry: &Entry) -> Result<Made, Memory>
    ensures made { IfOk result
        (λ made. text_in room.new made ≡ line_text sessions.now room.old.standing.names entry.now) }
    ensures names { room.new.standing.names ≡ room.old.standing.names }
{
    if let Some(call) = quiet_call(sessions, entry) {
        return room.tell_quiet(call);
    }
    if let Some(cycle) = standing_cycle(sessions, entry) {
        room.standing.tell(cycle, bodies_of(&entry.reply))?;
        return Ok(Made::Standing);
    }
    let names = room.standing.names();
    make_line(&mut room.line, &mut room.words, sessions, names, entry)?;
    Ok(Made::Line)
}

/// Writes a line as one piece, and again what the sink did not take of it, which is seldom a byte. To call it would
/// take as long as what it does for a short line.
#[inline(always)]
fn write_piece<K: Sink>(sink: &mut K, line: &[u8]) -> Result<(), Failed>
    ensures ok { OnOk result (Appends (K.taken sink.old) (K.taken sink.new) line.now) }
    ensures err { OnErr result (AppendsPrefix (K.taken sink.old) (K.taken sink.new) line.now) }
    ensures flushed { K.flushed sink.new ≡ K.flushed sink.old }
    ensures cause { HasCause (K.faults sink.old) (K.faults sink.new) result }
{
    let count = sink.write(line)?;
    if count < line.len() {
        return write_whole(sink, &line[count..]);
    }
    Ok(())
}

/// Writes the line of an entry.
fn write_line<K: Sink>(
    sink: &mut K,
    room: &mut Room<'_, '_>,
    sessions: &[SessionText],
    entry: &Entry,
) -> Result<(), OutFault>
    ensures ok { OnOk result (Appends (K.taken sink.old) (K.taken sink.new)
        (line_text sessions.now room.old.standing.names entry.now)) }
    ensures err { OnErr result (AppendsPrefix (K.taken sink.old) (K.taken sink.new)
        (line_text sessions.now room.old.standing.names entry.now)) }
    ensures stays { (K.flushed sink.new ≡ K.flushed sink.old) × (room.new.standing.names ≡ room.old.standing.names) }
    ensures fault { IsToldAs (Err OutFault.Failed) result (K.faults sink.old) (K.faults sink.new) }
{
    let made = make_in(room, sessions, entry)?;
    let line = room.text(made);
    write_piece(sink, line)?;
    Ok(())
}

/// Writes the lines of a history, each in the room of one before it.
fn write_lines<K: Sink>(
    alloc: Global,
    sink: &mut K,
    sessions: &[SessionText],
    names: &Names<'_>,
    history: &[Entry],
) -> Result<(), OutFault>
    ensures ok { OnOk result
        (Appends (K.taken sink.old) (K.taken sink.new) (flat_map (line_text sessions.now names.now) history.now)) }
    ensures err { OnErr result
        (AppendsPrefix (K.taken sink.old) (K.taken sink.new)
        (flat_map (line_text sessions.now names.now) history.now)) }
    ensures flushed { K.flushed sink.new ≡ K.flushed sink.old }
    ensures fault { IsToldAs (Err OutFault.Failed) result (K.faults sink.old) (K.faults sink.new) }
{
    let mut room = Room::none(alloc, names);
    for entry in history {
        write_line(sink, &mut room, sessions, entry)?;
    }
    Ok(())
}

/// Writes the trace of a history, a line a piece. After either fault the sink has taken a front of it. Nothing is
/// flushed.
pub fn write_trace<K: Sink>(
    alloc: Global,
    sink: &mut K,
    checked: &Checked,
    script: &Script,
    history: &[Entry],
) -> Result<(), OutFault>
    ensures ok { OnOk result
        (Appends (K.taken sink.old) (K.taken sink.new) (trace checked.now script.now.sessions history.now)) }
    ensures err { OnErr result
        (AppendsPrefix (K.taken sink.old) (K.taken sink.new)
        (trace checked.now script.now.sessions history.now)) }
    ensures flushed { K.flushed sink.new ≡ K.flushed sink.old }
    ensures fault { IsToldAs (Err OutFault.Failed) result (K.faults sink.old) (K.faults sink.new) }
{
    let names = Names::of(alloc, checked.description(), history)?;
    write_lines(alloc, sink, script.sessions.as_slice(), &names, history)
}
