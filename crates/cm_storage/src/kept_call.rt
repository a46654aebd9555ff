//! A call as a history keeps it.

ghost use Rattle.std.specs.Prelude.{◌≡◌, ◌++◌, false, IfOk, IfSome, OnOk, MatchOption, option_map, string_bytes};
ghost use Rattle.cm_storage.specs.Kept.{kept_call, is_of_cycle, call_of, load_name};

use crate::append::push_numbered;
use cm_document::Call;
use fixed_num::Memory;
use iface_names::Name;
use sequence::Boxed;
use std::alloc::{AllocError, Global};
use std::fmt;
use std::fmt::{Display, Formatter, Write};
use std::marker::Model;

/// A call as a history keeps it, in few bytes. Contracts see the call.
#[derive(Clone, Debug, Drop)]
pub struct KeptCall {
    kept: Short,
}

/// A call that the loop makes in each cycle, with the number of the cycle.
#[derive(Clone, Copy, Debug, PartialEq, Eq)]
pub enum CycleCall {
    /// It begins.
    Begin(u64),
    /// It ends.
    End(u64),
}

/// The calls that are short, and the others on the heap.
#[derive(Clone, Debug, Drop)]
enum Short {
    Told(u32),
    Await(u64),
    ListControllers,
    ListInterfaces,
    ListComponents,
    Begin(u64),
    End(u64),
    Close,
    Long(Boxed<Call>),
}

impl Model for KeptCall {
    ghost use Rattle.cm_document.specs.declared.call.Call.{Call};

    ghost Value = { Call };

    ghost use Rattle.cm_storage.specs.Kept.{kept_call};

    ghost view = { λ call. kept_call call.kept };
}

impl KeptCall {
    /// Keeps a call. A short one takes no memory.
    pub fn of(alloc: Global, call: Call) -> Result<KeptCall, AllocError>
        ensures { IfOk result (λ kept. kept ≡ call) }
    {
        if let Some(kept) = in_place(&call) {
            return Ok(KeptCall { kept });
        }
        Ok(KeptCall {
            kept: Short::Long(Boxed::new(alloc, call)?),
        })
    }

    /// Keeps a call that stands on the heap. It takes no memory.
    pub fn of_boxed(call: Boxed<Call>) -> KeptCall
        ensures { result ≡ call }
    {
        match in_place(call.get()) {
            Some(kept) => KeptCall { kept },
            None => KeptCall {
                kept: Short::Long(call),
            },
        }
    }

    /// The begin of the cycle of this number.
    pub fn begin(cycle: u64) -> KeptCall
        ensures { result ≡ Call.Begin cycle }
    {
        KeptCall {
            kept: Short::Begin(cycle),
        }
    }

    /// The end of the cycle of this number.
    pub fn end(cycle: u64) -> KeptCall
        ensures { result ≡ Call.End cycle }
    {
        KeptCall {
            kept: Short::End(cycle),
        }
    }

    /// The close of the loop.
    pub fn close() -> KeptCall
        ensures { result ≡ Call.Close }
    {
        KeptCall { kept: Short::Close }
    }
}

impl KeptCall {
    ghost use Rattle.std.specs.Prelude.{option_map};
    ghost use Rattle.cm_storage.specs.Kept.{load_name};

    /// The controller that a load is of.
    pub fn load_name(&self) -> Option<&Name>
        ensures { option_map (λ name. name.now) result ≡ load_name self.now }
    {
        match &self.kept {
            Short::Long(call) => load_name(call.get()),
            _ => None,
        }
    }

    /// The begin or the end of a cycle, where it is one.
    pub fn of_cycle(&self) -> Option<CycleCall>
        ensures { MatchOption result (is_of_cycle self.now ≡ false) (λ call. self.now ≡ call_of call) }
    {
        match &self.kept {
            Short::Begin(cycle) => Some(CycleCall::Begin(*cycle)),
            Short::End(cycle) => Some(CycleCall::End(*cycle)),
            Short::Long(call) => of_cycle(call.get()),
            _ => None,
        }
    }
}

/// The begin or the end of a cycle, where a call is one.
fn of_cycle(call: &Call) -> Option<CycleCall>
    ensures { MatchOption result (is_of_cycle call.now ≡ false) (λ it. call.now ≡ call_of it) }
{
    match call {
        Call::Begin(cycle) => Some(CycleCall::Begin(*cycle)),
        Call::End(cycle) => Some(CycleCall::End(*cycle)),
        _ => None,
    }
}

/// The controller that a load is of.
fn load_name(call: &Call) -> Option<&Name>
    ensures { option_map (λ name. name.now) result ≡ load_name call.now }
{
    match call {
        Call::Load(name) => Some(name),
        _ => None,
    }
}

/// A short call, kept in place.
fn in_place(call: &Call) -> Option<Short>
    ensures { IfSome result (λ kept. kept_call kept ≡ call.now) }
{
    match call {
        Call::Told(ticket) => Some(Short::Told(*ticket)),
        Call::Await(cycles) => Some(Short::Await(*cycles)),
        Call::ListControllers => Some(Short::ListControllers),
        Call::ListInterfaces => Some(Short::ListInterfaces),
        Call::ListComponents => Some(Short::ListComponents),
        Call::Begin(cycle) => Some(Short::Begin(*cycle)),
        Call::End(cycle) => Some(Short::End(*cycle)),
        Call::Close => Some(Short::Close),
        _ => None,
    }
}

impl KeptCall {
    ghost use Rattle.cm_document.specs.CallText.{call_text};

    /// Appends the call's text. A begin, an end and the close take no formatter.
    pub fn push_to(&self, text: &mut String) -> Result<(), Memory>
        ensures { OnOk result (string_bytes text.new ≡ string_bytes text.old ++ call_text self.now) }
    {
        match &self.kept {
            Short::Begin(cycle) => push_numbered(text, "begin ", *cycle)?,
            Short::End(cycle) => push_numbered(text, "end ", *cycle)?,
            Short::Close => text.push_str("close")?,
            Short::ListControllers => text.push_str("list controllers")?,
            _ => write!(text, "{self}")?,
        }
        Ok(())
    }
}

impl Display for KeptCall {
    ghost use Rattle.std.specs.Prelude.{Some};
    ghost use Rattle.cm_document.specs.CallText.{call_text};

    ghost output = { λ call. Some (call_text call) };

    fn fmt<W: Write>(&self, f: &mut Formatter<W>) -> fmt::Result {
        match &self.kept {
            Short::Told(ticket) => write!(f, "{}", Call::Told(*ticket)),
            Short::Await(cycles) => write!(f, "{}", Call::Await(*cycles)),
            Short::ListControllers => write!(f, "{}", Call::ListControllers),
            Short::ListInterfaces => write!(f, "{}", Call::ListInterfaces),
            Short::ListComponents => write!(f, "{}", Call::ListComponents),
            Short::Begin(cycle) => write!(f, "{}", Call::Begin(*cycle)),
            Short::End(cycle) => write!(f, "{}", Call::End(*cycle)),
            Short::Close => write!(f, "{}", Call::Close),
            Short::Long(call) => write!(f, "{}", call.get()),
        }
    }
}
