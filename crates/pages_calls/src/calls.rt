//! Calls of a session, of words as a script has them.

ghost use Rattle.std.specs.Prelude.{IfOk};
ghost use Rattle.cm_model.specs.Ports.{CanBeCalled};

use cm_document::{Call, LIVES, Life, Mail, Pick, STRICTNESSES, SwitchRequest, meaning_of};
use fixed_num::Fx;
use iface_names::Name;
use pages_cases::pages::halves;
use sequence::Seq;
use std::alloc::Global;
use std::test::Fail;

/// The call of a verb and the words behind it: one that a desk answers at once.
pub fn call_of(alloc: Global, verb: &str, rest: &str) -> Result<Call, Fail>
    ensures { IfOk result CanBeCalled }
{
    match verb {
        "load" => Ok(Call::Load(name_of(alloc, rest)?)),
        "configure" => Ok(Call::Configure(name_of(alloc, rest)?)),
        "cleanup" => Ok(Call::Cleanup(name_of(alloc, rest)?)),
        "unload" => Ok(Call::Unload(name_of(alloc, rest)?)),
        "rate" => rate_of(alloc, rest),
        "switch" => Ok(Call::Switch(switch_of(alloc, rest)?)),
        "send" => send_of(alloc, rest),
        "hw" => hardware_of(alloc, rest),
        "list" => list_of(rest),
        _ => Err(Fail::new("an unknown call")),
    }
}

/// The name that a word is.
pub fn name_of(alloc: Global, word: &str) -> Result<Name, Fail> {
    Ok(Name::read(alloc, word.as_bytes())?)
}

/// `NAME HZ`.
fn rate_of(alloc: Global, rest: &str) -> Result<Call, Fail>
    ensures { IfOk result CanBeCalled }
{
    let (name, hz) = halves(rest, " ")?;
    let hz = hz.parse()?;
    Ok(Call::Rate {
        name: name_of(alloc, name)?,
        hz,
    })
}

/// `controllers`, `interfaces` or `components`.
fn list_of(word: &str) -> Result<Call, Fail>
    ensures { IfOk result CanBeCalled }
{
    match word {
        "controllers" => Ok(Call::ListControllers),
        "interfaces" => Ok(Call::ListInterfaces),
        "components" => Ok(Call::ListComponents),
        _ => Err(Fail::new("an unknown list")),
    }
}

/// `NAME VALUE`.
fn send_of(alloc: Global, rest: &str) -> Result<Call, Fail>
    ensures { IfOk result CanBeCalled }
{
    let (name, value) = halves(rest, " ")?;
    let values = vec![in alloc; Fx::read(value.as_bytes())?]?;
    Ok(Call::Send {
        name: name_of(alloc, name)?,
        mail: Mail::Values(Seq::from_vec(values)),
    })
}

/// `COMPONENT STATE`.
fn hardware_of(alloc: Global, rest: &str) -> Result<Call, Fail>
    ensures { IfOk result CanBeCalled }
{
    let (name, state) = halves(rest, " ")?;
    Ok(Call::Hardware {
        component: name_of(alloc, name)?,
        target: life_of(state)?,
    })
}

/// The lifecycle state of a word.
pub fn life_of(word: &str) -> Result<Life, Fail> {
    Ok(meaning_of(&LIVES, word.as_bytes()).ok_or("an unknown state")?)
}

/// `strict` or `best`, and what is to be deactivated behind `-` and activated behind `+`: a name, or `@` and a group's.
pub fn switch_of(alloc: Global, words: &str) -> Result<SwitchRequest, Fail> {
    let (strictness, picks) = words.split_once(" ").unwrap_or((words, ""));
    let mut request = SwitchRequest {
        on: Seq::new(alloc),
        off: Seq::new(alloc),
        strict: is_strict(strictness)?,
    };
    for word in picks.split_whitespace() {
        add_word(alloc, &mut request, word)?;
    }
    Ok(request)
}

fn is_strict(word: &str) -> Result<bool, Fail> {
    Ok(meaning_of(&STRICTNESSES, word.as_bytes()).ok_or("neither strict nor best")?)
}

fn add_word(alloc: Global, request: &mut SwitchRequest, word: &str) -> Result<(), Fail> {
    if let Some(name) = word.strip_prefix('-') {
        request.off.push(pick_of(alloc, name)?)?;
    } else if let Some(name) = word.strip_prefix('+') {
        request.on.push(pick_of(alloc, name)?)?;
    } else {
        return Err(Fail::new("a word without its sign"));
    }
    Ok(())
}

fn pick_of(alloc: Global, word: &str) -> Result<Pick, Fail> {
    match word.strip_prefix('@') {
        Some(name) => Ok(Pick::Group(name_of(alloc, name)?)),
        None => Ok(Pick::One(name_of(alloc, word)?)),
    }
}
