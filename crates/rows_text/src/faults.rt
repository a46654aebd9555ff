//! How each fault of a document prints, as it stands within the fault of the whole document. What a status tells of it
//! has its rows with the program.

use cm_document::{CheckFault, DescFault, DescProblem, DocumentFault, ScriptFault, Text, What};
use iface_names::{IfaceName, Name};
use pages_cases::pages::hold_told;
use std::alloc::Global;
use std::test::Fail;

/// A line for each fault below, in their order. A name stands as it is, without quotes; a key's own quotes, blanks and
/// backslashes are its bytes, and its control characters are written as TOML writes them.
const PRINTED: &str = r#"description: not_toml
description: bad_key controller[0].rate
description: bad_value component[12].joint[3].command[1]
description: float_given component[0].joint[0].vmax
description: bad_key a b
description: bad_key "a"
description: bad_key 'a\b'
description: bad_key \u001B[2J\u000Ax
description: bad_key \u0000\u001F\u007F\u0080\u009F
description: bad_key é ∀
description: out of memory
description: too_many components
description: too_many joints
description: too_many states
description: too_many commands
description: too_many controllers
description: too_many references
description: too_many claims
description: too_many reads
description: too_many groups
description: name_twice pid
description: name_twice pid/j1/position
description: bad_range version
description: no_interface fwd j1/velocity
description: no_interface traj pid/j1/effort
description: no_fallback mk fwd
description: no_member arms mk
description: chain_loop pid
description: out of memory
script: bad_line 30
script: no_session 4294967295
script: too_many 10030
script: out of memory
out of memory
"#;

#[test]
fn each_fault_prints_as_its_line(rt: HostRuntime) -> Result<(), Fail> {
    let alloc = rt.alloc();
    let mut printed = String::new(alloc);
    push_texts(alloc, &mut printed)?;
    push_keys(alloc, &mut printed)?;
    push_counts(&mut printed)?;
    push_checks(alloc, &mut printed)?;
    push_scripts(&mut printed)?;
    push(&mut printed, DocumentFault::Memory)?;
    hold_told(alloc, "each fault", printed.as_str(), PRINTED)
}

/// Appends the line of a fault.
fn push(printed: &mut String, fault: DocumentFault) -> Result<(), Fail> {
    let pushed = write!(printed, "{fault}\n");
    drop(fault);
    Ok(pushed?)
}

fn push_text(printed: &mut String, fault: DescFault) -> Result<(), Fail> {
    push(
        printed,
        DocumentFault::Description(DescProblem::Text(fault)),
    )
}

fn push_check(printed: &mut String, fault: CheckFault) -> Result<(), Fail> {
    push(
        printed,
        DocumentFault::Description(DescProblem::Check(fault)),
    )
}

fn text(alloc: Global, text: &str) -> Result<Text, Fail> {
    Ok(Text::from_string(String::from_str(alloc, text)?))
}

/// The faults of a description's text.
fn push_texts(alloc: Global, printed: &mut String) -> Result<(), Fail> {
    push_text(printed, DescFault::NotToml)?;
    push_bad_key(alloc, printed, "controller[0].rate")?;
    let command = text(alloc, "component[12].joint[3].command[1]")?;
    push_text(printed, DescFault::BadValue(command))?;
    let vmax = text(alloc, "component[0].joint[0].vmax")?;
    push_text(printed, DescFault::FloatGiven(vmax))
}

/// Keys that TOML writes in quotes.
fn push_keys(alloc: Global, printed: &mut String) -> Result<(), Fail> {
    for key in KEYS {
        push_bad_key(alloc, printed, key)?;
    }
    push_text(printed, DescFault::Memory)
}

fn push_bad_key(alloc: Global, printed: &mut String, key: &str) -> Result<(), Fail> {
    push_text(printed, DescFault::BadKey(text(alloc, key)?))
}

const KEYS: [&str; 6] = [
    "a b",
    "\"a\"",
    r"'a\b'",
    "\u{1b}[2J\nx",
    "\u{0}\u{1f}\u{7f}\u{80}\u{9f}",
    "é ∀",
];

/// Too many of each thing.
fn push_counts(printed: &mut String) -> Result<(), Fail> {
    for what in EACH {
        push_check(printed, CheckFault::TooMany(what))?;
    }
    Ok(())
}

const EACH: [What; 9] = [
    What::Components,
    What::Joints,
    What::States,
    What::Commands,
    What::Controllers,
    What::References,
    What::Claims,
    What::Reads,
    What::Groups,
];

/// The other faults of the checks.
fn push_checks(alloc: Global, printed: &mut String) -> Result<(), Fail> {
    push_name_twice(alloc, printed, "pid")?;
    push_name_twice(alloc, printed, "pid/j1/position")?;
    push_check(printed, CheckFault::BadRange(text(alloc, "version")?))?;
    push_no_interface(alloc, printed, b"fwd", b"j1/velocity")?;
    push_no_interface(alloc, printed, b"traj", b"pid/j1/effort")?;
    push_no_controller(alloc, printed)?;
    push_check(printed, CheckFault::Memory)
}

fn push_name_twice(alloc: Global, printed: &mut String, name: &str) -> Result<(), Fail> {
    push_check(printed, CheckFault::NameTwice(text(alloc, name)?))
}

fn push_no_interface(
    alloc: Global,
    printed: &mut String,
    controller: &[u8],
    interface: &[u8],
) -> Result<(), Fail> {
    let fault = CheckFault::NoInterface {
        controller: Name::read(alloc, controller)?,
        interface: IfaceName::read(alloc, interface)?,
    };
    push_check(printed, fault)
}

/// The faults of controllers that are not there, and of a loop.
fn push_no_controller(alloc: Global, printed: &mut String) -> Result<(), Fail> {
    push_check(printed, no_fallback(alloc, b"mk", b"fwd")?)?;
    push_check(printed, no_member(alloc, b"arms", b"mk")?)?;
    push_check(printed, CheckFault::ChainLoop(Name::read(alloc, b"pid")?))
}

fn no_fallback(alloc: Global, controller: &[u8], name: &[u8]) -> Result<CheckFault, Fail> {
    Ok(CheckFault::NoFallback {
        controller: Name::read(alloc, controller)?,
        name: Name::read(alloc, name)?,
    })
}

fn no_member(alloc: Global, group: &[u8], name: &[u8]) -> Result<CheckFault, Fail> {
    Ok(CheckFault::NoMember {
        group: Name::read(alloc, group)?,
        name: Name::read(alloc, name)?,
    })
}

fn push_scripts(printed: &mut String) -> Result<(), Fail> {
    push(printed, DocumentFault::Script(ScriptFault::BadLine(30)))?;
    push(
        printed,
        DocumentFault::Script(ScriptFault::NoSession(u32::MAX)),
    )?;
    push(printed, DocumentFault::Script(ScriptFault::TooMany(10_030)))?;
    push(printed, DocumentFault::Script(ScriptFault::Memory))
}
