//! What the program tells of each status: the number that it ends with, and the line on standard error, with `Ok` none.

use cm_document::{CheckFault, DescFault, DescProblem, ScriptFault, Text, What};
use cm_model::Cause;
use cm_program::report;
use cm_top::Status;
use iface_names::{IfaceName, Name};
use pages_cases::pages::hold_told;
use sequence::{Boxed, Seq};
use spawn_plan::SpawnFault;
use std::alloc::Global;
use std::cell::RefCell;
use std::fmt::Display;
use std::io;
use std::io::{Eprint, ErrorKind};
use std::test::Fail;

/// A runtime that only hears what is told on standard error.
#[derive(Drop)]
struct Heard {
    told: RefCell<String>,
}

impl Heard {
    fn new(alloc: Global) -> Heard {
        Heard {
            told: RefCell::new(String::new(alloc)),
        }
    }
}

impl Eprint for Heard {
    fn eprint<D: Display + Drop>(&self, value: D) -> io::Result<()> {
        let Ok(mut told) = self.told.try_borrow_mut() else {
            return Err(io::Error::from(ErrorKind::Other));
        };
        write!(told, "{value}")?;
        Ok(())
    }

    fn eprintln<D: Display + Drop>(&self, value: D) -> io::Result<()> {
        self.eprint(value)?;
        self.eprint("\n")
    }
}

/// How a run ends by its status: the number, and what stands on standard error, without the end of its one line.
pub(crate) fn end(alloc: Global, status: &Status) -> Result<String, Fail> {
    let heard = Heard::new(alloc);
    let code = report(&heard, status);
    let told = heard.told.into_inner();
    match told.strip_suffix("\n") {
        Some(line) => Ok(format!(in alloc; "{code} {line}")?),
        None => Ok(format!(in alloc; "{code}{told}")?),
    }
}

/// How each status below ends, in their order.
const ENDS: &str = "\
0
2 cm: usage: cm run|steps|live|upgrade|check|plan [--make N] [--workers N]
3 cm: description: not_toml
3 cm: description: bad_key controller[0].rate
3 cm: description: bad_value component[12].joint[3].command[1]
3 cm: description: float_given component[0].joint[0].vmax
3 cm: description: too_many components
3 cm: description: too_many joints
3 cm: description: too_many states
3 cm: description: too_many commands
3 cm: description: too_many controllers
3 cm: description: too_many references
3 cm: description: too_many claims
3 cm: description: too_many reads
3 cm: description: too_many groups
3 cm: description: name_twice pid/j1/position
3 cm: description: bad_range cycles
3 cm: description: no_interface fwd pid/j1/effort
3 cm: description: no_fallback mk fwd
3 cm: description: no_member arms mk
3 cm: description: chain_loop p
4 cm: script: bad_line 13
4 cm: script: no_session 8
4 cm: script: too_many 10009
5 cm: read fault
6 cm: document longer than 1048576 bytes
7 cm: out of memory
8 cm: write fault
9 cm: trace: line 12
10 cm: plan: not_described fwd
10 cm: plan: twice fwd
10 cm: plan: no_blank fwd
10 cm: plan: refuses_config fwd
10 cm: plan: never fwd missing_follower pid/j1/position
10 cm: plan: no_cycle
";

#[test]
fn each_status_ends_with_its_number_and_line(rt: HostRuntime) -> Result<(), Fail> {
    let alloc = rt.alloc();
    let mut ends = String::new(alloc);
    push_end(alloc, &mut ends, Status::Ok)?;
    push_end(alloc, &mut ends, Status::BadWords)?;
    push_texts(alloc, &mut ends)?;
    push_counts(alloc, &mut ends)?;
    push_checks(alloc, &mut ends)?;
    push_scripts(alloc, &mut ends)?;
    push_outside(alloc, &mut ends)?;
    hold_told(alloc, "each status", ends.as_str(), ENDS)
}

/// Appends the line of a status, which has many parts, and is dropped at this one place.
fn push_end(alloc: Global, ends: &mut String, status: Status) -> Result<(), Fail> {
    let pushed = push_line(alloc, ends, &status);
    drop(status);
    pushed
}

fn push_line(alloc: Global, ends: &mut String, status: &Status) -> Result<(), Fail> {
    let end = end(alloc, status)?;
    ends.push_str(end.as_str())?;
    ends.push_str("\n")?;
    Ok(())
}

/// The faults of a description's text.
fn push_texts(alloc: Global, ends: &mut String) -> Result<(), Fail> {
    push_text(alloc, ends, DescFault::NotToml)?;
    let key = text(alloc, "controller[0].rate")?;
    push_text(alloc, ends, DescFault::BadKey(key))?;
    let kind = text(alloc, "component[12].joint[3].command[1]")?;
    push_text(alloc, ends, DescFault::BadValue(kind))?;
    let vmax = text(alloc, "component[0].joint[0].vmax")?;
    push_text(alloc, ends, DescFault::FloatGiven(vmax))
}

fn push_text(alloc: Global, ends: &mut String, fault: DescFault) -> Result<(), Fail> {
    push_end(
        alloc,
        ends,
        Status::BadDescription(DescProblem::Text(fault)),
    )
}

/// Too many of each thing.
fn push_counts(alloc: Global, ends: &mut String) -> Result<(), Fail> {
    push_count(alloc, ends, What::Components)?;
    push_count(alloc, ends, What::Joints)?;
    push_count(alloc, ends, What::States)?;
    push_count(alloc, ends, What::Commands)?;
    push_count(alloc, ends, What::Controllers)?;
    push_count(alloc, ends, What::References)?;
    push_count(alloc, ends, What::Claims)?;
    push_count(alloc, ends, What::Reads)?;
    push_count(alloc, ends, What::Groups)
}

fn push_count(alloc: Global, ends: &mut String, what: What) -> Result<(), Fail> {
    push_check(alloc, ends, CheckFault::TooMany(what))
}

/// The other faults of the checks.
fn push_checks(alloc: Global, ends: &mut String) -> Result<(), Fail> {
    let twice = text(alloc, "pid/j1/position")?;
    push_check(alloc, ends, CheckFault::NameTwice(twice))?;
    let range = text(alloc, "cycles")?;
    push_check(alloc, ends, CheckFault::BadRange(range))?;
    push_check(alloc, ends, no_interface(alloc)?)?;
    push_check(alloc, ends, no_fallback(alloc)?)?;
    push_check(alloc, ends, no_member(alloc)?)?;
    let first = Name::read(alloc, b"p")?;
    push_check(alloc, ends, CheckFault::ChainLoop(first))
}

fn no_interface(alloc: Global) -> Result<CheckFault, Fail> {
    Ok(CheckFault::NoInterface {
        controller: Name::read(alloc, b"fwd")?,
        interface: IfaceName::read(alloc, b"pid/j1/effort")?,
    })
}

fn no_fallback(alloc: Global) -> Result<CheckFault, Fail> {
    Ok(CheckFault::NoFallback {
        controller: Name::read(alloc, b"mk")?,
        name: Name::read(alloc, b"fwd")?,
    })
}

fn no_member(alloc: Global) -> Result<CheckFault, Fail> {
    Ok(CheckFault::NoMember {
        group: Name::read(alloc, b"arms")?,
        name: Name::read(alloc, b"mk")?,
    })
}

fn push_check(alloc: Global, ends: &mut String, fault: CheckFault) -> Result<(), Fail> {
    push_end(
        alloc,
        ends,
        Status::BadDescription(DescProblem::Check(fault)),
    )
}

fn push_scripts(alloc: Global, ends: &mut String) -> Result<(), Fail> {
    push_end(alloc, ends, Status::BadScript(ScriptFault::BadLine(13)))?;
    push_end(alloc, ends, Status::BadScript(ScriptFault::NoSession(8)))?;
    push_end(alloc, ends, Status::BadScript(ScriptFault::TooMany(10_009)))
}

/// What source, sink and memory come to.
fn push_outside(alloc: Global, ends: &mut String) -> Result<(), Fail> {
    push_end(alloc, ends, Status::ReadFault)?;
    push_end(alloc, ends, Status::TooLong)?;
    push_end(alloc, ends, Status::Memory)?;
    push_end(alloc, ends, Status::WriteFault)?;
    push_end(alloc, ends, not_legal(alloc))?;
    push_plans(alloc, ends)
}

/// A stored trace that goes wrong.
fn not_legal(alloc: Global) -> Status {
    Status::NotLegal {
        line: 12,
        expected: Seq::new(alloc),
    }
}

/// What speaks against a plan.
fn push_plans(alloc: Global, ends: &mut String) -> Result<(), Fail> {
    push_plan(alloc, ends, SpawnFault::NotDescribed(fwd(alloc)?))?;
    push_plan(alloc, ends, SpawnFault::Twice(fwd(alloc)?))?;
    push_plan(alloc, ends, SpawnFault::NoBlank(fwd(alloc)?))?;
    push_plan(alloc, ends, SpawnFault::RefusesConfig(fwd(alloc)?))?;
    push_plan(alloc, ends, never(alloc)?)?;
    push_plan(alloc, ends, SpawnFault::NoCycle)
}

fn fwd(alloc: Global) -> Result<Name, Fail> {
    Ok(Name::read(alloc, b"fwd")?)
}

fn never(alloc: Global) -> Result<SpawnFault, Fail> {
    let interface = IfaceName::read(alloc, b"pid/j1/position")?;
    let cause = Cause::MissingFollower(Boxed::new(alloc, interface)?);
    Ok(SpawnFault::Never(fwd(alloc)?, cause))
}

fn push_plan(alloc: Global, ends: &mut String, fault: SpawnFault) -> Result<(), Fail> {
    push_end(alloc, ends, Status::CannotSpawn(fault))
}

fn text(alloc: Global, text: &str) -> Result<Text, Fail> {
    Ok(Text::from_string(String::from_str(alloc, text)?))
}
