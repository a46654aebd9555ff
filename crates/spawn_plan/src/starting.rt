//! The script that starts wanted controllers.

ghost use Rattle.std.specs.Prelude.{◌≡◌, ◌++◌, map, codes, IfOk, OnOk};
ghost use Rattle.cm_document.specs.declared.call.Call.TheVariants.{Load, Configure};
ghost use Rattle.spawn_plan.specs.Starting.{waiting_for, starting_all, start_lines, starting};

use crate::never;
use cm_document::{Call, Script, SessionText};
use fixed_num::Memory;
use iface_names::{Name, NameFault};
use sequence::Seq;
use std::alloc::Global;

/// The script that starts these with this cycle.
pub fn starting(alloc: Global, wanted: &[Name], cycle: u64) -> Result<Script, Memory>
    ensures { IfOk result (λ script. script ≡ starting wanted.now cycle) }
{
    let name = session_name(alloc)?;
    let lines = start_lines(alloc, wanted, cycle)?;
    let mut sessions = Seq::new(alloc);
    sessions.push(SessionText { name, lines })?;
    Ok(Script {
        sessions,
        schedule: Seq::new(alloc),
    })
}

/// The name of its session.
fn session_name(alloc: Global) -> Result<Name, Memory>
    ensures { IfOk result (λ name. name ≡ codes "spawner") }
{
    match Name::read(alloc, b"spawner".as_slice()) {
        Ok(name) => Ok(name),
        Err(NameFault::Memory) => Err(Memory),
        Err(NameFault::BadName) => unreachable!(),
    }
}

/// Its lines: all are loaded, and then configured, the cycle is awaited, and all are started.
fn start_lines(alloc: Global, wanted: &[Name], cycle: u64) -> Result<Seq<Call>, Memory>
    ensures { IfOk result (λ lines. lines ≡ start_lines wanted.now cycle) }
{
    let mut lines = Seq::new(alloc);
    if wanted.is_empty() {
        return Ok(lines);
    }
    push_loads(&mut lines, wanted)?;
    push_configures(&mut lines, wanted)?;
    push_wait(&mut lines, cycle)?;
    lines.push(starting_all(alloc, wanted)?)?;
    Ok(lines)
}

/// Appends a load of each.
fn push_loads(lines: &mut Seq<Call>, names: &[Name]) -> Result<(), Memory>
    ensures { OnOk result (lines.new ≡ lines.old ++ map Load names.now) }
{
    for name in names {
        lines.push(Call::Load(name.clone()?))?;
    }
    Ok(())
}

/// Appends a configure of each.
fn push_configures(lines: &mut Seq<Call>, names: &[Name]) -> Result<(), Memory>
    ensures { OnOk result (lines.new ≡ lines.old ++ map Configure names.now) }
{
    for name in names {
        lines.push(Call::Configure(name.clone()?))?;
    }
    Ok(())
}

/// Appends the wait for this cycle, if it is not the first.
fn push_wait(lines: &mut Seq<Call>, cycle: u64) -> Result<(), Memory>
    ensures { OnOk result (lines.new ≡ lines.old ++ waiting_for cycle) }
{
    if cycle > 0 {
        lines.push(Call::Await(cycle))?;
    }
    Ok(())
}

/// One strict switch of all of them.
fn starting_all(alloc: Global, wanted: &[Name]) -> Result<Call, Memory>
    ensures { IfOk result (λ call. call ≡ starting_all wanted.now) }
{
    Ok(Call::Switch(never::starting(alloc, wanted)?))
}
