//! The keys that each type of controller has: how its own are read, and how they are printed.

ghost use Rattle.std.specs.Prelude.{◌≡◌, ◌∷◌, [], List, map, codes, Some, OnOk};
ghost use Rattle.sequence.specs.Answers.{Answers};
ghost use Rattle.toml.specs.Data.{boolean};
ghost use Rattle.toml.specs.View.{table_view};
ghost use Rattle.iface_names.specs.declared.interface.IfaceName.{IfaceName};
ghost use Rattle.cm_document.specs.Described.{controller_table, own_keys};
ghost use Rattle.cm_document.specs.Given.{AreNumbers, AreWholes};
ghost use Rattle.cm_document.specs.Tables.{none_unlisted, unlisted};
ghost use Rattle.cm_document.specs.declared.description.CtlKind.TheVariants as kinds;
ghost use Rattle.desc_text.specs.Printed.{cycles, params_rows, quantity, with_rows};

use crate::cycles::cycles_at;
use crate::forms::One;
use crate::keys::Keys;
use crate::print::rows::{put_cycles, put_flag, put_quantity};
use crate::values::{Boolean, Quantity};
use cm_document::{CtlKind, DescFault, Params};
use fixed_num::{Fx, Memory};
use iface_names::Kind;
use std::alloc::Global;
use toml::Table;

/// The keys that a forward or a passthrough may have.
const CLAIMING: [&str; 5] = ["name", "type", "update_rate", "fallback", "claims"];

/// The keys that a pid may have.
const PID: [&str; 11] = [
    "name",
    "type",
    "update_rate",
    "fallback",
    "claims",
    "reads",
    "kp",
    "ki",
    "kd",
    "imax",
    "omax",
];

/// The keys that a trajectory may have.
const TRAJECTORY: [&str; 6] = ["name", "type", "update_rate", "fallback", "claims", "reads"];

/// The keys that a broadcaster may have.
const BROADCASTER: [&str; 5] = ["name", "type", "update_rate", "fallback", "reads"];

/// The keys that a mock may have.
const MOCK: [&str; 9] = [
    "name",
    "type",
    "update_rate",
    "fallback",
    "claims",
    "reads",
    "refuse_config",
    "not_ready",
    "fail_update",
];

/// The keys that a transmission may have.
const TRANSMISSION: [&str; 7] = [
    "name",
    "type",
    "update_rate",
    "fallback",
    "claims",
    "reduction",
    "offset",
];

/// The keys that a differential may have.
const DIFFERENTIAL: [&str; 9] = [
    "name",
    "type",
    "update_rate",
    "fallback",
    "claims",
    "reduction1",
    "reduction2",
    "offset1",
    "offset2",
];

/// The keys that a limiter may have.
const LIMITER: [&str; 10] = [
    "name",
    "type",
    "update_rate",
    "fallback",
    "claims",
    "reads",
    "min",
    "max",
    "vmax",
    "amax",
];

/// The table has no keys but those of a controller of this type.
pub(crate) fn none_but_listed(keys: &Keys<'_>, kind: CtlKind) -> Result<(), DescFault>
    ensures { (states : List IfaceName) → Answers DescFault.Memory
        (none_unlisted keys.now.prefix.now
        (unlisted (controller_table states kind).keys (table_view keys.now.table.now))) result }
{
    keys.none_but(keys_of(kind))
}

/// The keys that a controller of this type may have, whatever `all` stands for.
#[tactic(auto, unfolding(cm_document::specs::Described::controller_table))]
fn keys_of(kind: CtlKind) -> &'static [&'static str]
    ensures { map (λ k. k.now) result.now ≡ (controller_table [] kind).keys }
{
    match kind {
        CtlKind::Forward | CtlKind::Passthrough => &CLAIMING,
        CtlKind::Pid => &PID,
        CtlKind::Trajectory => &TRAJECTORY,
        CtlKind::Broadcaster => &BROADCASTER,
        CtlKind::Mock => &MOCK,
        CtlKind::Transmission => &TRANSMISSION,
        CtlKind::Differential => &DIFFERENTIAL,
        CtlKind::Limiter => &LIMITER,
    }
}

/// What stands at the keys that a type alone has. What claims and reads tell is not filled in.
pub(crate) fn own_at(keys: &Keys<'_>, kind: CtlKind) -> Result<Params, DescFault>
    ensures { Answers DescFault.Memory
        ((own_keys kind).form.read keys.now.prefix.now (table_view keys.now.table.now)) result }
{
    match kind {
        CtlKind::Forward => Ok(Params::Forward { outs: 0 }),
        CtlKind::Passthrough => Ok(Params::Passthrough { outs: 0 }),
        CtlKind::Pid => pid(keys),
        CtlKind::Trajectory => Ok(Params::Trajectory { outs: 0 }),
        CtlKind::Broadcaster => Ok(Params::Broadcaster { ins: 0 }),
        CtlKind::Mock => mock(keys),
        CtlKind::Transmission => transmission(keys),
        CtlKind::Differential => differential(keys),
        CtlKind::Limiter => limiter(keys),
    }
}

fn pid(keys: &Keys<'_>) -> Result<Params, DescFault>
    ensures { Answers DescFault.Memory
        ((own_keys kinds.Pid).form.read keys.now.prefix.now (table_view keys.now.table.now)) result }
{
    let kp = keys.defaulted("kp", &One(Quantity), Fx::ZERO)?;
    let ki = keys.defaulted("ki", &One(Quantity), Fx::ZERO)?;
    let kd = keys.defaulted("kd", &One(Quantity), Fx::ZERO)?;
    let imax = keys.defaulted("imax", &One(Quantity), Fx::ZERO)?;
    let omax = keys.defaulted("omax", &One(Quantity), Fx::MAX)?;
    Ok(Params::Pid {
        kp,
        ki,
        kd,
        imax,
        omax,
    })
}

fn mock(keys: &Keys<'_>) -> Result<Params, DescFault>
    ensures { Answers DescFault.Memory
        ((own_keys kinds.Mock).form.read keys.now.prefix.now (table_view keys.now.table.now)) result }
{
    let refuse_config = keys.defaulted("refuse_config", &One(Boolean), false)?;
    let not_ready = cycles_at(keys, "not_ready")?;
    let fail_update = cycles_at(keys, "fail_update")?;
    Ok(Params::Mock {
        outs: 0,
        refuse_config,
        not_ready,
        fail_update,
    })
}

fn transmission(keys: &Keys<'_>) -> Result<Params, DescFault>
    ensures { Answers DescFault.Memory
        ((own_keys kinds.Transmission).form.read keys.now.prefix.now (table_view keys.now.table.now)) result }
{
    let reduction = keys.required("reduction", &One(Quantity))?;
    let offset = keys.defaulted("offset", &One(Quantity), Fx::ZERO)?;
    Ok(Params::Transmission {
        kind: Kind::Position,
        reduction,
        offset,
    })
}

fn differential(keys: &Keys<'_>) -> Result<Params, DescFault>
    ensures { Answers DescFault.Memory
        ((own_keys kinds.Differential).form.read keys.now.prefix.now (table_view keys.now.table.now)) result }
{
    let reduction1 = keys.required("reduction1", &One(Quantity))?;
    let reduction2 = keys.required("reduction2", &One(Quantity))?;
    let offset1 = keys.defaulted("offset1", &One(Quantity), Fx::ZERO)?;
    let offset2 = keys.defaulted("offset2", &One(Quantity), Fx::ZERO)?;
    Ok(Params::Differential {
        kind: Kind::Position,
        reduction1,
        reduction2,
        offset1,
        offset2,
    })
}

fn limiter(keys: &Keys<'_>) -> Result<Params, DescFault>
    ensures { Answers DescFault.Memory
        ((own_keys kinds.Limiter).form.read keys.now.prefix.now (table_view keys.now.table.now)) result }
{
    let min = keys.required("min", &One(Quantity))?;
    let max = keys.required("max", &One(Quantity))?;
    let vmax = keys.required("vmax", &One(Quantity))?;
    let amax = keys.required("amax", &One(Quantity))?;
    Ok(Params::Limiter {
        min,
        max,
        vmax,
        amax,
    })
}

/// Puts the parameters into a table, at the keys that their type alone has.
pub(crate) fn put_params(alloc: Global, made: &mut Table, params: &Params) -> Result<(), Memory>
    requires { AreNumbers params.now }
    ensures { OnOk result (table_view made.new ≡ with_rows (params_rows params.now) (table_view made.old)) }
{
    match params {
        Params::Pid {
            kp,
            ki,
            kd,
            imax,
            omax,
        } => {
            put_quantity(alloc, made, "kp", *kp)?;
            put_quantity(alloc, made, "ki", *ki)?;
            put_quantity(alloc, made, "kd", *kd)?;
            put_quantity(alloc, made, "imax", *imax)?;
            put_quantity(alloc, made, "omax", *omax)
        }
        Params::Mock {
            refuse_config,
            not_ready,
            fail_update,
            ..
        } => put_mock(
            alloc,
            made,
            *refuse_config,
            not_ready.as_slice(),
            fail_update.as_slice(),
        ),
        Params::Transmission {
            reduction,
            offset,
            ..
        } => {
            put_quantity(alloc, made, "reduction", *reduction)?;
            put_quantity(alloc, made, "offset", *offset)
        }
        Params::Differential {
            reduction1,
            reduction2,
            offset1,
            offset2,
            ..
        } => put_differential(alloc, made, *reduction1, *reduction2, *offset1, *offset2),
        Params::Limiter {
            min,
            max,
            vmax,
            amax,
        } => put_limiter(alloc, made, *min, *max, *vmax, *amax),
        _ => Ok(()),
    }
}

fn put_mock(
    alloc: Global,
    made: &mut Table,
    refuse_config: bool,
    not_ready: &[u64],
    fail_update: &[u64],
) -> Result<(), Memory>
    requires ready { AreWholes not_ready.now }
    requires fails { AreWholes fail_update.now }
    ensures { OnOk result (table_view made.new ≡ with_rows
        ((codes "refuse_config", Some (boolean refuse_config))
        ∷ (codes "not_ready", cycles not_ready.now)
        ∷ (codes "fail_update", cycles fail_update.now) ∷ [])
        (table_view made.old)) }
{
    put_flag(alloc, made, "refuse_config", refuse_config)?;
    put_cycles(alloc, made, "not_ready", not_ready)?;
    put_cycles(alloc, made, "fail_update", fail_update)
}

fn put_differential(
    alloc: Global,
    made: &mut Table,
    reduction1: Fx,
    reduction2: Fx,
    offset1: Fx,
    offset2: Fx,
) -> Result<(), Memory>
    ensures { OnOk result (table_view made.new ≡ with_rows
        ((codes "reduction1", quantity reduction1)
        ∷ (codes "reduction2", quantity reduction2)
        ∷ (codes "offset1", quantity offset1)
        ∷ (codes "offset2", quantity offset2) ∷ [])
        (table_view made.old)) }
{
    put_quantity(alloc, made, "reduction1", reduction1)?;
    put_quantity(alloc, made, "reduction2", reduction2)?;
    put_quantity(alloc, made, "offset1", offset1)?;
    put_quantity(alloc, made, "offset2", offset2)
}

fn put_limiter(
    alloc: Global,
    made: &mut Table,
    min: Fx,
    max: Fx,
    vmax: Fx,
    amax: Fx,
) -> Result<(), Memory>
    ensures { OnOk result (table_view made.new ≡ with_rows
        ((codes "min", quantity min)
        ∷ (codes "max", quantity max)
        ∷ (codes "vmax", quantity vmax)
        ∷ (codes "amax", quantity amax) ∷ [])
        (table_view made.old)) }
{
    put_quantity(alloc, made, "min", min)?;
    put_quantity(alloc, made, "max", max)?;
    put_quantity(alloc, made, "vmax", vmax)?;
    put_quantity(alloc, made, "amax", amax)
}
