//! Cycles that tell bodies alone: whether the record of each shares a list with others.

use cm_storage::{CycleRecord, Standing};
use fixed_num::{BodyState, Fx};
use pages_cases::acts::{Player, hold_acts};
use pages_cases::pages::halves;
use pages_cases::words::whole;
use std::alloc::Global;
use std::test::Fail;

/// Bodies that stand, move and stand again. A record shares a list only if one was made ready, and if its number has 32
/// bits.
const CYCLES: &str = "\
two joints
ready => ok
0 at 1 2 => of its own
ready => ok
1 at 1 2 => shared, 1 at 1.000000 2.000000
2 at 1 2 => of its own
ready => ok
3 at 1 2 => shared, 3 at 1.000000 2.000000
ready => ok
4 at 1 -2 => of its own
ready => ok
5 at 1 -2 => shared, 5 at 1.000000 -2.000000
ready => ok
4294967295 at 1 -2 => shared, 4294967295 at 1.000000 -2.000000
ready => ok
4294967296 at 1 -2 => of its own
ready => ok
6 at 1 -2 => shared, 6 at 1.000000 -2.000000
ready => ok
7 at 1 => of its own";

#[test]
fn records_share_a_list_while_the_bodies_stand(rt: HostRuntime) -> Result<(), Fail> {
    hold_acts::<Cycles>(rt.alloc(), "", CYCLES)
}

/// What is kept from cycle to cycle. `ready` takes the memory for a record of two joints. `CYCLE at X X` tells bodies
/// at these positions.
#[derive(Drop)]
struct Cycles {
    standing: Standing,
}

impl Player for Cycles {
    fn begin(alloc: Global, _before: &str, _head: &str) -> Result<Cycles, Fail> {
        Ok(Cycles {
            standing: Standing::none(alloc),
        })
    }

    fn told(&mut self, alloc: Global, act: &str) -> Result<String, Fail> {
        if act == "ready" {
            self.standing.prepare(alloc, 2)?;
            return Ok(format!(in alloc; "ok")?);
        }
        let cycle = whole(act, 0)?.unsigned_abs();
        let bodies = bodies_at(alloc, act)?;
        recorded(alloc, self.standing.tell(cycle, bodies.as_slice()))
    }
}

fn recorded(alloc: Global, record: Option<CycleRecord>) -> Result<String, Fail> {
    match record {
        Some(record) => shared(alloc, &record),
        None => Ok(format!(in alloc; "of its own")?),
    }
}

/// Bodies at rest at the positions of an act.
fn bodies_at(alloc: Global, act: &str) -> Result<Vec<BodyState>, Fail> {
    let (_, positions) = halves(act, " at ")?;
    let mut bodies = Vec::new(alloc);
    for position in positions.split(' ') {
        let x = Fx::read(position.as_bytes())?;
        bodies.push(BodyState {
            x,
            v: Fx::ZERO,
            f: Fx::ZERO,
        })?;
    }
    Ok(bodies)
}

/// What a record tells: its number, and where the bodies are.
fn shared(alloc: Global, record: &CycleRecord) -> Result<String, Fail> {
    let cycle = record.cycle();
    let mut told = format!(in alloc; "shared, {cycle} at")?;
    for body in record.bodies() {
        let x = body.x;
        write!(told, " {x}")?;
    }
    Ok(told)
}
