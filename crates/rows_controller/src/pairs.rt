//! Differentials. The first line of a paragraph makes one; each further line is the values of both joints or of both
//! actuators, and the values on the other side.

use ctl_shape::Differential;
use fixed_num::Fx;
use iface_names::Kind;
use pages_cases::acts::{Player, hold_acts};
use pages_cases::words::{number, word};
use std::alloc::Global;
use std::test::Fail;

/// Both kinds there and back.
const KINDS: &str = "\
position reductions 2 2 offsets 0 0
actuators for 0.3 0.1 => 0.800000 0.400000
joints for 0.8 0.4 => 0.300000 0.100000

position reductions 3 0.5 offsets 0.1 -0.2
actuators for 0.5 0.1 => 2.100000 0.050000
joints for 2.1 0.05 => 0.500000 0.100000

velocity reductions 3 0.5 offsets 0.1 -0.2
actuators for 0.5 0.1 => 1.800000 0.200000
joints for 1.8 0.2 => 0.500000 0.100000";

/// What a round trip takes, at each end: with reductions of 0.7 from 0 to 2 of the first joint, and from -1 to 1 of the
/// second.
const ROUND_TRIPS: &str = "\
position reductions 0.7 0.7 offsets 0 0
actuators for 0 0.000003 => 0.000002 -0.000003
joints for 0.000002 -0.000003 => -0.000002 0.000003
actuators for 0 0.000004 => 0.000002 -0.000003
actuators for 0.000002 0.000008 => 0.000007 -0.000005
joints for 0.000007 -0.000005 => 0.000001 0.000009";

/// The ends of the range, which the sum of two joints passes.
const ENDS: &str = "\
velocity reductions 1 1 offsets 0 0
actuators for 1000000000 1000000000 => 1000000000.000000 0.000000
joints for 1000000000 -1000000000 => 0.000000 1000000000.000000";

#[test]
fn a_differential_goes_there_and_back(rt: HostRuntime) -> Result<(), Fail> {
    let alloc = rt.alloc();
    hold_acts::<Wrist>(alloc, "", KINDS)?;
    hold_acts::<Wrist>(alloc, "", ROUND_TRIPS)?;
    hold_acts::<Wrist>(alloc, "", ENDS)
}

/// A differential.
#[derive(Drop)]
struct Wrist {
    pair: Differential,
}

impl Player for Wrist {
    /// The differential of `KIND reductions R R offsets O O`.
    fn begin(_alloc: Global, _before: &str, head: &str) -> Result<Wrist, Fail> {
        let head = head.trim_end();
        let reductions = (number(head, 2)?, number(head, 3)?);
        let offsets = (number(head, 5)?, number(head, 6)?);
        made(word(head, 0) == "position", reductions, offsets)
    }

    /// The other side's values, of `SIDE for VALUE VALUE`.
    fn told(&mut self, alloc: Global, act: &str) -> Result<String, Fail> {
        let (first, second) = self.other(act)?;
        Ok(format!(in alloc; "{first} {second}")?)
    }
}

impl Wrist {
    fn other(&self, act: &str) -> Result<(Fx, Fx), Fail> {
        let (first, second) = (number(act, 2)?, number(act, 3)?);
        match word(act, 0) {
            "actuators" => Ok(self.pair.to_actuators(first, second)),
            _ => Ok(self.pair.to_joints(first, second)),
        }
    }
}

fn made(position: bool, reductions: (Fx, Fx), offsets: (Fx, Fx)) -> Result<Wrist, Fail> {
    if reductions.0.micro() < 1 || reductions.1.micro() < 1 {
        return Err(Fail::new("a reduction that is not above zero"));
    }
    let pair = if position {
        Differential::make(Kind::Position, reductions, offsets)
    } else {
        Differential::make(Kind::Velocity, reductions, offsets)
    };
    Ok(Wrist { pair })
}
