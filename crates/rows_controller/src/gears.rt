//! Simple transmissions. The first line of a paragraph makes one; each further line is a value of the joint or of the
//! actuator, and the value on the other side.

use crate::kinds::parameters::carried;
use ctl_shape::Simple;
use fixed_num::Fx;
use pages_cases::acts::{Player, hold_acts};
use pages_cases::words::{number, word};
use std::alloc::Global;
use std::test::Fail;

/// Each kind there and back.
const KINDS: &str = "\
position reduction 3 offset 0.1
actuator for 0.5 => 1.200000
joint for 1.2 => 0.500000

position reduction 0.333333 offset 0
actuator for 0.5 => 0.166666
joint for 0.166666 => 0.499998

velocity reduction 3 offset 0.1
actuator for 0.5 => 1.500000
joint for 1.5 => 0.500000
actuator for -0.000001 => -0.000003

effort reduction 3 offset 0.1
actuator for 0.5 => 0.166666
joint for 0.166666 => 0.499998
actuator for -0.5 => -0.166667";

/// What a round trip takes, at both ends: nothing, or as many micro-units as one of the actuator is, rounded up.
const ROUND_TRIPS: &str = "\
position reduction 0.7 offset 0
actuator for 0.00001 => 0.000007
joint for 0.000007 => 0.000010
actuator for 0.000004 => 0.000002
joint for 0.000002 => 0.000002

velocity reduction 0.7 offset 0.5
actuator for 0.000004 => 0.000002
joint for 0.000002 => 0.000002

position reduction 0.7 offset 0.5
actuator for 0.500004 => 0.000002
joint for 0.000002 => 0.500002";

/// The ends of the range. A joint's position is a sum inside, which is exact.
const ENDS: &str = "\
position reduction 0.000001 offset -1000000000
joint for 1000000000 => 1000000000.000000
joint for 0.001 => -999999000.000000
actuator for 1000000000 => 1000.000000

effort reduction 1000000000 offset 0
joint for 2 => 1000000000.000000
actuator for 1000000000 => 1.000000
actuator for -0.000001 => -0.000001";

#[test]
fn a_transmission_goes_there_and_back(rt: HostRuntime) -> Result<(), Fail> {
    let alloc = rt.alloc();
    hold_acts::<Gear>(alloc, "", KINDS)?;
    hold_acts::<Gear>(alloc, "", ROUND_TRIPS)?;
    hold_acts::<Gear>(alloc, "", ENDS)
}

/// A simple transmission.
#[derive(Drop)]
struct Gear {
    gear: Simple,
}

impl Player for Gear {
    /// The transmission of `KIND reduction R offset O`.
    fn begin(_alloc: Global, _before: &str, head: &str) -> Result<Gear, Fail> {
        let head = head.trim_end();
        let (reduction, offset) = (number(head, 2)?, number(head, 4)?);
        if reduction.micro() < 1 {
            return Err(Fail::new("a reduction that is not above zero"));
        }
        Ok(Gear {
            gear: Simple::make(carried(head)?, reduction, offset),
        })
    }

    /// The other side's value, of `SIDE for VALUE`.
    fn told(&mut self, alloc: Global, act: &str) -> Result<String, Fail> {
        let told = self.other(act)?;
        Ok(told.text(alloc)?)
    }
}

impl Gear {
    fn other(&self, act: &str) -> Result<Fx, Fail> {
        let value = number(act, 2)?;
        match word(act, 0) {
            "actuator" => Ok(self.gear.to_actuator(value)),
            _ => Ok(self.gear.to_joint(value)),
        }
    }
}
