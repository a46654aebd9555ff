//! The order in which active controllers are updated: by depth, and those of one depth by serial. And the heights of
//! all that are described.

ghost use Rattle.std.specs.Prelude.{◌<◌, IsTrue, All};

use chain_order::{heights, run_list};
use cm_document::Checked;
use cm_model::Member;
use pages_calls::described::{checked_description, place_of};
use pages_calls::robots::{ARM_AND_LEG, RISING, SEVEN, SINKING};
use pages_cases::acts::{Player, hold_acts};
use pages_cases::pages::{halves, push_parted};
use std::alloc::Global;
use std::test::Fail;

#[test]
fn controllers_are_updated_in_their_order(rt: HostRuntime) -> Result<(), Fail> {
    let alloc = rt.alloc();
    hold_acts::<Robot>(alloc, SEVEN, OF_ONE_JOINT)?;
    hold_acts::<Robot>(alloc, ARM_AND_LEG, OF_A_CHAIN)?;
    hold_acts::<Robot>(alloc, RISING, OF_RISING)?;
    hold_acts::<Robot>(alloc, SINKING, OF_SINKING)
}

/// A described robot. Of active controllers, each `SERIAL:NAME`, it tells the serials in the order of their updates;
/// and of `heights` the height of each controller, as they are described.
#[derive(Drop)]
struct Robot {
    checked: Checked,
}

impl Player for Robot {
    fn begin(alloc: Global, robot: &str, _head: &str) -> Result<Robot, Fail> {
        Ok(Robot {
            checked: checked_description(alloc, robot)?,
        })
    }

    fn told(&mut self, alloc: Global, act: &str) -> Result<String, Fail> {
        if act == "heights" {
            return listed(alloc, heights(alloc, &self.checked)?.as_slice());
        }
        let active = members_of(alloc, &self.checked, act)?;
        order_of(alloc, &self.checked, active.as_slice())
    }
}

fn order_of(alloc: Global, checked: &Checked, active: &[Member]) -> Result<String, Fail> {
    if !are_below(active, checked.description().controllers.as_slice().len()) {
        return Err(Fail::new("no such place"));
    }
    listed(alloc, run_list(alloc, checked, active)?.as_slice())
}

/// Whether each of these has its place below the count.
pub(crate) fn are_below(members: &[Member], count: usize) -> bool
    ensures { IsTrue result → All (λ m. m.place < count) members.now }
{
    members.iter().all(|member| (member.place as usize) < count)
}

/// Those with words `SERIAL:NAME`; `nobody` stands for none.
pub(crate) fn members_of(
    alloc: Global,
    checked: &Checked,
    words: &str,
) -> Result<Vec<Member>, Fail> {
    let mut members = Vec::new(alloc);
    for word in words.split_whitespace() {
        if word != "nobody" {
            members.push(member_of(checked, word)?)?;
        }
    }
    Ok(members)
}

fn member_of(checked: &Checked, word: &str) -> Result<Member, Fail> {
    let (serial, name) = halves(word, ":")?;
    Ok(Member {
        serial: serial.parse()?,
        place: place_of(checked, name)?,
    })
}

/// Numbers with spaces between them, or `none`.
pub(crate) fn listed(alloc: Global, numbers: &[u32]) -> Result<String, Fail> {
    let mut told = String::new(alloc);
    for number in numbers {
        push_parted(&mut told, " ", "")?;
        write!(told, "{number}")?;
    }
    if told.is_empty() {
        told.push_str("none")?;
    }
    Ok(told)
}

/// A trajectory and a passthrough claim the reference of the pid, so they precede it.
const OF_ONE_JOINT: &str = "\
heights => 0 0 1 0 0 0 1
nobody => none
0:pid => 0
0:pid 1:traj => 1 0
1:traj 0:pid => 1 0
0:traj 1:pid => 0 1
0:pid 1:pt 2:traj 3:jsb => 1 2 3 0
9:pid 8:jsb 7:fwd 6:traj 5:pt => 5 6 7 8 9
0:fwd 1:pid 2:traj 3:traj2 4:jsb 5:mk 6:pt => 0 2 3 4 5 6 1";

/// The one at the top claims a reference of the one in the middle, and that one of the one at the base. Where the
/// middle is not active, neither of the others precedes the other.
const OF_A_CHAIN: &str = "\
heights => 0 0 0 2 1 0 0
0:base 1:middle 2:top => 2 1 0
0:base 1:top 2:middle => 1 2 0
0:top 1:middle 2:base => 0 1 2
0:base 1:middle => 1 0
0:base 1:top => 0 1
0:middle 1:top => 1 0
0:base 1:fwd 2:middle 3:watch 4:top 5:speed => 1 3 4 5 2 0
7:fwd 3:watch 4294967295:base 5:top => 3 5 7 4294967295";

/// Each of 64 controllers claims a reference of the one before it.
const OF_RISING: &str = r"heights => 0<1..64 *  #>
0:c0<1..64 *  #:c#> => 63 62 61 60 59 58 57 56 55 54 53 52 51 50 49 48 47 46 45 44 43 42 41 40 39 38 37 36 35 34 33 32 \
31 30 29 28 27 26 25 24 23 22 21 20 19 18 17 16 15 14 13 12 11 10 9 8 7 6 5 4 3 2 1 0";

/// Each claims a reference of the one behind it.
const OF_SINKING: &str = r"0:c0<1..64 *  #:c#> => 0<1..64 *  #>
63:c63<0..63 *  #:c#> => 0<1..64 *  #>";
