//! The description of a robot: its components with their joints, and its controllers.

ghost use Rattle.std.specs.Prelude.{◌≡◌, option_map};
ghost use Rattle.cm_document.specs.Params.{kind_of, claims_asked, reads_asked, exports_of};
ghost use Rattle.cm_document.specs.Params.{fewest_claims, most_claims, reads_beside};
ghost use Rattle.cm_document.specs.Params.{claimed_kind, read_kind, may_carry};
ghost use Rattle.cm_document.specs.Params.{limits_at, told_claims, told_reads, made_of};
ghost use Rattle.cm_document.specs.Valid.{first_below};

use crate::bounded::first_below;
use crate::carried::{count, first_kind, is_motion};
use crate::cycles::Cycles;
use crate::life::Life;
use crate::limits::MOST_CLAIMS_OF_ONE;
use fixed_num::Fx;
use iface_names::{IfaceName, Kind, Name};
use sequence::{Seq, Shared};

/// What is described: the manager's rate, how long it runs, the components and the controllers.
#[derive(Clone, Debug, PartialEq, Eq, Drop)]
pub struct Description {
    /// The version of the format, 1 or 2.
    pub version: u32,
    /// The manager's update rate, 1 to 10,000 hertz.
    pub update_rate: u32,
    /// How many cycles the loop runs, at most 100,000.
    pub cycles: u64,
    /// The components, at most 16, in written order.
    pub components: Seq<CompDesc>,
    /// The controllers, at most 64, in written order: the place of each is its number here.
    pub controllers: Seq<CtlDesc>,
    /// The groups, at most 16, in written order; none in version 1.
    pub groups: Seq<GroupDesc>,
}

/// Controllers that a switch can name together.
#[derive(Clone, Debug, PartialEq, Eq, Drop)]
pub struct GroupDesc {
    /// Its name, which no other group has.
    pub name: Name,
    /// The names of its members, 1 to 32, in written order.
    pub members: Seq<Name>,
}

/// What a hardware component is for.
#[derive(Clone, Copy, Debug, PartialEq, Eq)]
pub enum CompKind {
    /// It measures, and takes no command.
    Sensor,
    /// It drives one joint.
    Actuator,
    /// It drives and measures one or more joints.
    System,
}

/// A described hardware component.
#[derive(Clone, Debug, PartialEq, Eq, Drop)]
pub struct CompDesc {
    /// Its name, which no other component has.
    pub name: Name,
    /// What it is for.
    pub kind: CompKind,
    /// Its lifecycle state at start.
    pub initial: Life,
    /// Its lifecycle state after a read or write that failed.
    pub on_error: Life,
    /// The cycles in which its read fails.
    pub fail_read: Cycles,
    /// The cycles in which its write fails.
    pub fail_write: Cycles,
    /// Its joints, in written order.
    pub joints: Seq<JointDesc>,
}

/// A described joint. Quantities are in units: a position, units a second, and so on.
#[derive(Clone, Debug, PartialEq, Eq, Drop)]
pub struct JointDesc {
    /// Its name, which no other joint has.
    pub name: Name,
    /// The largest velocity, not negative.
    pub vmax: Fx,
    /// How much an effort accelerates it, not negative.
    pub gain: Fx,
    /// How much its velocity slows it, not negative.
    pub damping: Fx,
    /// Its position at start.
    pub position: Fx,
    /// Its velocity at start.
    pub velocity: Fx,
    /// The kinds of its command interfaces, in written order.
    pub commands: Seq<Kind>,
    /// The kinds of its state interfaces, in written order.
    pub states: Seq<Kind>,
}

/// What a controller computes.
#[derive(Clone, Copy, Debug, PartialEq, Eq)]
pub enum CtlKind {
    /// Passes set values on.
    Forward,
    /// Passes set values, or its references, on to claims of the same shape.
    Passthrough,
    /// Closes a loop round one joint.
    Pid,
    /// Follows timed points.
    Trajectory,
    /// Publishes states.
    Broadcaster,
    /// Stands in for a controller in tests of the manager.
    Mock,
    /// Tells the actuator of a joint, through a gear, what the joint is to do.
    Transmission,
    /// Tells two actuators, which move two joints together, what the joints are to do.
    Differential,
    /// Leads a position to where it is wanted, within a speed and an acceleration.
    Limiter,
}

/// How many kinds of controllers there are.
pub const NUMBER_OF_KINDS: usize = 9;

/// The words for the kinds, in the order in which each kind has its place.
pub const CONTROLLER_KINDS: [(&str, CtlKind); NUMBER_OF_KINDS] = [
    ("forward", CtlKind::Forward),
    ("passthrough", CtlKind::Passthrough),
    ("pid", CtlKind::Pid),
    ("trajectory", CtlKind::Trajectory),
    ("broadcaster", CtlKind::Broadcaster),
    ("mock", CtlKind::Mock),
    ("transmission", CtlKind::Transmission),
    ("differential", CtlKind::Differential),
    ("limiter", CtlKind::Limiter),
];

/// Which references a controller exports.
#[derive(Clone, Copy, Debug, PartialEq, Eq)]
pub enum Exports {
    /// None.
    Nothing,
    /// One for what it reads first.
    FirstRead,
    /// One for each claim.
    EachClaim,
}

/// What a description has to say at the key of a controller's claims, or of its reads.
#[derive(Clone, Copy, Debug, PartialEq, Eq)]
pub enum KeyAsked {
    /// Controllers of the kind have no such key.
    NoKey,
    /// A list, or nothing.
    Optional,
    /// A list.
    Listed,
    /// A list, or `all`.
    ListedOrAll,
}

impl CtlKind {
    /// What stands at the key of its claims.
    pub fn claims_asked(self) -> KeyAsked
        ensures { result ≡ claims_asked self }
    {
        match self {
            CtlKind::Broadcaster => KeyAsked::NoKey,
            CtlKind::Mock => KeyAsked::Optional,
            _ => KeyAsked::Listed,
        }
    }

    /// What stands at the key of its reads.
    pub fn reads_asked(self) -> KeyAsked
        ensures { result ≡ reads_asked self }
    {
        match self {
            CtlKind::Pid | CtlKind::Trajectory | CtlKind::Limiter => KeyAsked::Listed,
            CtlKind::Broadcaster => KeyAsked::ListedOrAll,
            CtlKind::Mock => KeyAsked::Optional,
            _ => KeyAsked::NoKey,
        }
    }
}

/// A described controller.
#[derive(Clone, Debug, PartialEq, Eq, Drop)]
pub struct CtlDesc {
    /// Its name, which no other controller has.
    pub name: Name,
    /// Its update rate in hertz, at most 10,000; 0 is the manager's.
    pub rate: u32,
    /// The controllers that stand in for it once its update has failed, at most 8, in the order in which they are asked
    /// for.
    pub fallback: Seq<Name>,
    /// The command interfaces that it claims, in written order.
    pub claims: Seq<IfaceName>,
    /// The state interfaces that it reads, in written order. `reads = "all"` stands here as its list, which all such
    /// controllers share.
    pub reads: Shared<Seq<IfaceName>>,
    /// What it computes, with its parameters.
    pub params: Params,
}

/// A controller's parameters, by its kind. A count of claims or reads is their number, or 4,294,967,295 where that is
/// smaller.
#[derive(Clone, Debug, PartialEq, Eq, Drop)]
pub enum Params {
    /// A forward.
    Forward {
        /// How many claims it has.
        outs: u32,
    },
    /// A passthrough.
    Passthrough {
        /// How many claims it has.
        outs: u32,
    },
    /// A pid.
    Pid {
        /// The gain of the error.
        kp: Fx,
        /// The gain of the error's integral.
        ki: Fx,
        /// The gain of the error's rate.
        kd: Fx,
        /// The integral stays within this limit, which is not negative.
        imax: Fx,
        /// The output stays within this limit, which is not negative.
        omax: Fx,
    },
    /// A trajectory.
    Trajectory {
        /// How many claims it has.
        outs: u32,
    },
    /// A broadcaster.
    Broadcaster {
        /// How many states it reads.
        ins: u32,
    },
    /// A mock.
    Mock {
        /// How many claims it has.
        outs: u32,
        /// Whether it refuses to be configured.
        refuse_config: bool,
        /// The cycles before which it is not ready to be activated.
        not_ready: Cycles,
        /// The cycles in which its update gives an error.
        fail_update: Cycles,
    },
    /// A transmission.
    Transmission {
        /// The kind of what it claims.
        kind: Kind,
        /// How often the actuator turns for one turn of the joint, above 0.
        reduction: Fx,
        /// The position of the joint where the actuator's is 0.
        offset: Fx,
    },
    /// A differential.
    Differential {
        /// The kind of what it claims first.
        kind: Kind,
        /// The reduction of the first actuator, above 0.
        reduction1: Fx,
        /// The reduction of the second actuator, above 0.
        reduction2: Fx,
        /// The offset of the first joint.
        offset1: Fx,
        /// The offset of the second joint.
        offset2: Fx,
    },
    /// A limiter.
    Limiter {
        /// The lowest position.
        min: Fx,
        /// The highest position, which is not below the lowest.
        max: Fx,
        /// The highest speed, which is not negative.
        vmax: Fx,
        /// The highest acceleration, which is not negative.
        amax: Fx,
    },
}

impl Params {
    /// The kind of controller that has these parameters.
    pub fn kind(&self) -> CtlKind
        ensures { result ≡ kind_of self.now }
    {
        match self {
            Params::Forward { .. } => CtlKind::Forward,
            Params::Passthrough { .. } => CtlKind::Passthrough,
            Params::Pid { .. } => CtlKind::Pid,
            Params::Trajectory { .. } => CtlKind::Trajectory,
            Params::Broadcaster { .. } => CtlKind::Broadcaster,
            Params::Mock { .. } => CtlKind::Mock,
            Params::Transmission { .. } => CtlKind::Transmission,
            Params::Differential { .. } => CtlKind::Differential,
            Params::Limiter { .. } => CtlKind::Limiter,
        }
    }

    /// Which references a controller with these parameters exports.
    pub fn exports(&self) -> Exports
        ensures { result ≡ exports_of self.now }
    {
        match self {
            Params::Passthrough { .. }
            | Params::Transmission { .. }
            | Params::Differential { .. }
            | Params::Limiter { .. } => Exports::EachClaim,
            Params::Pid { .. } => Exports::FirstRead,
            _ => Exports::Nothing,
        }
    }

    /// How many claims such a controller has at least.
    pub fn fewest_claims(&self) -> usize
        ensures { result ≡ fewest_claims self.now }
    {
        match self {
            Params::Broadcaster { .. } | Params::Mock { .. } => 0,
            Params::Differential { .. } => 2,
            _ => 1,
        }
    }

    /// How many claims it has at most.
    pub fn most_claims(&self) -> usize
        ensures { result ≡ most_claims self.now }
    {
        match self {
            Params::Pid { .. } | Params::Transmission { .. } | Params::Limiter { .. } => 1,
            Params::Differential { .. } => 2,
            Params::Broadcaster { .. } => 0,
            _ => MOST_CLAIMS_OF_ONE,
        }
    }

    /// How many reads it has beside so many claims; None if it may have any number.
    pub fn reads_beside(&self, claims: usize) -> Option<usize>
        ensures { result ≡ reads_beside self.now claims }
    {
        match self {
            Params::Pid { .. } | Params::Limiter { .. } => Some(1),
            Params::Trajectory { .. } => Some(claims),
            Params::Broadcaster { .. } | Params::Mock { .. } => None,
            _ => Some(0),
        }
    }

    /// The kind that each of its claims has; None if they may be of any.
    pub fn claimed_kind(&self) -> Option<Kind>
        ensures { result ≡ claimed_kind self.now }
    {
        match self {
            Params::Transmission { kind, .. } | Params::Differential { kind, .. } => Some(*kind),
            Params::Limiter { .. } => Some(Kind::Position),
            _ => None,
        }
    }

    /// The kind that each of its reads has; None if they may be of any.
    pub fn read_kind(&self) -> Option<Kind>
        ensures { result ≡ read_kind self.now }
    {
        match self {
            Params::Limiter { .. } => Some(Kind::Position),
            _ => None,
        }
    }

    /// The key of the first of its numbers that is below the least that it may be; None if there is none.
    pub fn below_least(&self) -> Option<&'static str>
        ensures { option_map (λ key. key.now) result ≡ first_below (limits_at self.now) }
    {
        match self {
            Params::Pid { imax, omax, .. } => {
                first_below(&[("imax", 0, imax.micro()), ("omax", 0, omax.micro())])
            }
            Params::Transmission { reduction, .. } => {
                first_below(&[("reduction", 1, reduction.micro())])
            }
            Params::Differential {
                reduction1,
                reduction2,
                ..
            } => first_below(&[
                ("reduction1", 1, reduction1.micro()),
                ("reduction2", 1, reduction2.micro()),
            ]),
            Params::Limiter {
                min,
                max,
                vmax,
                amax,
            } => first_below(&[
                ("max", min.micro(), max.micro()),
                ("vmax", 0, vmax.micro()),
                ("amax", 0, amax.micro()),
            ]),
            _ => None,
        }
    }

    /// How many claims they tell of; None if the kind has a number of its own.
    pub(crate) fn told_claims(&self) -> Option<u32>
        ensures { result ≡ told_claims self.now }
    {
        match self {
            Params::Forward { outs }
            | Params::Passthrough { outs }
            | Params::Trajectory { outs }
            | Params::Mock { outs, .. } => Some(*outs),
            _ => None,
        }
    }

    /// How many reads they tell of; None if they tell of none.
    pub(crate) fn told_reads(&self) -> Option<u32>
        ensures { result ≡ told_reads self.now }
    {
        match self {
            Params::Broadcaster { ins } => Some(*ins),
            _ => None,
        }
    }

    /// The same, with what these claims and these reads tell.
    pub fn made_of(self, claims: &[IfaceName], reads: &[IfaceName]) -> Params
        ensures { result ≡ made_of self claims.now reads.now }
    {
        match self {
            Params::Forward { .. } => Params::Forward {
                outs: count(claims),
            },
            Params::Passthrough { .. } => Params::Passthrough {
                outs: count(claims),
            },
            Params::Trajectory { .. } => Params::Trajectory {
                outs: count(claims),
            },
            Params::Broadcaster { .. } => Params::Broadcaster { ins: count(reads) },
            Params::Mock {
                refuse_config,
                not_ready,
                fail_update,
                ..
            } => Params::Mock {
                outs: count(claims),
                refuse_config,
                not_ready,
                fail_update,
            },
            Params::Transmission {
                reduction,
                offset,
                ..
            } => Params::Transmission {
                kind: first_kind(claims),
                reduction,
                offset,
            },
            Params::Differential {
                reduction1,
                reduction2,
                offset1,
                offset2,
                ..
            } => Params::Differential {
                kind: first_kind(claims),
                reduction1,
                reduction2,
                offset1,
                offset2,
            },
            own => own,
        }
    }

    /// Whether it carries what a controller of its kind may carry: a differential carries no effort.
    pub fn may_carry(&self) -> bool
        ensures { result ≡ may_carry self.now }
    {
        match self {
            Params::Differential { kind, .. } => is_motion(*kind),
            _ => true,
        }
    }
}
