//! Why a document is refused: the first fault, with its place.

use crate::text::Text;
use iface_names::{IfaceName, Name};
use std::alloc::AllocError;
use thiserror::Error;

/// What is wrong with a value, before its place is known.
#[derive(Clone, Copy, Debug, PartialEq, Eq)]
pub enum Wrong {
    /// A float, where a whole or a quantity is wanted.
    Float,
    /// Another type than the wanted one, or a value that is not of the wanted form.
    Value,
}

/// The first fault of a description's text.
#[derive(Debug, PartialEq, Eq, Drop, Error)]
pub enum DescFault {
    /// The bytes are not UTF-8, or TOML's grammar refuses them.
    #[error("not_toml")]
    NotToml,
    /// A key that the table does not list, or a required key that is missing, at this path.
    #[error("bad_key {0}")]
    BadKey(Text),
    /// A value of the wrong type or form, at this path.
    #[error("bad_value {0}")]
    BadValue(Text),
    /// A float, where a whole or a quantity is wanted, at this path.
    #[error("float_given {0}")]
    FloatGiven(Text),
    /// Memory ran out.
    #[error("out of memory")]
    Memory,
}

impl From<AllocError> for DescFault {
    ghost use Rattle.std.specs.Prelude.{◌≡◌};
    ghost use Rattle.cm_document.specs.declared.faults.DescFault.TheVariants.{Memory};

    ghost from_gives = { λ _ e. e ≡ Memory };

    fn from(_fault: AllocError) -> DescFault {
        DescFault::Memory
    }
}

/// What there is too much of.
#[derive(Clone, Copy, Debug, PartialEq, Eq, Error)]
pub enum What {
    /// More than 16 components.
    #[error("components")]
    Components,
    /// More joints than the version's limit.
    #[error("joints")]
    Joints,
    /// More state interfaces than the version's limit.
    #[error("states")]
    States,
    /// More command interfaces of components than the version's limit.
    #[error("commands")]
    Commands,
    /// More than 64 controllers.
    #[error("controllers")]
    Controllers,
    /// More references than the version's limit.
    #[error("references")]
    References,
    /// More claims in all controllers together than the version's limit.
    #[error("claims")]
    Claims,
    /// More reads in all controllers together than the version's limit.
    #[error("reads")]
    Reads,
    /// More than 16 groups.
    #[error("groups")]
    Groups,
}

/// The first fault of a description that was read.
#[derive(Debug, PartialEq, Eq, Drop, Error)]
pub enum CheckFault {
    /// More of these than the limit.
    #[error("too_many {0}")]
    TooMany(What),
    /// The first name that stands earlier too.
    #[error("name_twice {0}")]
    NameTwice(Text),
    /// A number, or a number of items, outside its range, at this path.
    #[error("bad_range {0}")]
    BadRange(Text),
    /// A claim that is no command interface and no reference, or a read that is no state interface.
    #[error("no_interface {controller} {interface}")]
    NoInterface {
        /// The controller that claims or reads it.
        controller: Name,
        /// What it claims or reads.
        interface: IfaceName,
    },
    /// A fallback that is no described controller, or that is the controller itself.
    #[error("no_fallback {controller} {name}")]
    NoFallback {
        /// The controller that it is to stand in for.
        controller: Name,
        /// The name that is given for it.
        name: Name,
    },
    /// A member of a group that is no described controller.
    #[error("no_member {group} {name}")]
    NoMember {
        /// The group.
        group: Name,
        /// The name that is given as its member.
        name: Name,
    },
    /// The first controller that precedes itself at some distance.
    #[error("chain_loop {0}")]
    ChainLoop(Name),
    /// Memory ran out.
    #[error("out of memory")]
    Memory,
}

impl From<AllocError> for CheckFault {
    ghost use Rattle.std.specs.Prelude.{◌≡◌};
    ghost use Rattle.cm_document.specs.declared.faults.CheckFault.TheVariants.{Memory};

    ghost from_gives = { λ _ e. e ≡ Memory };

    fn from(_fault: AllocError) -> CheckFault {
        CheckFault::Memory
    }
}

/// Why a description is refused.
#[derive(Debug, PartialEq, Eq, Drop, Error)]
pub enum DescProblem {
    /// Its text has this fault first.
    #[error(transparent)]
    Text(DescFault),
    /// It was read, and the checks have this fault first.
    #[error(transparent)]
    Check(CheckFault),
}

/// The first bad line of a script; lines are counted from 1 over the whole document.
#[derive(Clone, Copy, Debug, PartialEq, Eq, Error)]
pub enum ScriptFault {
    /// A line without an accepted form, or longer than 65,536 bytes; or the missing separator, one past the last line.
    #[error("bad_line {0}")]
    BadLine(u32),
    /// A call before any session, or a step of a session that is not there.
    #[error("no_session {0}")]
    NoSession(u32),
    /// The ninth session, the 10,001st call or turn, or a call with too many names, points or values.
    #[error("too_many {0}")]
    TooMany(u32),
    /// Memory ran out.
    #[error("out of memory")]
    Memory,
}

impl From<AllocError> for ScriptFault {
    ghost use Rattle.std.specs.Prelude.{◌≡◌};
    ghost use Rattle.cm_document.specs.declared.faults.ScriptFault.TheVariants.{Memory};

    ghost from_gives = { λ _ e. e ≡ Memory };

    fn from(_fault: AllocError) -> ScriptFault {
        ScriptFault::Memory
    }
}

/// Why a document is refused.
#[derive(Debug, PartialEq, Eq, Drop, Error)]
pub enum DocumentFault {
    /// The description is refused.
    #[error("description: {0}")]
    Description(DescProblem),
    /// The description is accepted, and the script is refused.
    #[error("script: {0}")]
    Script(ScriptFault),
    /// Memory ran out.
    #[error("out of memory")]
    Memory,
}

impl From<AllocError> for DocumentFault {
    ghost use Rattle.std.specs.Prelude.{◌≡◌};
    ghost use Rattle.cm_document.specs.declared.faults.DocumentFault.TheVariants.{Memory};

    ghost from_gives = { λ _ e. e ≡ Memory };

    fn from(_fault: AllocError) -> DocumentFault {
        DocumentFault::Memory
    }
}
