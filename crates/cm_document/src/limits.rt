//! How much a document may have: each limit with its name.

ghost use Rattle.std.specs.Prelude.{◌≡◌};
ghost use Rattle.cm_document.specs.Limits.{limits_of};

/// The bytes of a document.
pub const LONGEST_DOCUMENT: usize = 1_048_576;

/// The first version of the format of descriptions.
pub const FIRST_VERSION: u32 = 1;

/// The second one, which has groups, and more of most things.
pub const SECOND_VERSION: u32 = 2;

/// An update rate, in hertz, of the manager or of a controller.
pub const HIGHEST_RATE: u32 = 10_000;

/// The cycles of a run.
pub const MOST_CYCLES: u64 = 100_000;

/// The components of a description.
pub const MOST_COMPONENTS: usize = 16;

/// The joints of all components together, in any version.
pub const MOST_JOINTS: usize = 64;

/// The state interfaces of all joints together, in any version.
pub const MOST_STATES: usize = 192;

/// The command interfaces of all joints together, in any version.
pub const MOST_COMMANDS: usize = 192;

/// The controllers of a description.
pub const MOST_CONTROLLERS: usize = 64;

/// The references that all controllers together export, in any version.
pub const MOST_REFERENCES: usize = 192;

/// The claims of one controller.
pub const MOST_CLAIMS_OF_ONE: usize = 32;

/// The claims of all controllers together, in any version.
pub const MOST_CLAIMS: usize = 384;

/// The reads of all controllers together, in any version.
pub const MOST_READS: usize = 512;

/// The fallbacks of one controller.
pub const MOST_FALLBACKS: usize = 8;

/// The groups of a description.
pub const MOST_GROUPS: usize = 16;

/// The members of one group.
pub const MOST_MEMBERS: usize = 32;

/// How much a description may have, by its version.
#[derive(Clone, Copy, Debug, PartialEq, Eq)]
pub struct VersionLimits {
    /// Components.
    pub components: usize,
    /// Joints of all components together.
    pub joints: usize,
    /// State interfaces of all joints together.
    pub states: usize,
    /// Command interfaces of all joints together.
    pub commands: usize,
    /// Controllers.
    pub controllers: usize,
    /// References of all controllers together.
    pub references: usize,
    /// Claims of all controllers together.
    pub claims: usize,
    /// Reads of all controllers together.
    pub reads: usize,
    /// Groups.
    pub groups: usize,
}

/// Those of the first version, and of every version that there is not.
pub const LIMITS_1: VersionLimits = VersionLimits {
    components: MOST_COMPONENTS,
    joints: 32,
    states: 96,
    commands: 96,
    controllers: MOST_CONTROLLERS,
    references: 96,
    claims: 192,
    reads: 256,
    groups: 0,
};

/// Those of the second version: the most that any may have.
pub const LIMITS_2: VersionLimits = VersionLimits {
    components: MOST_COMPONENTS,
    joints: MOST_JOINTS,
    states: MOST_STATES,
    commands: MOST_COMMANDS,
    controllers: MOST_CONTROLLERS,
    references: MOST_REFERENCES,
    claims: MOST_CLAIMS,
    reads: MOST_READS,
    groups: MOST_GROUPS,
};

/// The bytes of a script's line, without its line feed and the carriage return that is dropped.
pub const LONGEST_LINE: usize = 65_536;

/// The digits of a whole number in a script.
pub const MOST_DIGITS_OF_WHOLE: usize = 9;

/// The sessions of a script.
pub const MOST_SESSIONS: usize = 8;

/// The calls and turns of a script together.
pub const MOST_CALLS: u32 = 10_000;

/// The words of a switch, those to activate and those to deactivate together.
pub const MOST_NAMES: usize = 128;

/// The points of one `send`.
pub const MOST_POINTS: usize = 64;

/// The values of a plain list, and of one point.
pub const MOST_VALUES: usize = 32;

/// How much a description of this version may have.
pub fn limits_of(version: u32) -> VersionLimits
    ensures { result ≡ limits_of version }
{
    if version == SECOND_VERSION {
        LIMITS_2
    } else {
        LIMITS_1
    }
}
