//! What descriptions and scripts are: their types, how each is read and checked, and the first fault of a document.
//! Nothing here reads a byte. Read `specs/` first, in the order of `specs/Lib.antt`.
#![tactic(auto)]

pub use call::{Call, Mail, Pick, Point2, SwitchRequest};
pub use carried::{is_motion, kind_at};
pub use checked::Checked;
pub use cycles::Cycles;
pub use description::{
    CONTROLLER_KINDS, CompDesc, CompKind, CtlDesc, CtlKind, Description, Exports, GroupDesc,
    JointDesc, KeyAsked, NUMBER_OF_KINDS, Params,
};
pub use document::Document;
pub use faults::{CheckFault, DescFault, DescProblem, DocumentFault, ScriptFault, What, Wrong};
pub use life::Life;
pub use limits::{
    FIRST_VERSION, HIGHEST_RATE, LIMITS_1, LIMITS_2, LONGEST_DOCUMENT, LONGEST_LINE, MOST_CALLS,
    MOST_CLAIMS, MOST_CLAIMS_OF_ONE, MOST_COMMANDS, MOST_COMPONENTS, MOST_CONTROLLERS, MOST_CYCLES,
    MOST_DIGITS_OF_WHOLE, MOST_FALLBACKS, MOST_GROUPS, MOST_JOINTS, MOST_MEMBERS, MOST_NAMES,
    MOST_POINTS, MOST_READS, MOST_REFERENCES, MOST_SESSIONS, MOST_STATES, MOST_VALUES,
    SECOND_VERSION, VersionLimits, limits_of,
};
pub use picks::{flat, group_of, has_group};
pub use script::{Grammar, Script, ScriptLine, SessionText, Turn, Verb, whole_grammar};
pub use shape::Shape;
pub use text::Text;
pub use vocabulary::{COMPONENT_KINDS, LIVES, LIVES_ON_ERROR, STRICTNESSES, VERBS, meaning_of};

mod bounded;
mod call;
mod carried;
mod checked;
mod cycles;
mod description;
mod display;
mod document;
mod faults;
pub mod laws;
mod life;
mod limits;
mod linked;
mod picks;
mod script;
mod shape;
mod text;
mod vocabulary;
