//! Vocabularies: tables of words, each with what it stands for. Readers look a word up, printers what it stands for.

ghost use Rattle.std.specs.Prelude.{◌≡◌, ◌<◌, map, find, position, option_copied};
ghost use Rattle.iface_names.specs.Names.{same_name};
ghost use Rattle.cm_document.specs.Params.{same_controller_kind};
ghost use Rattle.cm_document.specs.Vocabulary.{listed, same_component_kind, component_word, controller_word, place_of};
ghost use Rattle.cm_document.specs.Vocabulary.{same_life, life_word, same_verb, verb_word, bool_eq, strictness_word};

use crate::description::{CONTROLLER_KINDS, CompKind, CtlKind, NUMBER_OF_KINDS};
use crate::life::Life;
use crate::script::Verb;

/// What a component is for.
pub const COMPONENT_KINDS: [(&str, CompKind); 3] = [
    ("sensor", CompKind::Sensor),
    ("actuator", CompKind::Actuator),
    ("system", CompKind::System),
];

/// Lifecycle states.
pub const LIVES: [(&str, Life); 4] = [
    ("unconfigured", Life::Unconfigured),
    ("inactive", Life::Inactive),
    ("active", Life::Active),
    ("finalized", Life::Finalized),
];

/// The lifecycle states that a component may have after a failure.
pub const LIVES_ON_ERROR: [(&str, Life); 2] = [
    ("unconfigured", Life::Unconfigured),
    ("finalized", Life::Finalized),
];

/// The words that a line of a script can begin with.
pub const VERBS: [(&str, Verb); 15] = [
    ("session", Verb::Session),
    ("load", Verb::Load),
    ("configure", Verb::Configure),
    ("cleanup", Verb::Cleanup),
    ("unload", Verb::Unload),
    ("rate", Verb::Rate),
    ("send", Verb::Send),
    ("switch", Verb::Switch),
    ("hw", Verb::Hardware),
    ("await", Verb::Await),
    ("list", Verb::List),
    ("schedule", Verb::Schedule),
    ("step", Verb::Step),
    ("begin", Verb::Begin),
    ("end", Verb::End),
];

/// Whether a switch is strict: all of it or nothing, or else what can be done.
pub const STRICTNESSES: [(&str, bool); 2] = [("strict", true), ("best", false)];

/// What a word stands for, where the table has it.
#[tactic(auto, using(crate::proofs::VocabularyLemmas::found_is_listed))]
pub fn meaning_of<T: Copy>(table: &[(&str, T)], word: &[u8]) -> Option<T>
    ensures { result ≡ listed (map (λ row. (row.0.now, row.1)) table.now) word.now }
{
    match row_of(table, word) {
        Some(row) => Some(row.1),
        None => None,
    }
}

/// The row of this word.
fn row_of<'a, 'b, T>(table: &'a [(&'b str, T)], word: &[u8]) -> Option<&'a (&'b str, T)>
    ensures { option_copied result ≡ find (λ row. same_name word.now row.0.now) table.now }
{
    table.iter().find(|row| is_word(row.0, word))
}

fn is_word(text: &str, word: &[u8]) -> bool
    ensures { result ≡ same_name word.now text.now }
{
    word == text.as_bytes()
}

impl CompKind {
    /// The word for the kind, as a description's `kind` says it.
    pub fn word(self) -> &'static str
        ensures { result.now ≡ component_word self }
    {
        match component_row(&COMPONENT_KINDS, self) {
            Some(row) => row.0,
            None => "",
        }
    }
}

fn component_row<'a, 'b>(
    table: &'a [(&'b str, CompKind)],
    kind: CompKind,
) -> Option<&'a (&'b str, CompKind)>
    ensures { option_copied result ≡ find (λ row. same_component_kind row.1 kind) table.now }
{
    table.iter().find(|row| is_component_kind(row.1, kind))
}

fn is_component_kind(kind: CompKind, other: CompKind) -> bool
    ensures { result ≡ same_component_kind kind other }
{
    kind == other
}

impl CtlKind {
    /// The word for the kind, as a description's `type` says it.
    pub fn word(self) -> &'static str
        ensures { result.now ≡ controller_word self }
    {
        match kind_row(&CONTROLLER_KINDS, self) {
            Some(row) => row.0,
            None => "",
        }
    }

    /// Whether it is the other kind.
    pub fn is_same(self, other: CtlKind) -> bool
        ensures { result ≡ same_controller_kind self other }
    {
        self == other
    }

    /// Its place among all kinds, from 0 on.
    #[tactic(auto, using(crate::proofs::VocabularyLemmas::place_is_within))]
    pub fn place(self) -> usize
        ensures place { result ≡ place_of self }
        ensures within { result < NUMBER_OF_KINDS }
    {
        place_in(&CONTROLLER_KINDS, self).unwrap_or(0)
    }
}

fn place_in(table: &[(&str, CtlKind)], kind: CtlKind) -> Option<usize>
    ensures { result ≡ position (λ row. same_controller_kind row.1 kind) table.now }
{
    table.iter().position(|row| row.1.is_same(kind))
}

fn kind_row<'a, 'b>(
    table: &'a [(&'b str, CtlKind)],
    kind: CtlKind,
) -> Option<&'a (&'b str, CtlKind)>
    ensures { option_copied result ≡ find (λ row. same_controller_kind row.1 kind) table.now }
{
    table.iter().find(|row| row.1.is_same(kind))
}

impl Life {
    /// The word for the state.
    pub fn word(self) -> &'static str
        ensures { result.now ≡ life_word self }
    {
        match life_row(&LIVES, self) {
            Some(row) => row.0,
            None => "",
        }
    }
}

impl Verb {
    /// The word that the line begins with.
    pub fn word(self) -> &'static str
        ensures { result.now ≡ verb_word self }
    {
        match verb_row(&VERBS, self) {
            Some(row) => row.0,
            None => "",
        }
    }
}

fn verb_row<'a, 'b>(table: &'a [(&'b str, Verb)], verb: Verb) -> Option<&'a (&'b str, Verb)>
    ensures { option_copied result ≡ find (λ row. same_verb row.1 verb) table.now }
{
    table.iter().find(|row| is_verb(row.1, verb))
}

fn is_verb(verb: Verb, other: Verb) -> bool
    ensures { result ≡ same_verb verb other }
{
    verb == other
}

/// The word for whether a switch is strict.
pub fn strictness_word(strict: bool) -> &'static str
    ensures { result.now ≡ strictness_word strict }
{
    match strictness_row(&STRICTNESSES, strict) {
        Some(row) => row.0,
        None => "",
    }
}

fn strictness_row<'a, 'b>(table: &'a [(&'b str, bool)], strict: bool) -> Option<&'a (&'b str, bool)>
    ensures { option_copied result ≡ find (λ row. bool_eq row.1 strict) table.now }
{
    table.iter().find(|row| is_as_strict(row.1, strict))
}

fn is_as_strict(strict: bool, other: bool) -> bool
    ensures { result ≡ bool_eq strict other }
{
    strict == other
}

fn life_row<'a, 'b>(table: &'a [(&'b str, Life)], life: Life) -> Option<&'a (&'b str, Life)>
    ensures { option_copied result ≡ find (λ row. same_life row.1 life) table.now }
{
    table.iter().find(|row| is_life(row.1, life))
}

fn is_life(life: Life, other: Life) -> bool
    ensures { result ≡ same_life life other }
{
    life == other
}
