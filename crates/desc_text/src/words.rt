//! The words that stand for something, and what they stand for.

ghost use Rattle.std.specs.Prelude.{◌≡◌, List, ℕ};
ghost use Rattle.sequence.specs.Answers.{Answers};
ghost use Rattle.toml.specs.View.{view};
ghost use Rattle.cm_document.specs.Vocabulary.{component_kinds, lives, lives_on_error, controller_kinds};
ghost use Rattle.cm_document.specs.Forms.{word_in, meaning_of};

use crate::faults::Refused;
use crate::forms::Rule;
use crate::values::where_some;
use cm_document::{
    COMPONENT_KINDS, CONTROLLER_KINDS, CompKind, CtlKind, LIVES, LIVES_ON_ERROR, Life, Wrong,
    meaning_of,
};
use std::alloc::Global;
use toml::Value;

/// A list of words, each with its meaning.
pub trait WordList {
    /// What a word stands for.
    type Meaning: Drop;

    ghost words: { List (List ℕ × Self.Meaning) };

    /// What this word stands for, where it is listed.
    fn meaning(word: &str) -> Result<Self::Meaning, Wrong>
        ensures { result ≡ meaning_of words word.now };
}

/// One of the words of a list.
#[derive(Drop)]
pub struct WordOf<W>(pub W);

impl<W: WordList> Rule for WordOf<W> {
    type Read = W::Meaning;

    ghost rule = { λ _. word_in W.words };

    fn read(_alloc: Global, _before: &[W::Meaning], value: &Value) -> Result<W::Meaning, Refused> {
        match value {
            Value::String(word) => Ok(W::meaning(word.as_str())?),
            _ => Err(Refused::Wrong(Wrong::Value)),
        }
    }
}

/// What a component is for.
#[derive(Drop)]
pub struct ComponentKinds;

impl WordList for ComponentKinds {
    type Meaning = CompKind;

    ghost words = { component_kinds };

    fn meaning(word: &str) -> Result<CompKind, Wrong> {
        where_some(meaning_of(&COMPONENT_KINDS, word.as_bytes()))
    }
}

/// The state of a component at start.
#[derive(Drop)]
pub struct LivesAtStart;

impl WordList for LivesAtStart {
    type Meaning = Life;

    ghost words = { lives };

    fn meaning(word: &str) -> Result<Life, Wrong> {
        where_some(meaning_of(&LIVES, word.as_bytes()))
    }
}

/// The state of a component after a failure.
#[derive(Drop)]
pub struct LivesOnError;

impl WordList for LivesOnError {
    type Meaning = Life;

    ghost words = { lives_on_error };

    fn meaning(word: &str) -> Result<Life, Wrong> {
        where_some(meaning_of(&LIVES_ON_ERROR, word.as_bytes()))
    }
}

/// The type of a controller.
#[derive(Drop)]
pub struct ControllerKinds;

impl WordList for ControllerKinds {
    type Meaning = CtlKind;

    ghost words = { controller_kinds };

    fn meaning(word: &str) -> Result<CtlKind, Wrong> {
        where_some(meaning_of(&CONTROLLER_KINDS, word.as_bytes()))
    }
}
