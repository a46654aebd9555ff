//! The words that stand for something: verbs, lifecycle states, strictnesses, lists.

ghost use Rattle.std.specs.Prelude.{◌≡◌};
ghost use Rattle.cm_document.specs.Vocabulary.{listed, lives, strictnesses, verbs};
ghost use Rattle.cm_document.specs.LineGrammar.{lists};

use cm_document::{Call, Grammar, LIVES, Life, STRICTNESSES, VERBS, Verb, meaning_of};

/// What this word says as the first of a line.
pub fn verb(word: &[u8]) -> Option<Verb>
    ensures { result ≡ listed verbs word.now }
{
    meaning_of(&VERBS, word)
}

/// The lifecycle state of this word.
pub fn life(word: &[u8]) -> Option<Life>
    ensures { result ≡ listed lives word.now }
{
    meaning_of(&LIVES, word)
}

/// Whether a switch of this word is strict.
pub fn strictness(word: &[u8]) -> Option<bool>
    ensures { result ≡ listed strictnesses word.now }
{
    meaning_of(&STRICTNESSES, word)
}

/// The list of this word, and whether its form is accepted.
pub fn list(grammar: Grammar, word: &[u8]) -> Option<(bool, Call)>
    ensures { result ≡ listed (lists grammar) word.now }
{
    if word == b"controllers".as_slice() {
        Some((grammar.list_controllers, Call::ListControllers))
    } else if word == b"interfaces".as_slice() {
        Some((grammar.list_interfaces, Call::ListInterfaces))
    } else if word == b"components".as_slice() {
        Some((grammar.list_components, Call::ListComponents))
    } else {
        None
    }
}
