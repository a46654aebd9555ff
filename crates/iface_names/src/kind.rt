//! What an interface carries.

ghost use Rattle.std.specs.Prelude.{◌≡◌, [], find};
ghost use Rattle.std.specs.Option.{option_map, option_map_or};
ghost use Rattle.iface_names.specs.Names.{same_name};
ghost use Rattle.iface_names.specs.Interfaces.{kind_named, kind_word, same_kind};

use std::fmt;
use std::fmt::{Display, Formatter, Write};

/// What an interface carries: a joint's position, its velocity or its effort.
#[derive(Clone, Copy, Debug, PartialEq, Eq, Hash)]
pub enum Kind {
    /// The place of a joint.
    Position,
    /// How fast a joint moves.
    Velocity,
    /// The force or torque at a joint.
    Effort,
}

/// The kinds with their words.
pub const KINDS: [(&str, Kind); 3] = [
    ("position", Kind::Position),
    ("velocity", Kind::Velocity),
    ("effort", Kind::Effort),
];

impl Kind {
    /// The kind whose word this is.
    pub fn read(word: &[u8]) -> Option<Kind>
        ensures { result ≡ kind_named word.now }
    {
        meaning_in(&KINDS, word)
    }

    /// The word of this kind.
    pub fn word(self) -> &'static str
        ensures { result.now ≡ kind_word self }
    {
        word_in(&KINDS, self).unwrap_or("")
    }
}

/// What a word means by a table.
fn meaning_in(table: &[(&str, Kind)], word: &[u8]) -> Option<Kind>
    ensures { result ≡ option_map (λ row. row.1) (find (λ row. same_name row.0.now word.now) table.now) }
{
    let row = table.iter().find(|row| row.0.as_bytes() == word)?;
    Some(row.1)
}

/// Which word means this by a table.
fn word_in<'a>(table: &[(&'a str, Kind)], kind: Kind) -> Option<&'a str>
    ensures { option_map (λ word. word.now) result
        ≡ option_map (λ row. row.0.now) (find (λ row. same_kind row.1 kind) table.now) }
{
    let row = table.iter().find(|row| row.1 == kind)?;
    Some(row.0)
}

impl Display for Kind {
    ghost use Rattle.std.specs.Prelude.{Some};
    ghost use Rattle.iface_names.specs.Interfaces.{kind_word};

    ghost output = { λ kind. Some (kind_word kind) };

    fn fmt<W: Write>(&self, f: &mut Formatter<W>) -> fmt::Result {
        f.write_str(self.word())
    }
}
