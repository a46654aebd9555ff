//! Names of controllers, joints and sessions.

ghost use Rattle.std.specs.Prelude.{◌≡◌, IfOk, IsTrue, string_bytes};
ghost use Rattle.std.specs.List.{list_all};
ghost use Rattle.iface_names.specs.Answers.{Answers};
ghost use Rattle.iface_names.specs.Names.{is_name, is_letter, is_name_byte, name_of};

use crate::LONGEST_NAME;
use std::alloc::{AllocError, Global};
use std::fmt;
use std::fmt::{Display, Formatter, Write};
use std::hash::{Hash, Hasher};
use std::marker::Model;
use std::sync::Arc;
use thiserror::Error;

/// 1 to 64 bytes (`LONGEST_NAME`) of A to Z, a to z, 0 to 9 and `_`, of which the first is a letter. Contracts see the
/// bytes. A name is kept once for all that hold it, also on several threads: a clone copies a pointer and takes no
/// memory.
#[derive(Debug, Drop)]
pub struct Name {
    text: Arc<String>,
}

/// Why a text is no name.
#[derive(Clone, Copy, Debug, PartialEq, Eq, Error)]
pub enum NameFault {
    /// The naming rule is broken.
    #[error("not a name")]
    BadName,
    /// Memory ran out.
    #[error("out of memory")]
    Memory,
}

impl From<AllocError> for NameFault {
    ghost use Rattle.std.specs.Prelude.{◌≡◌};
    ghost use Rattle.iface_names.specs.declared.name.NameFault.TheVariants.{Memory};

    ghost from_gives = { λ _ e. e ≡ Memory };

    fn from(_fault: AllocError) -> NameFault {
        NameFault::Memory
    }
}

impl Model for Name {
    ghost use Rattle.std.specs.Prelude.{List, ℕ, string_bytes, IsTrue};
    ghost use Rattle.iface_names.specs.Names.{is_name};

    ghost Value = { List ℕ };

    ghost view = { λ s. string_bytes s.text.value };

    ghost invariant = { λ s. IsTrue (is_name (string_bytes s.text.value)) };
}

impl Name {
    /// The name of these bytes: BadName exactly where the naming rule is broken.
    pub fn read(alloc: Global, text: &[u8]) -> Result<Name, NameFault>
        ensures { Answers NameFault.Memory (name_of text.now) result }
    {
        if !follows_the_rule(text) {
            return Err(NameFault::BadName);
        }
        match std::str::from_utf8(text) {
            Ok(text) => Ok(Name {
                text: shared(alloc, text)?,
            }),
            Err(_) => Err(NameFault::BadName),
        }
    }

    /// The bytes of the name, which follow the naming rule.
    pub fn bytes(&self) -> &[u8]
        ensures bytes { result.now ≡ self.now }
        ensures named { IsTrue (is_name self.now) }
    {
        self.text.as_ref().as_bytes()
    }

    /// The name as it prints.
    pub fn as_str(&self) -> &str
        ensures { result.now ≡ self.now }
    {
        self.text.as_ref().as_str()
    }
}

/// The text, kept once for all that will hold it.
fn shared(alloc: Global, text: &str) -> Result<Arc<String>, AllocError>
    ensures { IfOk result (λ kept. string_bytes kept.value ≡ text.now) }
{
    Ok(Arc::new(alloc, String::from_str(alloc, text)?)?)
}

fn follows_the_rule(text: &[u8]) -> bool
    ensures { result ≡ is_name text.now }
{
    let Some(first) = text.first() else {
        return false;
    };
    is_letter(*first) && text.len() <= LONGEST_NAME && all_name_bytes(text)
}

fn is_letter(byte: u8) -> bool
    ensures { result ≡ is_letter byte }
{
    byte.is_ascii_alphabetic()
}

fn all_name_bytes(text: &[u8]) -> bool
    ensures { result ≡ list_all is_name_byte text.now }
{
    text.iter()
        .all(|byte| byte.is_ascii_alphanumeric() || *byte == b'_')
}

impl Clone for Name {
    ghost use Rattle.std.specs.Prelude.{◌≡◌};

    ghost is_clone = { λ x y. y ≡ x };

    fn clone(&self) -> Result<Name, AllocError> {
        Ok(Name {
            text: self.text.clone()?,
        })
    }
}

impl PartialEq for Name {
    ghost use Rattle.std.specs.Cmp.Rules.{comparing};
    ghost use Rattle.std.specs.Cmp.Lexicographic.{pointwise};
    ghost use Rattle.std.specs.Prelude.{nat_eq};
    ghost use Rattle.std.proofs.Common.{rules};

    ghost eq = { pointwise nat_eq };

    ghost laws = { Prim.search (comparing, rules) };

    fn eq(&self, other: &Name) -> bool {
        self.text.as_ref() == other.text.as_ref()
    }
}

impl Eq for Name {
    ghost use Rattle.std.specs.Cmp.Rules.{comparing};
    ghost use Rattle.std.proofs.Common.{rules};

    ghost laws = { Prim.search (comparing, rules) };
}

impl Hash for Name {
    ghost use Rattle.std.specs.Hash as fed;
    ghost use Rattle.std.specs.Cmp.Rules.{hashing};
    ghost use Rattle.std.proofs.Common.{rules};

    ghost hash_input = { λ name. fed.str name };

    ghost respects_eq = { Prim.search (hashing, rules) };

    fn hash<H: Hasher>(&self, state: &mut H) {
        self.text.as_ref().hash(state);
    }
}

impl Display for Name {
    ghost use Rattle.std.specs.Prelude.{Some};

    ghost output = { λ name. Some name };

    fn fmt<W: Write>(&self, f: &mut Formatter<W>) -> fmt::Result {
        f.write_str(self.as_str())
    }
}
