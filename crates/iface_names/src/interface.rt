//! Names of interfaces.

ghost use Rattle.std.specs.Prelude.{◌≡◌, ◌==◌, ◌∷◌, [], position};
ghost use Rattle.std.specs.Option.{option_map_or};
ghost use Rattle.iface_names.specs.Answers.{Answers};
ghost use Rattle.iface_names.specs.Interfaces.{kind_named, interface_parts, joint_of, reference_of, interface_of};

use crate::kind::Kind;
use crate::name::{Name, NameFault};
use std::alloc::Global;
use std::fmt;
use std::fmt::{Display, Formatter, Write};

/// The name of an interface.
#[derive(Clone, Debug, Hash, Drop)]
pub enum IfaceName {
    /// An interface of a component, as `j1/position`.
    Joint {
        /// The joint.
        joint: Name,
        /// What the interface carries.
        kind: Kind,
    },
    /// A reference that a controller exports, as `pid/j1/position`.
    Reference {
        /// The controller that exports it.
        controller: Name,
        /// The joint.
        joint: Name,
        /// What the interface carries.
        kind: Kind,
    },
}

impl IfaceName {
    /// The interface that this text names. BadName exactly where it is not `joint/kind` or `controller/joint/kind` with
    /// names by the naming rule and one of the three kinds.
    #[tactic(auto, unfolding(crate::specs::Interfaces::interface_of))]
    pub fn read(alloc: Global, text: &[u8]) -> Result<IfaceName, NameFault>
        ensures { Answers NameFault.Memory (interface_of text.now) result }
    {
        let (first, more) = first_part(text);
        let Some(more) = more else {
            return Err(NameFault::BadName);
        };
        let (second, more) = first_part(more);
        let Some(more) = more else {
            return joint(alloc, first, second);
        };
        let (third, more) = first_part(more);
        match more {
            Some(_) => Err(NameFault::BadName),
            None => reference(alloc, first, second, third),
        }
    }
}

/// `joint/kind`.
fn joint(alloc: Global, joint: &[u8], kind: &[u8]) -> Result<IfaceName, NameFault>
    ensures { Answers NameFault.Memory (joint_of joint.now (kind_named kind.now)) result }
{
    let Some(kind) = Kind::read(kind) else {
        return Err(NameFault::BadName);
    };
    Ok(IfaceName::Joint {
        joint: Name::read(alloc, joint)?,
        kind,
    })
}

/// `controller/joint/kind`.
fn reference(
    alloc: Global,
    controller: &[u8],
    joint: &[u8],
    kind: &[u8],
) -> Result<IfaceName, NameFault>
    ensures { Answers NameFault.Memory (reference_of controller.now joint.now (kind_named kind.now)) result }
{
    let Some(kind) = Kind::read(kind) else {
        return Err(NameFault::BadName);
    };
    Ok(IfaceName::Reference {
        controller: Name::read(alloc, controller)?,
        joint: Name::read(alloc, joint)?,
        kind,
    })
}

/// The part of a text before its first `/`, and what stands after that where there is one.
#[tactic(auto, using(crate::proofs::PartsLemmas::cutting_parts))]
fn first_part(text: &[u8]) -> (&[u8], Option<&[u8]>)
    ensures { interface_parts text.now ≡ result.0.now ∷ option_map_or (λ rest. interface_parts rest.now) result.1 [] }
{
    match slash(text) {
        Some(at) => (&text[..at], Some(&text[at + 1..])),
        None => (text, None),
    }
}

/// Where the first `/` stands.
fn slash(text: &[u8]) -> Option<usize>
    ensures { result ≡ position (λ b. b == 47) text.now }
{
    text.iter().position(|byte| *byte == b'/')
}

impl PartialEq for IfaceName {
    ghost use Rattle.std.specs.Cmp.{partial_equiv_from_equiv};
    ghost use Rattle.iface_names.specs.Interfaces.{same_interface};
    ghost use Rattle.iface_names.specs.Sameness.{same_interface-IsEquivalence};

    ghost eq = { same_interface };

    ghost laws = { partial_equiv_from_equiv same_interface-IsEquivalence };

    fn eq(&self, other: &IfaceName) -> bool {
        match (self, other) {
            (
                IfaceName::Joint { joint, kind },
                IfaceName::Joint {
                    joint: other_joint,
                    kind: other_kind,
                },
            ) => joint == other_joint && kind == other_kind,
            (
                IfaceName::Reference {
                    controller,
                    joint,
                    kind,
                },
                IfaceName::Reference {
                    controller: other_controller,
                    joint: other_joint,
                    kind: other_kind,
                },
            ) => controller == other_controller && joint == other_joint && kind == other_kind,
            _ => false,
        }
    }
}

impl Eq for IfaceName {
    ghost use Rattle.iface_names.specs.Sameness.{same_interface-IsEquivalence};

    ghost laws = { same_interface-IsEquivalence };
}

impl Display for IfaceName {
    ghost use Rattle.std.specs.Prelude.{Some};
    ghost use Rattle.iface_names.specs.Interfaces.{interface_text};

    ghost output = { λ interface. Some (interface_text interface) };

    fn fmt<W: Write>(&self, f: &mut Formatter<W>) -> fmt::Result {
        match self {
            IfaceName::Joint { joint, kind } => write!(f, "{joint}/{kind}"),
            IfaceName::Reference {
                controller,
                joint,
                kind,
            } => write!(f, "{controller}/{joint}/{kind}"),
        }
    }
}
