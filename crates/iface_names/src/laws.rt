//! Laws of the definitions: each is the contract of a function that changes nothing.

ghost use Rattle.std.specs.Prelude.{◌≡◌, ◌++◌, ◌∷◌, [], Ok, Some, ℕ};
ghost use Rattle.iface_names.specs.Interfaces.{interface_of, interface_text};
ghost use Rattle.iface_names.specs.Registry.{Numbered, added, interface_place};
ghost use Rattle.iface_names.specs.declared.interface.IfaceName.{IfaceName};

use crate::interface::IfaceName;

/// The text of an interface names that interface. That its names are names is learnt from their bytes.
#[tactic(auto, using(crate::proofs::TextLemmas::reading_back))]
pub fn interface_reads_back(interface: &IfaceName)
    ensures { interface_of (interface_text interface.now) ≡ Ok interface.now }
{
    match interface {
        IfaceName::Joint { joint, .. } => {
            joint.bytes();
        }
        IfaceName::Reference {
            controller,
            joint,
            ..
        } => {
            controller.bytes();
            joint.bytes();
        }
    }
}

/// What a text names has that text.
#[tactic(auto, using(crate::proofs::TextLemmas::interface_prints_back))]
pub fn what_is_read_prints_back(text: &[u8])
    ensures { (interface : IfaceName) → interface_of text.now ≡ Ok interface → interface_text interface ≡ text.now }
{}

/// A name that is held keeps its place whatever is added, and one that is added has the place that it was given.
#[tactic(auto, using(crate::proofs::RegistryLemmas::keeping_places))]
pub fn a_place_stays()
    ensures given { (held : Numbered) (name : IfaceName) (place : ℕ)
        → (added held name).0 ≡ Ok place
        → interface_place name (added held name).1.names ≡ Some place }
    ensures kept { (held : Numbered) (name other : IfaceName) (place : ℕ)
        → interface_place name held.names ≡ Some place
        → interface_place name (added held other).1.names ≡ Some place }
{}
