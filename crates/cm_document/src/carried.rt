//! What interfaces carry.

ghost use Rattle.std.specs.Prelude.{◌≡◌};
ghost use Rattle.cm_document.specs.Params.{is_motion, kind_at, first_kind, count};

use iface_names::{IfaceName, Kind};

/// What an interface of this name carries.
pub fn kind_at(interface: &IfaceName) -> Kind
    ensures { result ≡ kind_at interface.now }
{
    match interface {
        IfaceName::Joint { kind, .. } | IfaceName::Reference { kind, .. } => *kind,
    }
}

/// Whether it is a motion: a position or a velocity, and no effort.
pub fn is_motion(kind: Kind) -> bool
    ensures { result ≡ is_motion kind }
{
    match kind {
        Kind::Position | Kind::Velocity => true,
        Kind::Effort => false,
    }
}

/// What the first of these carries, and a position if there is none.
pub(crate) fn first_kind(interfaces: &[IfaceName]) -> Kind
    ensures { result ≡ first_kind interfaces.now }
{
    match interfaces.first() {
        Some(first) => kind_at(first),
        None => Kind::Position,
    }
}

/// How many, or the most that 32 bits hold.
pub(crate) fn count(interfaces: &[IfaceName]) -> u32
    ensures { result ≡ count interfaces.now }
{
    u32::try_from(interfaces.len()).unwrap_or(u32::MAX)
}
