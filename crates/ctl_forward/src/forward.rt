//! The controller that gives what it was sent.

use crate::set_ctl::{SetCtl, SetKind};
use cm_document::{CtlKind, Params};

/// A forward: it gives the values that it was sent last, cycle for cycle. Before any mail they are unset.
pub type Forward = SetCtl<ForwardKind>;

/// The kind of forwards.
#[derive(Debug, Drop)]
pub struct ForwardKind;

impl SetKind for ForwardKind {
    ghost use Rattle.std.specs.Prelude.{false};
    ghost use Rattle.cm_document.specs.declared.description.CtlKind.TheVariants as kind;
    ghost use Rattle.cm_document.specs.declared.description.Params.TheVariants as params;
    ghost use Rattle.ctl_forward.specs.SetRows.{forward_row};

    ghost own = { kind.Forward };

    ghost with_claims = { params.Forward };

    ghost exporting = { false };

    ghost row = { forward_row };

    fn kind() -> CtlKind {
        CtlKind::Forward
    }

    fn is_exporting() -> bool {
        false
    }

    fn claims(params: &Params) -> u32 {
        let Params::Forward { outs } = params else {
            unreachable!()
        };
        *outs
    }
}
