//! The controller that gives its references, or what it was sent.

use crate::set_ctl::{SetCtl, SetKind};
use cm_document::{CtlKind, Params};

/// A passthrough: if it is chained it gives its references, else the values that it was sent last. Before any mail
/// these are unset.
pub type Passthrough = SetCtl<PassthroughKind>;

/// The kind of passthroughs.
#[derive(Debug, Drop)]
pub struct PassthroughKind;

impl SetKind for PassthroughKind {
    ghost use Rattle.std.specs.Prelude.{true};
    ghost use Rattle.cm_document.specs.declared.description.CtlKind.TheVariants as kind;
    ghost use Rattle.cm_document.specs.declared.description.Params.TheVariants as params;
    ghost use Rattle.ctl_forward.specs.SetRows.{passthrough_row};

    ghost own = { kind.Passthrough };

    ghost with_claims = { params.Passthrough };

    ghost exporting = { true };

    ghost row = { passthrough_row };

    fn kind() -> CtlKind {
        CtlKind::Passthrough
    }

    fn is_exporting() -> bool {
        true
    }

    fn claims(params: &Params) -> u32 {
        let Params::Passthrough { outs } = params else {
            unreachable!()
        };
        *outs
    }
}
