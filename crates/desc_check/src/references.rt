//! The references that controllers export.

ghost use Rattle.std.specs.Prelude.{◌≡◌, ◌++◌, IfOk, OnOk};
ghost use Rattle.cm_document.specs.Links.{refs_of, references_of};

use cm_document::CtlDesc;
use iface_names::IfaceName;
use sequence::Seq;
use std::alloc::{AllocError, Global};

/// Every reference, controller by controller.
pub fn references(alloc: Global, controllers: &[CtlDesc]) -> Result<Seq<IfaceName>, AllocError>
    ensures { IfOk result (λ references. references ≡ references_of controllers.now) }
{
    let mut references = Seq::new(alloc);
    for controller in controllers {
        push_references(&mut references, controller)?;
    }
    Ok(references)
}

/// Then the references of one controller more.
fn push_references(references: &mut Seq<IfaceName>, controller: &CtlDesc) -> Result<(), AllocError>
    ensures { OnOk result (references.new ≡ references.old ++ refs_of controller.now) }
{
    let interfaces = controller.exported_for();
    for interface in interfaces {
        references.push(controller.reference_for(interface)?)?;
    }
    Ok(())
}
