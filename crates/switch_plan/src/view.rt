//! What a switch is decided by.

ghost use Rattle.std.specs.Prelude.{◌≡◌, ◌<◌, length};
ghost use Rattle.cm_model.specs.Scene.{described, controllers_in};
ghost use Rattle.switch_plan.specs.View.{scene_of, IsPlace};

use cm_document::{Checked, CtlDesc, Life};
use cm_model::Seen;

/// What a switch is decided by: the description, the loaded controllers by serial, and the lifecycle state of each
/// component, at its place.
#[derive(Clone, Copy)]
pub struct View<'a> {
    /// The description.
    pub checked: &'a Checked,
    /// The loaded controllers, by serial.
    pub loaded: &'a [Seen],
    /// The lifecycle states of the components, as described.
    pub components: &'a [Life],
}

/// The described controllers.
pub fn controllers<'a>(view: &View<'a>) -> &'a [CtlDesc]
    ensures { result.now ≡ controllers_in (scene_of view.now) }
{
    view.checked.description().controllers.as_slice()
}

/// The described controller at a place.
pub fn described<'a>(view: &View<'a>, place: u32) -> &'a CtlDesc
    requires { IsPlace (scene_of view.now) place }
    ensures { result.now ≡ described (scene_of view.now) place }
{
    &controllers(view)[place as usize]
}
