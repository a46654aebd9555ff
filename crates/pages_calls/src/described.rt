//! Descriptions of texts, and the places of what is described.

use cm_document::Checked;
use desc_check::check;
use desc_text::read_description;
use std::alloc::Global;
use std::test::Fail;

/// The description that a text has, read and checked.
pub fn checked_description(alloc: Global, text: &str) -> Result<Checked, Fail> {
    let description = read_description(alloc, text.as_bytes())?;
    Ok(check(alloc, description)?)
}

/// The place of a described controller.
pub fn place_of(checked: &Checked, name: &str) -> Result<u32, Fail> {
    let controllers = checked.description().controllers.as_slice();
    let place = controllers
        .iter()
        .position(|controller| controller.name.as_str() == name);
    Ok(u32::try_from(place.ok_or("no such controller")?)?)
}
