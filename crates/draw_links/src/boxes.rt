//! The boxes of the controllers, each with its references.

ghost use Rattle.std.specs.Prelude.{◌≡◌, IfOk, string_bytes};
ghost use Rattle.iface_names.specs.Interfaces.{interface_text};
ghost use Rattle.cm_document.specs.Links.{reference_for};

use crate::levels::levels;
use cm_document::{CtlDesc, Description};
use draw_replay::Linked;
use draw_svg::{Area, MARGIN, PagePoint, Px, Svg, shortened};
use fixed_num::Memory;
use iface_names::IfaceName;
use std::alloc::Global;

/// The widest box of a controller, in pixels.
const WIDEST_BOX: u64 = 232;

/// The blank between the boxes of one column, in pixels.
const BETWEEN_BOXES: u64 = 18;

/// How high a box is without references, and how much a reference adds, in pixels.
const BOX_HEIGHT: u64 = 46;

const REFERENCE_HEIGHT: u64 = 18;

/// The areas of the controllers' boxes, by place: in as many columns as a chain is long, left of the hardware.
pub fn boxes_of(
    alloc: Global,
    top: Px,
    right: Px,
    heights: &[usize],
    linked: Linked<'_>,
) -> Result<Vec<Area>, Memory> {
    let controllers = linked.description.controllers.as_slice();
    let levels = levels(heights);
    let column = right.minus(Px::of(MARGIN)).share(1, levels as u64);
    let width = Px::of(WIDEST_BOX).least(column.share(3, 5));
    let mut boxes = Vec::new(alloc);
    for (place, controller) in controllers.iter().enumerate() {
        let height = heights.get(place).copied().unwrap_or(0);
        let from_left = levels.saturating_sub(1).saturating_sub(height);
        let above = heights_above(controllers, heights, place, height);
        boxes.push(Area {
            x: Px::of(MARGIN).plus(column.times(from_left)),
            y: top.plus(above),
            width,
            height: box_height(controller),
        })?;
    }
    Ok(boxes)
}

/// How far down a box stands: below those of its column that are described before it.
fn heights_above(controllers: &[CtlDesc], heights: &[usize], place: usize, height: usize) -> Px {
    let mut above = Px::of(0);
    for (controller, other) in controllers.iter().zip(heights).take(place) {
        if *other == height {
            above = above
                .plus(box_height(controller))
                .plus(Px::of(BETWEEN_BOXES));
        }
    }
    above
}

fn box_height(controller: &CtlDesc) -> Px {
    let references = controller.exported_for().len();
    Px::of(BOX_HEIGHT).plus(Px::of(REFERENCE_HEIGHT).times(references))
}

/// Draws the boxes.
pub fn draw_boxes(
    alloc: Global,
    svg: &mut Svg,
    boxes: &[Area],
    description: &Description,
) -> Result<(), Memory> {
    for (area, controller) in boxes.iter().zip(description.controllers.as_slice()) {
        draw_box(alloc, svg, *area, controller)?;
    }
    Ok(())
}

fn draw_box(alloc: Global, svg: &mut Svg, area: Area, controller: &CtlDesc) -> Result<(), Memory> {
    let title = controller_title(alloc, controller)?;
    svg.rect("box", area, title.as_str())?;
    draw_name(alloc, svg, area, controller, title.as_str())?;
    draw_references(alloc, svg, area, controller)
}

/// The name and the kind of a controller, in its box.
fn draw_name(
    alloc: Global,
    svg: &mut Svg,
    area: Area,
    controller: &CtlDesc,
    title: &str,
) -> Result<(), Memory> {
    let at = PagePoint {
        x: area.x.plus(Px::of(12)),
        y: area.y.plus(Px::of(20)),
    };
    let name = shortened(alloc, controller.name.as_str(), room_in(area))?;
    svg.words("name", at, name.as_str(), title)?;
    let kind = controller.params.kind().word();
    svg.words("dim", at.beside(Px::of(0), Px::of(16)), kind, title)
}

/// How many letters have room in a box.
fn room_in(area: Area) -> usize {
    area.width.minus(Px::of(20)).room()
}

/// The references of a controller, with a mark at the left where those claim them that lead it.
fn draw_references(
    alloc: Global,
    svg: &mut Svg,
    area: Area,
    controller: &CtlDesc,
) -> Result<(), Memory> {
    let name = &controller.name;
    for (number, own) in controller.exported_for().iter().enumerate() {
        let text = reference_text(alloc, controller, own)?;
        let title = format!(in alloc; "{text}: a reference of {name}")?;
        draw_reference(alloc, svg, area, number, text.as_str(), title.as_str())?;
    }
    Ok(())
}

/// The name of the reference that a controller exports for an interface, as `list interfaces` prints it.
fn reference_text(alloc: Global, controller: &CtlDesc, own: &IfaceName) -> Result<String, Memory>
    ensures { IfOk result (λ text. string_bytes text ≡ interface_text (reference_for controller.now.name own.now)) }
{
    let reference = controller.reference_for(own)?;
    Ok(format!(in alloc; "{reference}")?)
}

fn draw_reference(
    alloc: Global,
    svg: &mut Svg,
    area: Area,
    number: usize,
    text: &str,
    title: &str,
) -> Result<(), Memory> {
    let at = reference_at(area, number);
    svg.rect("command", mark(at), title)?;
    let text = shortened(alloc, text, room_in(area))?;
    svg.words(
        "port",
        at.beside(Px::of(12), Px::of(4)),
        text.as_str(),
        title,
    )
}

/// Where the reference of this number stands: at the left of the box.
pub fn reference_at(area: Area, number: usize) -> PagePoint {
    PagePoint {
        x: area.x,
        y: area
            .y
            .plus(Px::of(BOX_HEIGHT + 4))
            .plus(Px::of(REFERENCE_HEIGHT).times(number)),
    }
}

/// The square that marks a command interface or a reference.
pub fn mark(at: PagePoint) -> Area {
    Area {
        x: at.x.minus(Px::of(4)),
        y: at.y.minus(Px::of(4)),
        width: Px::of(8),
        height: Px::of(8),
    }
}

fn controller_title(alloc: Global, controller: &CtlDesc) -> Result<String, Memory> {
    let name = &controller.name;
    let kind = controller.params.kind();
    let claims = controller.claims.as_slice().len();
    let reads = controller.reads().len();
    Ok(format!(in alloc; "controller {name}: a {kind}, claims {claims} and reads {reads}")?)
}
