//! Who claims and reads what: the controllers in boxes, those that lead at the left of those that follow, and the
//! interfaces of the hardware at the right.

use crate::boxes::{boxes_of, draw_boxes};
use crate::edges::{PlacedLinks, draw_edges};
use crate::levels::{Below, heights, levels};
use crate::ports::Ports;
use draw_replay::Linked;
use draw_svg::{Area, Px, Svg};
use fixed_num::Memory;
use std::alloc::Global;

/// The widest column of boxes, with the blank for their lines, in pixels.
const COLUMN: u64 = 396;

/// Draws the picture from this height on, and gives where it ends.
pub fn draw_links(alloc: Global, svg: &mut Svg, top: Px, linked: Linked<'_>) -> Result<Px, Memory> {
    let heights = heights(alloc, linked.links)?;
    let room = COLUMN.saturating_mul(levels(heights.as_slice()) as u64);
    let ports = Ports::of(alloc, top, room, linked.description)?;
    let boxes = boxes_of(alloc, top, ports.left(), heights.as_slice(), linked)?;
    draw_placed(
        alloc,
        svg,
        linked,
        heights.as_slice(),
        boxes.as_slice(),
        &ports,
    )
}

/// Draws what is placed, and gives where it ends. The lines come first, so that they lie below what they lead to.
fn draw_placed(
    alloc: Global,
    svg: &mut Svg,
    linked: Linked<'_>,
    heights: &[usize],
    boxes: &[Area],
    ports: &Ports,
) -> Result<Px, Memory> {
    let below = Below::of(alloc, heights, linked.links, bottom(boxes))?;
    let placed = PlacedLinks {
        linked,
        below: &below,
        boxes,
        ports,
    };
    draw_edges(alloc, svg, placed)?;
    ports.draw(alloc, svg, linked)?;
    draw_boxes(alloc, svg, boxes, linked.description)?;
    Ok(below.end().most(ports.bottom()).plus(Px::of(12)))
}

/// Where the lowest box ends.
fn bottom(boxes: &[Area]) -> Px {
    let mut bottom = Px::of(0);
    for area in boxes {
        bottom = bottom.most(area.y.plus(area.height));
    }
    bottom
}
