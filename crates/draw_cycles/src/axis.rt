//! The axis of the cycles: numbers below, and a thin line up from each.

use crate::strip::Strip;
use draw_svg::{MARGIN, PagePoint, Px, Svg};
use fixed_num::Memory;
use std::alloc::Global;

/// Draws the lines of the numbered cycles between two heights, and the numbers below.
pub fn draw_axis(
    alloc: Global,
    svg: &mut Svg,
    strip: &Strip,
    top: Px,
    bottom: Px,
) -> Result<(), Memory> {
    let step = strip.between_numbers();
    for number in 0..strip.numbers() {
        let cycle = number.saturating_mul(step);
        draw_number(alloc, svg, strip, top, bottom, cycle)?;
    }
    let x = strip.right();
    svg.line("grid", PagePoint { x, y: top }, PagePoint { x, y: bottom })?;
    let at = PagePoint {
        x: Px::of(MARGIN),
        y: bottom.plus(Px::of(15)),
    };
    svg.words("dim", at, "cycle", "")
}

fn draw_number(
    alloc: Global,
    svg: &mut Svg,
    strip: &Strip,
    top: Px,
    bottom: Px,
    cycle: u64,
) -> Result<(), Memory> {
    let column = strip.columns.of_cycle(cycle);
    let x = strip.left_of(column);
    svg.line("grid", PagePoint { x, y: top }, PagePoint { x, y: bottom })?;
    let text = format!(in alloc; "{cycle}")?;
    let at = PagePoint {
        x: strip.middle_of(column),
        y: bottom.plus(Px::of(15)),
    };
    svg.words("number", at, text.as_str(), "")
}
