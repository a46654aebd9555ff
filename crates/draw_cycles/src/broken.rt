//! Where a stored trace goes wrong in its run.

use crate::strip::Strip;
use draw_svg::{Area, MARGIN, PAGE_WIDTH, PagePoint, Px, Svg};
use fixed_num::Memory;
use std::alloc::Global;

/// How wide the bar is, in pixels.
const BAR_WIDTH: u64 = 4;

/// Draws a bar between two heights where a trace goes wrong at this line, with so many cycles ended before it, and
/// above it the line's number.
pub fn draw_break(
    alloc: Global,
    svg: &mut Svg,
    strip: &Strip,
    top: Px,
    bottom: Px,
    ended: u64,
    line: u32,
) -> Result<(), Memory> {
    let title = break_title(alloc, strip, ended, line)?;
    let x = place_after(strip, ended);
    let area = Area {
        x: x.minus(Px::of(BAR_WIDTH / 2)),
        y: top,
        width: Px::of(BAR_WIDTH),
        height: bottom.minus(top),
    };
    svg.rect("failure", area, title.as_str())?;
    let words = format!(in alloc; "line {line}")?;
    let width = Px::letters(words.as_str().len());
    let at = PagePoint {
        x: x.minus(width.half())
            .least(Px::of(PAGE_WIDTH - MARGIN).minus(width)),
        y: top.minus(Px::of(3)),
    };
    svg.words("bad-words", at, words.as_str(), title.as_str())
}

/// Where the run stands after so many cycles: in the middle of the next one, or at the right end.
fn place_after(strip: &Strip, ended: u64) -> Px {
    if ended < strip.columns.cycles() {
        strip.middle_of(strip.columns.of_cycle(ended))
    } else {
        strip.right()
    }
}

/// At which line of the trace it is, and when in the run.
fn break_title(alloc: Global, strip: &Strip, ended: u64, line: u32) -> Result<String, Memory> {
    let mut title = format!(in alloc; "the trace goes wrong at its line {line}, ")?;
    if ended < strip.columns.cycles() {
        write!(title, "in cycle {ended}")?;
    } else {
        title.push_str("after the last cycle")?;
    }
    Ok(title)
}
