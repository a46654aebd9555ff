//! The marks of what happened: a shape of its own for each, so that nobody has to tell colours apart.

use draw_replay::Event;
use draw_svg::{PagePoint, Px, Svg};
use fixed_num::Memory;
use std::alloc::Global;

/// Draws the mark of an event round a point.
pub fn draw_mark(
    alloc: Global,
    svg: &mut Svg,
    at: PagePoint,
    event: Event,
    title: &str,
) -> Result<(), Memory> {
    match event {
        Event::Nothing => Ok(()),
        Event::Done => draw_disc(alloc, svg, at, "done-disc", "tick", "m-5 0l4 4l7 -9", title),
        Event::Partly => draw_disc(
            alloc,
            svg,
            at,
            "partly-disc",
            "tick",
            "m-5 1q2.5 -6 5 -1t5 -1",
            title,
        ),
        Event::Refused => draw_disc(
            alloc,
            svg,
            at,
            "bad-disc",
            "cross",
            "m-4 -4l8 8m0 -8l-8 8",
            title,
        ),
        Event::Ended => draw_disc(alloc, svg, at, "bad-disc", "cross", "m-5 0h10", title),
        Event::Stopped => draw_path(alloc, svg, at, "stop", "m-6 -6h12v12h-12z", title),
        Event::UpdateFailed => draw_failure(alloc, svg, at, "U", title),
        Event::WriteFailed => draw_failure(alloc, svg, at, "W", title),
        Event::ReadFailed => draw_failure(alloc, svg, at, "R", title),
    }
}

/// A sign on a disc, by their classes, and the steps of the sign from the middle on.
fn draw_disc(
    alloc: Global,
    svg: &mut Svg,
    at: PagePoint,
    disc: &str,
    sign: &str,
    steps: &str,
    title: &str,
) -> Result<(), Memory> {
    svg.circle(disc, at, 8, title)?;
    draw_path(alloc, svg, at, sign, steps, title)
}

/// A path of these steps from a point on.
fn draw_path(
    alloc: Global,
    svg: &mut Svg,
    from: PagePoint,
    class: &str,
    steps: &str,
    title: &str,
) -> Result<(), Memory> {
    let (x, y) = (from.x, from.y);
    let path = format!(in alloc; "M{x} {y}{steps}")?;
    svg.path(class, path.as_str(), title)
}

/// A triangle with the letter of what failed.
fn draw_failure(
    alloc: Global,
    svg: &mut Svg,
    at: PagePoint,
    letter: &str,
    title: &str,
) -> Result<(), Memory> {
    draw_path(alloc, svg, at, "failure", "m0 -11l11 19h-22z", title)?;
    svg.words("letter", at.beside(Px::of(0), Px::of(6)), letter, title)
}
