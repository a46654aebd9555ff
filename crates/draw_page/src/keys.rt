//! What the lines and marks stand for.

use draw_cycles::draw_mark;
use draw_links::mark;
use draw_replay::Event;
use draw_svg::{MARGIN, PagePoint, Px, Svg};
use fixed_num::Memory;
use std::alloc::Global;

/// The key of who claims and reads what. Gives where it ends.
pub fn draw_link_keys(svg: &mut Svg, top: Px) -> Result<Px, Memory> {
    let at = PagePoint {
        x: Px::of(MARGIN),
        y: top.plus(Px::of(10)),
    };
    draw_line_key(svg, at, "leads", "leads: claims a reference")?;
    draw_line_key(svg, beside(at, 236), "claims", "claims a command interface")?;
    draw_line_key(svg, beside(at, 468), "reads", "reads a state")?;
    let square = beside(at, 616);
    svg.rect("command", mark(square), "")?;
    svg.words(
        "key",
        square.beside(Px::of(10), Px::of(4)),
        "command or reference",
        "",
    )?;
    let circle = beside(at, 792);
    svg.circle("state", circle, 4, "")?;
    svg.words("key", circle.beside(Px::of(10), Px::of(4)), "state", "")?;
    Ok(top.plus(Px::of(34)))
}

fn draw_line_key(svg: &mut Svg, at: PagePoint, class: &str, words: &str) -> Result<(), Memory> {
    svg.line(class, at, beside(at, 34))?;
    svg.words("key", at.beside(Px::of(42), Px::of(4)), words, "")
}

/// The key of what happens in a run. Gives where it ends.
pub fn draw_run_keys(alloc: Global, svg: &mut Svg, top: Px) -> Result<Px, Memory> {
    let at = PagePoint {
        x: Px::of(MARGIN + 10),
        y: top.plus(Px::of(10)),
    };
    for (right, event, words) in [
        (0, Event::Done, "done"),
        (72, Event::Partly, "done in part"),
        (192, Event::Refused, "refused"),
        (282, Event::Ended, "not decided"),
        (396, Event::ReadFailed, "read failed"),
        (508, Event::WriteFailed, "write failed"),
        (622, Event::UpdateFailed, "update failed"),
        (746, Event::Stopped, "stopped"),
    ] {
        draw_event_key(alloc, svg, beside(at, right), event, words)?;
    }
    let words = "switch: + on, - off; strict: all or nothing";
    svg.words("key", at.beside(Px::of(840), Px::of(4)), words, "")?;
    Ok(top.plus(Px::of(34)))
}

/// So many pixels to the right.
fn beside(at: PagePoint, right: u64) -> PagePoint {
    at.beside(Px::of(right), Px::of(0))
}

fn draw_event_key(
    alloc: Global,
    svg: &mut Svg,
    at: PagePoint,
    event: Event,
    words: &str,
) -> Result<(), Memory> {
    draw_mark(alloc, svg, at, event, "")?;
    svg.words("key", at.beside(Px::of(16), Px::of(4)), words, "")
}

/// The key of the joints' curves. Gives where it ends.
pub fn draw_curve_keys(svg: &mut Svg, top: Px) -> Result<Px, Memory> {
    let at = PagePoint {
        x: Px::of(MARGIN),
        y: top.plus(Px::of(10)),
    };
    draw_line_key(svg, at, "position-line", "position")?;
    let words = "where it is commanded to be";
    draw_line_key(svg, beside(at, 120), "command-line", words)?;
    Ok(top.plus(Px::of(34)))
}
