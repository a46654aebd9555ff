//! The log: what was asked and what became of it, a request or a refused call after the other.

use crate::causes::{answered_title, push_answered};
use crate::marks::draw_mark;
use cm_model::Outcome;
use draw_replay::{Answered, Became, Event};
use draw_svg::{MARGIN, PAGE_WIDTH, PagePoint, Px, Svg, shortened, wrapped};
use fixed_num::Memory;
use std::alloc::Global;

/// How high a line is, and the blank behind what was asked, in pixels.
const LINE_HEIGHT: u64 = 16;

const BETWEEN: u64 = 6;

/// The most lines that are drawn, and the most of one request or call.
const MOST_LINES: usize = 120;

const MOST_OF_ONE: usize = 20;

/// Where the columns begin, in pixels: the mark stands round the first.
const MARK: u64 = MARGIN + 8;

const TICKET: u64 = MARGIN + 28;

const CYCLE: u64 = TICKET + 62;

const WHO: u64 = CYCLE + 62;

const WORDS: u64 = WHO + 116;

/// The most letters of a session's name that are drawn.
const MOST_LETTERS: usize = 14;

/// The most letters of a line of words.
const LINE_LETTERS: usize = 119;

/// Draws the log from this height on, and gives where it ends.
pub fn draw_log(
    alloc: Global,
    svg: &mut Svg,
    top: Px,
    cycles: u64,
    answered: &[Answered<'_>],
) -> Result<Px, Memory> {
    draw_heads(svg, top)?;
    let mut y = top.plus(Px::of(LINE_HEIGHT + BETWEEN));
    let mut left = MOST_LINES;
    for (number, one) in answered.iter().enumerate() {
        let lines = lines_of(alloc, one)?;
        if lines.len() > left {
            return draw_more(alloc, svg, y, answered.get(number..).unwrap_or(&[]));
        }
        left = left.saturating_sub(lines.len());
        y = draw_answered(alloc, svg, y, cycles, one, lines.as_slice())?;
    }
    Ok(y)
}

/// What the columns are.
fn draw_heads(svg: &mut Svg, top: Px) -> Result<(), Memory> {
    let y = top.plus(Px::of(12));
    for (left, head) in [
        (TICKET, "ticket"),
        (CYCLE, "cycle"),
        (WHO, "session"),
        (WORDS, "what was asked, and what became of it"),
    ] {
        svg.words("dim", at(left, y), head, "")?;
    }
    Ok(())
}

fn at(left: u64, y: Px) -> PagePoint {
    PagePoint { x: Px::of(left), y }
}

/// The lines of one. If it has too many, the last one says how many are left out.
fn lines_of(alloc: Global, answered: &Answered<'_>) -> Result<Vec<String>, Memory> {
    let mut words = String::new(alloc);
    push_answered(&mut words, answered)?;
    let mut lines = wrapped(alloc, words.as_str(), LINE_LETTERS)?;
    let more = lines.len().saturating_sub(MOST_OF_ONE);
    if more > 0 {
        lines.truncate(MOST_OF_ONE);
        lines.push(format!(in alloc; "… and {more} lines more")?)?;
    }
    Ok(lines)
}

/// Draws one, and gives where it ends.
fn draw_answered(
    alloc: Global,
    svg: &mut Svg,
    top: Px,
    cycles: u64,
    answered: &Answered<'_>,
    lines: &[String],
) -> Result<Px, Memory> {
    let title = answered_title(alloc, answered)?;
    let event = answered.event();
    draw_mark(
        alloc,
        svg,
        at(MARK, top.plus(Px::of(8))),
        event,
        title.as_str(),
    )?;
    draw_facts(alloc, svg, top.plus(Px::of(12)), cycles, answered)?;
    let class = match event {
        Event::Done => "done-words",
        Event::Partly => "partly-words",
        _ => "bad-words",
    };
    let mut y = top;
    for line in lines {
        svg.words(
            class,
            at(WORDS, y.plus(Px::of(12))),
            line.as_str(),
            title.as_str(),
        )?;
        y = y.plus(Px::of(LINE_HEIGHT));
    }
    Ok(y.plus(Px::of(BETWEEN)))
}

/// Its ticket, its cycle and who asked.
fn draw_facts(
    alloc: Global,
    svg: &mut Svg,
    y: Px,
    cycles: u64,
    answered: &Answered<'_>,
) -> Result<(), Memory> {
    if let Some(ticket) = answered.ticket {
        draw_number(alloc, svg, at(TICKET, y), u64::from(ticket))?;
    }
    if answered.cycle < cycles {
        draw_number(alloc, svg, at(CYCLE, y), answered.cycle)?;
    } else {
        svg.words("row", at(CYCLE, y), "close", "")?;
    }
    match answered.asked {
        Some(asked) => draw_who(alloc, svg, at(WHO, y), asked.who.as_str()),
        None => Ok(()),
    }
}

fn draw_number(alloc: Global, svg: &mut Svg, at: PagePoint, number: u64) -> Result<(), Memory> {
    let text = format!(in alloc; "{number}")?;
    svg.words("row", at, text.as_str(), "")
}

fn draw_who(alloc: Global, svg: &mut Svg, at: PagePoint, name: &str) -> Result<(), Memory> {
    let who = shortened(alloc, name, MOST_LETTERS)?;
    svg.words("row", at, who.as_str(), name)
}

/// Draws how many there are more, and gives where that ends.
fn draw_more(alloc: Global, svg: &mut Svg, top: Px, more: &[Answered<'_>]) -> Result<Px, Memory> {
    let count = more.len();
    let mut done = 0usize;
    for one in more {
        if matches!(one.became, Became::Decided(Outcome::Done { .. })) {
            done = done.saturating_add(1);
        }
    }
    let others = count.saturating_sub(done);
    let text = format!(in alloc;
        "and {count} more, which have no room here: {done} done, {others} not done"
    )?;
    svg.words("dim", at(WORDS, top.plus(Px::of(12))), text.as_str(), "")?;
    Ok(top.plus(Px::of(LINE_HEIGHT + BETWEEN)))
}
