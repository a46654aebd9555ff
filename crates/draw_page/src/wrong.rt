//! Where a stored trace goes wrong: the line that came, and the one that was to come.

use draw_svg::{MARGIN, PagePoint, Px, Svg, shortened};
use fixed_num::Memory;
use std::alloc::Global;

/// The most letters of a line of a trace that are drawn.
const MOST_OF_LINE: usize = 150;

/// The first wrong line of a stored trace.
#[derive(Clone, Copy, Debug)]
pub struct WrongTrace<'a> {
    /// Its number, from 1 on.
    pub line: u32,
    /// What stands there, without a line feed; empty if the trace ends before it.
    pub came: &'a [u8],
    /// What was to come, without a line feed; empty if nothing was.
    pub expected: &'a [u8],
}

/// Draws a wrong line in words, if there is one, and gives where they end.
pub fn draw_wrong(
    alloc: Global,
    svg: &mut Svg,
    top: Px,
    wrong: Option<WrongTrace<'_>>,
) -> Result<Px, Memory> {
    let Some(wrong) = wrong else {
        return Ok(top);
    };
    let head = head_of(alloc, wrong)?;
    let top = draw_line(alloc, svg, top, head.as_str())?;
    let came = came_of(alloc, wrong)?;
    let top = draw_line(alloc, svg, top, came.as_str())?;
    let expected = expected_of(alloc, wrong)?;
    draw_line(alloc, svg, top, expected.as_str())
}

fn draw_line(alloc: Global, svg: &mut Svg, top: Px, words: &str) -> Result<Px, Memory> {
    let at = PagePoint {
        x: Px::of(MARGIN),
        y: top,
    };
    let shown = shortened(alloc, words, MOST_OF_LINE)?;
    svg.words("note", at, shown.as_str(), words)?;
    Ok(top.plus(Px::of(22)))
}

/// Appends a wrong line, what came there, and what was to come.
pub fn push_wrong(
    alloc: Global,
    text: &mut String,
    wrong: Option<WrongTrace<'_>>,
) -> Result<(), Memory> {
    let Some(wrong) = wrong else {
        return Ok(());
    };
    let head = head_of(alloc, wrong)?;
    let came = came_of(alloc, wrong)?;
    let expected = expected_of(alloc, wrong)?;
    write!(text, "{head}\n    {came}\n    {expected}\n")?;
    Ok(())
}

fn head_of(alloc: Global, wrong: WrongTrace<'_>) -> Result<String, Memory> {
    let line = wrong.line;
    Ok(format!(in alloc;
        "the trace goes wrong at its line {line}, and is drawn as far as it is legal"
    )?)
}

fn came_of(alloc: Global, wrong: WrongTrace<'_>) -> Result<String, Memory> {
    if wrong.came.is_empty() {
        return Ok(String::from_str(alloc, "came: nothing")?);
    }
    let came = shown(alloc, wrong.came)?;
    Ok(format!(in alloc; "came: {came}")?)
}

fn expected_of(alloc: Global, wrong: WrongTrace<'_>) -> Result<String, Memory> {
    if wrong.expected.is_empty() {
        return Ok(String::from_str(alloc, "to come: no line of this caller")?);
    }
    let expected = shown(alloc, wrong.expected)?;
    Ok(format!(in alloc; "to come: {expected}")?)
}

/// A line as it is shown: a byte that is no printed letter of ASCII is a question mark.
fn shown(alloc: Global, line: &[u8]) -> Result<String, Memory> {
    let mut text = String::new(alloc);
    for byte in line {
        let letter = if *byte >= b' ' && *byte <= b'~' {
            *byte as char
        } else {
            '?'
        };
        text.push(letter)?;
    }
    Ok(text)
}
