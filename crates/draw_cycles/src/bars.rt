//! What a controller or a component was, as bars over the cycles, with words where no mark lies.

use crate::placed::Placed;
use crate::strip::Strip;
use draw_replay::{ColumnState, Row};
use draw_svg::{Area, PagePoint, Px, Svg, push_cycles};
use fixed_num::Memory;
use std::alloc::Global;

/// The blank between the end of a bar and its word, in pixels.
const BESIDE: u64 = 8;

/// A row as its bars are drawn.
#[derive(Clone, Copy)]
pub struct Barred<'a> {
    /// Its columns.
    pub strip: &'a Strip,
    /// Where it begins.
    pub top: Px,
    /// Its name.
    pub name: &'a str,
    /// What it was.
    pub row: &'a Row,
    /// Its marks, from the left.
    pub marks: &'a [Placed],
}

/// Neighbouring columns in which a row shows the same.
#[derive(Clone, Copy)]
struct Stretch {
    from: usize,
    to: usize,
    shown: ColumnState,
}

/// From where to where something stands.
#[derive(Clone, Copy)]
struct Gap {
    from: Px,
    to: Px,
}

impl Gap {
    fn width(self) -> Px {
        self.to.minus(self.from)
    }

    /// The wider of both, the first where they are as wide.
    fn wider(self, other: Gap) -> Gap {
        if self.width().reaches(other.width()) {
            self
        } else {
            other
        }
    }
}

/// Draws the bars of a row.
pub fn draw_bars(alloc: Global, svg: &mut Svg, barred: Barred<'_>) -> Result<(), Memory> {
    let mut stretch = Stretch {
        from: 0,
        to: 0,
        shown: ColumnState::Nothing,
    };
    for (column, cell) in barred.row.cells().iter().enumerate() {
        if cell.shown != stretch.shown {
            draw_stretch(alloc, svg, barred, stretch)?;
            stretch.from = column;
            stretch.shown = cell.shown;
        }
        stretch.to = column.saturating_add(1);
    }
    draw_stretch(alloc, svg, barred, stretch)
}

fn draw_stretch(
    alloc: Global,
    svg: &mut Svg,
    barred: Barred<'_>,
    stretch: Stretch,
) -> Result<(), Memory> {
    let word = stretch.shown.word();
    if word.is_empty() {
        return Ok(());
    }
    let title = stretch_title(alloc, barred, stretch)?;
    let x = barred.strip.left_of(stretch.from);
    let end = barred.strip.left_of(stretch.to);
    let (above, height) = band(stretch.shown);
    let area = Area {
        x,
        y: barred.top.plus(Px::of(above)),
        width: end.minus(x),
        height: Px::of(height),
    };
    svg.rect(word, area, title.as_str())?;
    if stretch.shown == ColumnState::Chained {
        draw_link(svg, area)?;
    }
    let gap = widest_gap(barred.marks, Gap { from: x, to: end });
    draw_word(svg, barred.top, stretch.shown, gap, title.as_str())
}

/// The word of a bar, in the middle of what no mark covers, where it has room there.
fn draw_word(
    svg: &mut Svg,
    top: Px,
    shown: ColumnState,
    gap: Gap,
    title: &str,
) -> Result<(), Memory> {
    let word = shown.word();
    if Px::letters(word.len()).reaches(gap.width()) {
        return Ok(());
    }
    let at = PagePoint {
        x: gap.from.plus(gap.width().half()),
        y: top.plus(Px::of(18)),
    };
    svg.words(on_band(shown), at, word, title)
}

/// The widest part of a bar that no mark covers.
fn widest_gap(marks: &[Placed], bar: Gap) -> Gap {
    let last = bar.to.minus(Px::of(BESIDE));
    let mut from = bar.from.plus(Px::of(BESIDE));
    let mut widest = Gap { from, to: from };
    for mark in marks {
        if mark.right().reaches(from) && last.reaches(mark.left()) {
            let to = mark.left();
            widest = widest.wider(Gap { from, to });
            from = mark.right();
        }
    }
    widest.wider(Gap { from, to: last })
}

/// The name of a row, what it was, and in which cycles.
fn stretch_title(alloc: Global, barred: Barred<'_>, stretch: Stretch) -> Result<String, Memory> {
    let name = barred.name;
    let word = stretch.shown.word();
    let columns = barred.strip.columns;
    let (first, _) = columns.cycles_of(stretch.from);
    let (_, last) = columns.cycles_of(stretch.to.saturating_sub(1));
    let mut title = format!(in alloc; "{name}: {word} in ")?;
    push_cycles(&mut title, first, last)?;
    Ok(title)
}

/// The links along the bar of who is chained.
fn draw_link(svg: &mut Svg, area: Area) -> Result<(), Memory> {
    let y = area.y.plus(Px::of(19));
    let end = area.x.plus(area.width);
    svg.line("link", PagePoint { x: area.x, y }, PagePoint { x: end, y })
}

/// How far below a row's top its bar begins, and how high it is: who is active or finalized stands out.
fn band(shown: ColumnState) -> (u64, u64) {
    match shown {
        ColumnState::Active | ColumnState::Chained | ColumnState::Finalized => (3, 22),
        _ => (7, 14),
    }
}

/// The class of a word on its bar.
fn on_band(shown: ColumnState) -> &'static str {
    match shown {
        ColumnState::Active | ColumnState::Chained | ColumnState::Finalized => "on-dark",
        _ => "on-light",
    }
}
