//! Where each joint was over the cycles, and where it was commanded to be; and what each limiter gave.

use draw_cycles::{Strip, draw_axis};
use draw_replay::{JointCourse, Sample};
use draw_svg::{Area, MARGIN, PagePoint, Px, Svg, short, shortened};
use fixed_num::Memory;
use std::alloc::Global;

/// How high a curve is that moves, and one that does not, in pixels.
const MOVING_HEIGHT: u64 = 84;

const STILL_HEIGHT: u64 = 14;

/// The blank between the curves, in pixels.
const BETWEEN_CURVES: u64 = 18;

/// Columns that are narrower, in pixels, have no dot.
const ROOM_FOR_A_DOT: u64 = 8;

/// The range of numbers that a curve has, in micro-units.
#[derive(Clone, Copy)]
struct Scale {
    least: i64,
    most: i64,
    top: Px,
    height: Px,
}

impl Scale {
    /// Wide enough for all positions and commands of a course.
    fn of(course: &JointCourse, top: Px) -> Scale {
        let mut least = course.start;
        let mut most = course.start;
        for sample in course.samples().iter().flatten() {
            let command = sample.command.unwrap_or(sample.last);
            least = least.min(sample.least).min(command);
            most = most.max(sample.most).max(command);
        }
        let height = if least == most {
            STILL_HEIGHT
        } else {
            MOVING_HEIGHT
        };
        Scale {
            least,
            most,
            top,
            height: Px::of(height),
        }
    }

    /// Where the next curve begins.
    fn end(self) -> Px {
        self.top.plus(self.height).plus(Px::of(BETWEEN_CURVES))
    }

    /// How far down a number stands.
    fn height_of(self, micro: i64) -> Px {
        let whole = self.most.abs_diff(self.least);
        if whole == 0 {
            return self.top.plus(self.height.half());
        }
        self.top
            .plus(self.height.share(self.most.abs_diff(micro), whole))
    }
}

/// A course with its name.
#[derive(Clone, Copy)]
pub struct NamedCourse<'a> {
    /// Whose it is.
    pub name: &'a str,
    /// What it is of, behind the name; empty if that goes without saying.
    pub part: &'static str,
    /// The course.
    pub course: &'a JointCourse,
}

/// What curves are drawn from.
#[derive(Clone, Copy)]
pub struct Curves<'a> {
    /// The columns.
    pub strip: &'a Strip,
    /// The courses.
    pub courses: &'a [NamedCourse<'a>],
    /// The letters of the longest number at the end of a range.
    pub values: usize,
}

/// The letters of the longest number at the end of a range.
pub fn longest_value(alloc: Global, courses: &[NamedCourse<'_>]) -> Result<usize, Memory> {
    let mut longest = 1usize;
    for named in courses {
        let scale = Scale::of(named.course, Px::of(0));
        let least = short(alloc, scale.least)?;
        let most = short(alloc, scale.most)?;
        longest = longest.max(least.len()).max(most.len());
    }
    Ok(longest)
}

/// Draws the curves from this height on, and gives where they end.
pub fn draw_curves(
    alloc: Global,
    svg: &mut Svg,
    top: Px,
    curves: Curves<'_>,
) -> Result<Px, Memory> {
    let Curves {
        strip,
        courses,
        values,
    } = curves;
    let bottom = bottom_of(top, courses);
    draw_axis(alloc, svg, strip, top, bottom)?;
    let room = strip
        .left()
        .minus(Px::of(MARGIN))
        .minus(Px::letters(values.saturating_add(2)))
        .room();
    let mut y = top;
    for named in courses {
        let scale = Scale::of(named.course, y);
        let name = format!(in alloc; "{}{}", named.name, named.part)?;
        draw_name(alloc, svg, name.as_str(), room, scale)?;
        draw_course(alloc, svg, strip, name.as_str(), named.course, scale)?;
        y = scale.end();
    }
    Ok(bottom.plus(Px::of(24)))
}

/// Where the curves end.
fn bottom_of(top: Px, courses: &[NamedCourse<'_>]) -> Px {
    let mut bottom = top;
    for named in courses {
        bottom = Scale::of(named.course, bottom).end();
    }
    bottom
}

fn draw_course(
    alloc: Global,
    svg: &mut Svg,
    strip: &Strip,
    name: &str,
    course: &JointCourse,
    scale: Scale,
) -> Result<(), Memory> {
    draw_ends(alloc, svg, strip, scale)?;
    let command = command_steps(alloc, strip, course, scale)?;
    if !command.is_empty() {
        svg.path("command-line", command.as_str(), "")?;
    }
    let position = position_steps(alloc, strip, course, scale)?;
    svg.path("position-line", position.as_str(), "")?;
    draw_samples(alloc, svg, strip, name, course, scale)
}

/// The name, in this room.
fn draw_name(
    alloc: Global,
    svg: &mut Svg,
    name: &str,
    room: usize,
    scale: Scale,
) -> Result<(), Memory> {
    let at = PagePoint {
        x: Px::of(MARGIN),
        y: scale.top.plus(scale.height.half()).plus(Px::of(4)),
    };
    let text = shortened(alloc, name, room)?;
    svg.words("row", at, text.as_str(), name)
}

/// The numbers at both ends of a range, and a line at each.
fn draw_ends(alloc: Global, svg: &mut Svg, strip: &Strip, scale: Scale) -> Result<(), Memory> {
    draw_end(alloc, svg, strip, scale, scale.most)?;
    if scale.least != scale.most {
        draw_end(alloc, svg, strip, scale, scale.least)?;
    }
    Ok(())
}

/// The number at an end of a range.
fn draw_end(
    alloc: Global,
    svg: &mut Svg,
    strip: &Strip,
    scale: Scale,
    micro: i64,
) -> Result<(), Memory> {
    let y = scale.height_of(micro);
    let left = strip.left();
    let right = strip.right();
    svg.line("rule", PagePoint { x: left, y }, PagePoint { x: right, y })?;
    let at = PagePoint {
        x: left.minus(Px::of(6)),
        y: y.plus(Px::of(4)),
    };
    let number = short(alloc, micro)?;
    svg.words("value", at, number.as_str(), "")
}

/// The steps of the position: from where it was before the first cycle to where it was after each.
fn position_steps(
    alloc: Global,
    strip: &Strip,
    course: &JointCourse,
    scale: Scale,
) -> Result<String, Memory> {
    let mut steps = String::new(alloc);
    write!(steps, "M{} {}", strip.left(), scale.height_of(course.start))?;
    for (column, sample) in course.samples().iter().enumerate() {
        if let Some(sample) = sample {
            push_position(&mut steps, strip, column, sample, scale)?;
        }
    }
    Ok(steps)
}

/// The step of one column; of more than one cycle by the least and the greatest that it was there.
fn push_position(
    steps: &mut String,
    strip: &Strip,
    column: usize,
    sample: &Sample,
    scale: Scale,
) -> Result<(), Memory> {
    if strip.columns.are_many() && sample.least != sample.most {
        let x = strip.middle_of(column);
        let least = scale.height_of(sample.least);
        let most = scale.height_of(sample.most);
        write!(steps, "L{x} {least}L{x} {most}")?;
    }
    let x = strip.left_of(column.saturating_add(1));
    let y = scale.height_of(sample.last);
    write!(steps, "L{x} {y}")?;
    Ok(())
}

/// The steps of the command: level through each column, and up or down between them.
fn command_steps(
    alloc: Global,
    strip: &Strip,
    course: &JointCourse,
    scale: Scale,
) -> Result<String, Memory> {
    let mut steps = String::new(alloc);
    let mut is_on = false;
    for (column, sample) in course.samples().iter().enumerate() {
        let command = sample.and_then(|it| it.command);
        if let Some(micro) = command {
            push_command(&mut steps, strip, column, scale.height_of(micro), is_on)?;
        }
        is_on = command.is_some();
    }
    Ok(steps)
}

fn push_command(
    steps: &mut String,
    strip: &Strip,
    column: usize,
    y: Px,
    is_on: bool,
) -> Result<(), Memory> {
    let left = strip.left_of(column);
    let right = strip.left_of(column.saturating_add(1));
    if is_on {
        write!(steps, "V{y}H{right}")?;
    } else {
        write!(steps, "M{left} {y}H{right}")?;
    }
    Ok(())
}

/// A title for each column, and a dot where there is room.
fn draw_samples(
    alloc: Global,
    svg: &mut Svg,
    strip: &Strip,
    name: &str,
    course: &JointCourse,
    scale: Scale,
) -> Result<(), Memory> {
    let has_dots = strip.each_width().reaches(Px::of(ROOM_FOR_A_DOT));
    for (column, sample) in course.samples().iter().enumerate() {
        let Some(sample) = sample else {
            continue;
        };
        if has_dots {
            let at = PagePoint {
                x: strip.left_of(column.saturating_add(1)),
                y: scale.height_of(sample.last),
            };
            svg.circle("dot", at, 3, "")?;
        }
        draw_title(alloc, svg, strip, name, column, sample, scale)?;
    }
    Ok(())
}

fn draw_title(
    alloc: Global,
    svg: &mut Svg,
    strip: &Strip,
    name: &str,
    column: usize,
    sample: &Sample,
    scale: Scale,
) -> Result<(), Memory> {
    let x = strip.left_of(column);
    let area = Area {
        x,
        y: scale.top,
        width: strip.left_of(column.saturating_add(1)).minus(x),
        height: scale.height,
    };
    let title = sample_title(alloc, strip, name, column, sample)?;
    svg.rect("hit", area, title.as_str())
}

/// Where a joint was after a cycle, or between which numbers after those of a column.
fn sample_title(
    alloc: Global,
    strip: &Strip,
    name: &str,
    column: usize,
    sample: &Sample,
) -> Result<String, Memory> {
    let (first, last) = strip.columns.cycles_of(column);
    let position = short(alloc, sample.last)?;
    let mut title = if first == last {
        format!(in alloc; "{name}: {position} after cycle {last}")?
    } else {
        let least = short(alloc, sample.least)?;
        let most = short(alloc, sample.most)?;
        format!(in alloc; "{name}: {least} to {most} in cycles {first} to {last}")?
    };
    if let Some(micro) = sample.command {
        let command = short(alloc, micro)?;
        write!(title, ", commanded to {command}")?;
    }
    Ok(title)
}
