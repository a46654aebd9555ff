//! The page: a heading, who claims and reads what, the run, and the joints.

use crate::courses::{joint_courses, limiter_courses};
use crate::curves::{Curves, NamedCourse, draw_curves, longest_value};
use crate::keys::{draw_curve_keys, draw_link_keys, draw_run_keys};
use crate::style::STYLE;
use crate::warnings::{draw_warnings, push_warnings};
use crate::wrong::{WrongTrace, draw_wrong, push_wrong};
use cm_document::{CompDesc, CtlDesc, CtlKind, Description, JointDesc, Script};
use cm_model::Entry;
use draw_cycles::{Run, Strip, draw_log, draw_run, push_whys};
use draw_links::draw_links;
use draw_replay::{Columns, Linked, Replay, RunCounts, joints_of, links_of};
use draw_svg::{MARGIN, PAGE_WIDTH, PagePoint, Px, Svg, shortened};
use fixed_num::Memory;
use std::alloc::Global;

/// The fewest letters for which there is room beside the columns, and the most.
const LEAST_LETTERS: usize = 14;

const MOST_LETTERS: usize = 40;

/// The most letters of the document's name that are drawn.
const MOST_OF_TITLE: usize = 40;

/// The page of a run: the name of its document, empty where it has none, its description, its script, and the history
/// of its book.
pub fn page_of(
    alloc: Global,
    name: &str,
    description: &Description,
    script: &Script,
    history: &[Entry],
) -> Result<String, Memory> {
    trace_page_of(alloc, name, description, script, history, None)
}

/// The page of a stored trace, whose lines tell this history up to the first that is wrong.
pub fn trace_page_of(
    alloc: Global,
    name: &str,
    description: &Description,
    script: &Script,
    history: &[Entry],
    wrong: Option<WrongTrace<'_>>,
) -> Result<String, Memory> {
    let joints = joints_of(alloc, description)?;
    let links = links_of(alloc, description, joints.as_slice())?;
    let linked = Linked {
        description,
        joints: joints.as_slice(),
        links: links.as_slice(),
    };
    page_of_linked(alloc, name, linked, script, history, wrong)
}

/// Where a stored trace goes wrong, and what went wrong in the run before it, as lines of plain text.
pub fn trace_whys_of(
    alloc: Global,
    description: &Description,
    script: &Script,
    history: &[Entry],
    wrong: Option<WrongTrace<'_>>,
) -> Result<String, Memory> {
    let mut text = String::new(alloc);
    push_wrong(alloc, &mut text, wrong)?;
    text.push_str(whys_of(alloc, description, script, history)?.as_str())?;
    Ok(text)
}

/// What was not done as asked in a run, or went wrong, as lines of plain text: why, and what would mend it.
pub fn whys_of(
    alloc: Global,
    description: &Description,
    script: &Script,
    history: &[Entry],
) -> Result<String, Memory> {
    let joints = joints_of(alloc, description)?;
    let links = links_of(alloc, description, joints.as_slice())?;
    let linked = Linked {
        description,
        joints: joints.as_slice(),
        links: links.as_slice(),
    };
    whys_of_linked(alloc, linked, script, history)
}

/// What went wrong in a run whose links are known.
fn whys_of_linked<'a>(
    alloc: Global,
    linked: Linked<'a>,
    script: &'a Script,
    history: &'a [Entry],
) -> Result<String, Memory> {
    let columns = Columns::of(linked.description.cycles);
    let replay = Replay::of(alloc, columns, linked, script, history)?;
    let mut text = String::new(alloc);
    push_warnings(alloc, &mut text, linked.description)?;
    push_whys(&mut text, &replay)?;
    Ok(text)
}

/// The page of a run whose links are known.
fn page_of_linked<'a>(
    alloc: Global,
    name: &str,
    linked: Linked<'a>,
    script: &'a Script,
    history: &'a [Entry],
    wrong: Option<WrongTrace<'_>>,
) -> Result<String, Memory> {
    let columns = Columns::of(linked.description.cycles);
    let replay = Replay::of(alloc, columns, linked, script, history)?;
    page(alloc, name, linked, columns, &replay, wrong)
}

fn page(
    alloc: Global,
    name: &str,
    linked: Linked<'_>,
    columns: Columns,
    replay: &Replay<'_>,
    wrong: Option<WrongTrace<'_>>,
) -> Result<String, Memory> {
    let joints = joint_courses(alloc, linked, replay)?;
    let limiters = limiter_courses(alloc, linked, replay)?;
    let longest = longest_value(alloc, joints.as_slice())?;
    let values = longest.max(longest_value(alloc, limiters.as_slice())?);
    let left = names_end(linked.description, linked.joints, values);
    let drawn = PageParts {
        linked,
        run: Run {
            strip: Strip::of(columns, left),
            description: linked.description,
            replay,
            wrong_line: wrong.map(|it| it.line),
        },
        joints: joints.as_slice(),
        limiters: limiters.as_slice(),
        values,
    };
    page_of_parts(alloc, name, drawn, wrong)
}

/// What a page has below its head.
#[derive(Clone, Copy)]
struct PageParts<'a> {
    linked: Linked<'a>,
    run: Run<'a>,
    joints: &'a [NamedCourse<'a>],
    limiters: &'a [NamedCourse<'a>],
    /// The most letters of a value of a course.
    values: usize,
}

fn page_of_parts(
    alloc: Global,
    name: &str,
    drawn: PageParts<'_>,
    wrong: Option<WrongTrace<'_>>,
) -> Result<String, Memory> {
    let description = drawn.linked.description;
    let mut svg = Svg::new(alloc);
    let top = draw_head(alloc, &mut svg, name, description, drawn.run.replay.counts)?;
    let top = draw_wrong(alloc, &mut svg, top, wrong)?;
    let top = draw_warnings(alloc, &mut svg, top, description)?;
    let bottom = draw_parts(alloc, &mut svg, top, drawn)?;
    whole(alloc, &svg, bottom)
}

/// Draws the run, and behind it the curves; gives where these end.
fn draw_parts(alloc: Global, svg: &mut Svg, top: Px, drawn: PageParts<'_>) -> Result<Px, Memory> {
    let top = draw(alloc, svg, top, drawn.linked, drawn.run)?;
    let curves = Curves {
        strip: &drawn.run.strip,
        courses: drawn.joints,
        values: drawn.values,
    };
    let top = draw_curve_part(alloc, svg, top, "Where each joint was", curves)?;
    let given = Curves {
        courses: drawn.limiters,
        ..curves
    };
    draw_curve_part(alloc, svg, top, "What each limiter gave", given)
}

/// Where the names beside the columns end. The ends of a joint's range, so many letters, stand behind its name.
fn names_end(description: &Description, joints: &[(usize, &JointDesc)], values: usize) -> Px {
    let longest = LEAST_LETTERS
        .max(longest_controller(description.controllers.as_slice(), values))
        .max(longest_component(description.components.as_slice()))
        .max(longest_joint(joints, values));
    Px::letters(longest.min(MOST_LETTERS)).plus(Px::of(MARGIN + 12))
}

/// The length of the longest name of a controller, of a limiter with its values.
fn longest_controller(controllers: &[CtlDesc], values: usize) -> usize {
    let mut longest = 0usize;
    for controller in controllers {
        let name = controller.name.as_str().len();
        let whole = match controller.params.kind() {
            CtlKind::Limiter => name.saturating_add(values).saturating_add(9),
            _ => name,
        };
        longest = longest.max(whole);
    }
    longest
}

/// The length of the longest name of a component.
fn longest_component(components: &[CompDesc]) -> usize {
    let mut longest = 0usize;
    for component in components {
        longest = longest.max(component.name.as_str().len());
    }
    longest
}

/// The length of the longest name of a joint, with its values.
fn longest_joint(joints: &[(usize, &JointDesc)], values: usize) -> usize {
    let mut longest = 0usize;
    for (_, joint) in joints {
        let both = joint.name.as_str().len().saturating_add(values);
        longest = longest.max(both.saturating_add(2));
    }
    longest
}

/// Draws all between the heading and the curves, and gives where it ends.
fn draw(
    alloc: Global,
    svg: &mut Svg,
    top: Px,
    linked: Linked<'_>,
    run: Run<'_>,
) -> Result<Px, Memory> {
    let top = draw_link_part(alloc, svg, top, linked)?;
    let top = draw_run_part(alloc, svg, top.plus(Px::of(20)), run)?;
    draw_log_part(alloc, svg, top, run)
}

fn draw_link_part(alloc: Global, svg: &mut Svg, top: Px, linked: Linked<'_>) -> Result<Px, Memory> {
    let top = draw_section(svg, top, "Who commands whom")?;
    let top = draw_link_keys(svg, top)?;
    draw_links(alloc, svg, top, linked)
}

fn draw_run_part(alloc: Global, svg: &mut Svg, top: Px, run: Run<'_>) -> Result<Px, Memory> {
    let top = draw_section(svg, top, "The run, cycle by cycle")?;
    let top = draw_run_keys(alloc, svg, top)?;
    draw_run(alloc, svg, top, run)
}

/// What was asked, where anything was.
fn draw_log_part(alloc: Global, svg: &mut Svg, top: Px, run: Run<'_>) -> Result<Px, Memory> {
    let answered = run.replay.answered.as_slice();
    if answered.is_empty() {
        return Ok(top);
    }
    let top = draw_section(
        svg,
        top.plus(Px::of(20)),
        "Requests, and calls that were refused",
    )?;
    let cycles = run.description.cycles;
    draw_log(alloc, svg, top, cycles, answered)
}

/// A part of curves, if it has any.
fn draw_curve_part(
    alloc: Global,
    svg: &mut Svg,
    top: Px,
    words: &str,
    curves: Curves<'_>,
) -> Result<Px, Memory> {
    if curves.courses.is_empty() {
        return Ok(top);
    }
    let top = draw_section(svg, top.plus(Px::of(20)), words)?;
    let top = draw_curve_keys(svg, top)?;
    draw_curves(alloc, svg, top, curves)
}

fn draw_section(svg: &mut Svg, top: Px, words: &str) -> Result<Px, Memory> {
    let at = PagePoint {
        x: Px::of(MARGIN),
        y: top.plus(Px::of(18)),
    };
    svg.words("section", at, words, "")?;
    Ok(top.plus(Px::of(28)))
}

/// The heading: how long the run was, and what happened in it.
fn draw_head(
    alloc: Global,
    svg: &mut Svg,
    name: &str,
    description: &Description,
    counts: RunCounts,
) -> Result<Px, Memory> {
    let title = title_of(alloc, name, description)?;
    let at = PagePoint {
        x: Px::of(MARGIN),
        y: Px::of(40),
    };
    svg.words("title", at, title.as_str(), "")?;
    let note = happened(alloc, counts)?;
    svg.words("note", at.beside(Px::of(0), Px::of(22)), note.as_str(), "")?;
    Ok(Px::of(78))
}

/// The title: the document's name where it has one, and how long the run was.
fn title_of(alloc: Global, name: &str, description: &Description) -> Result<String, Memory> {
    let cycles = description.cycles;
    let unit = if cycles == 1 { "cycle" } else { "cycles" };
    let hz = description.update_rate;
    if name.is_empty() {
        return Ok(format!(in alloc; "A run of {cycles} {unit} at {hz} hertz")?);
    }
    let name = shortened(alloc, name, MOST_OF_TITLE)?;
    Ok(format!(in alloc; "{name}: a run of {cycles} {unit} at {hz} hertz")?)
}

/// How often things happened.
fn happened(alloc: Global, counts: RunCounts) -> Result<String, Memory> {
    let RunCounts {
        done,
        refused,
        ended,
        turned_away,
        calls,
        failed,
        stopped,
    } = counts;
    let mut text = format!(in alloc; "requests: {done} done, {refused} refused")?;
    if ended > 0 {
        write!(text, ", {ended} not decided")?;
    }
    if turned_away > 0 {
        write!(text, ", {turned_away} turned away")?;
    }
    if calls > 0 {
        write!(text, " · other calls refused: {calls}")?;
    }
    write!(
        text,
        " · failures: {failed} · stops of controllers: {stopped}"
    )?;
    Ok(text)
}

/// The text of the page, as high as all that was drawn.
fn whole(alloc: Global, svg: &Svg, bottom: Px) -> Result<String, Memory> {
    let height = bottom.plus(Px::of(MARGIN));
    let mut text = String::new(alloc);
    write!(
        text,
        "<svg xmlns=\"http://www.w3.org/2000/svg\" width=\"{PAGE_WIDTH}\" height=\"{height}\""
    )?;
    write!(text, " viewBox=\"0 0 {PAGE_WIDTH} {height}\">\n")?;
    text.push_str(STYLE)?;
    write!(
        text,
        "<rect class=\"page\" width=\"{PAGE_WIDTH}\" height=\"{height}\"/>\n"
    )?;
    text.push_str(svg.as_str())?;
    text.push_str("</svg>\n")?;
    Ok(text)
}
