//! The lines from the boxes to what their controllers claim and read.

use crate::boxes::reference_at;
use crate::levels::Below;
use crate::ports::{PlacedComponent, Ports};
use cm_document::{CtlDesc, Description, Exports};
use draw_replay::{ControllerLinks, Link, Linked};
use draw_svg::{Area, PagePoint, Px, Svg};
use fixed_num::Memory;
use std::alloc::Global;

/// Half of the blank that a line needs to go down beside a box, in pixels.
const AROUND: u64 = 14;

/// What a line of the picture stands for.
#[derive(Clone, Copy)]
enum Edge {
    /// A controller claims a reference of another.
    Leads {
        /// The place of the controller that is led.
        follower: usize,
    },
    /// It claims a command interface.
    Claims {
        /// The place of the interface among the ports.
        port: usize,
    },
    /// It reads a state interface.
    Reads {
        /// The place of the interface among the ports.
        port: usize,
    },
    /// It reads all state interfaces of a component.
    ReadsAll {
        /// The place of the component.
        component: usize,
    },
}

/// A line, from the right of a box to where it leads.
#[derive(Clone, Copy)]
struct Ended {
    edge: Edge,
    to: PagePoint,
}

/// What is drawn, with where it stands.
#[derive(Clone, Copy)]
pub struct PlacedLinks<'a> {
    /// The description, its joints and links.
    pub linked: Linked<'a>,
    /// How far down what each controller reads passes below the boxes, where it does, by place.
    pub below: &'a Below,
    /// The areas of the boxes, by place.
    pub boxes: &'a [Area],
    /// The interfaces of the hardware.
    pub ports: &'a Ports,
}

/// Draws the lines of all controllers.
pub fn draw_edges(alloc: Global, svg: &mut Svg, placed: PlacedLinks<'_>) -> Result<(), Memory> {
    for (place, own) in placed.linked.links.iter().enumerate() {
        let ended = ends(alloc, placed, own)?;
        draw_ended(alloc, svg, placed, place, ended.as_slice())?;
    }
    Ok(())
}

/// The lines of one controller, spread over the right of its box in the order of their ends.
fn draw_ended(
    alloc: Global,
    svg: &mut Svg,
    placed: PlacedLinks<'_>,
    place: usize,
    ended: &[Ended],
) -> Result<(), Memory> {
    let parts = ended.len().saturating_add(1);
    for (number, one) in ended.iter().enumerate() {
        if let Some(from) = begin_of(placed.boxes, place, number.saturating_add(1), parts) {
            let title = edge_title(alloc, placed, place, one.edge)?;
            draw_edge(
                alloc,
                svg,
                from,
                placed.below.of_place(place),
                *one,
                title.as_str(),
            )?;
        }
    }
    Ok(())
}

/// Where a line begins: so far down the right of a controller's box.
fn begin_of(boxes: &[Area], place: usize, part: usize, parts: usize) -> Option<PagePoint> {
    let area = boxes.get(place)?;
    Some(PagePoint {
        x: area.x.plus(area.width),
        y: area.y.plus(area.height.share(part as u64, parts as u64)),
    })
}

/// The ends of a controller's lines: those to references first, then from the uppermost interface down.
fn ends(
    alloc: Global,
    placed: PlacedLinks<'_>,
    own: &ControllerLinks,
) -> Result<Vec<Ended>, Memory> {
    let mut ended = Vec::new(alloc);
    push_followers(
        &mut ended,
        placed.linked,
        placed.boxes,
        own.claims.as_slice(),
    )?;
    for (place, component) in placed.ports.components().iter().enumerate() {
        push_component(&mut ended, placed, place, component, own)?;
    }
    Ok(ended)
}

/// The lines to a component, or to its interfaces one by one.
fn push_component(
    ended: &mut Vec<Ended>,
    placed: PlacedLinks<'_>,
    place: usize,
    component: &PlacedComponent,
    own: &ControllerLinks,
) -> Result<(), Memory> {
    let reads_all = component.reads_all(own.reads.as_slice(), placed.linked.joints, place);
    if reads_all {
        ended.push(Ended {
            edge: Edge::ReadsAll { component: place },
            to: component.at,
        })?;
    }
    push_ports(ended, placed.ports, place, own, reads_all)
}

fn push_followers(
    ended: &mut Vec<Ended>,
    linked: Linked<'_>,
    boxes: &[Area],
    claims: &[Link],
) -> Result<(), Memory> {
    for claim in claims {
        let Some(follower) = claim.follower else {
            continue;
        };
        if let Some(to) = followed_at(linked, boxes, follower, claim) {
            ended.push(Ended {
                edge: Edge::Leads { follower },
                to,
            })?;
        }
    }
    Ok(())
}

/// Where the claimed reference of a follower stands.
fn followed_at(
    linked: Linked<'_>,
    boxes: &[Area],
    follower: usize,
    claim: &Link,
) -> Option<PagePoint> {
    let area = boxes.get(follower)?;
    let links = linked.links.get(follower)?;
    let exported = match linked
        .description
        .controllers
        .as_slice()
        .get(follower)?
        .params
        .exports()
    {
        Exports::EachClaim => links.claims.as_slice(),
        Exports::FirstRead | Exports::Nothing => links.reads.as_slice(),
    };
    let number = exported
        .iter()
        .position(|it| it.joint == claim.joint && it.kind == claim.kind)?;
    Some(reference_at(*area, number))
}

/// The lines to the interfaces of one component.
fn push_ports(
    ended: &mut Vec<Ended>,
    ports: &Ports,
    component: usize,
    own: &ControllerLinks,
    reads_all: bool,
) -> Result<(), Memory> {
    for (place, port) in ports.all().iter().enumerate() {
        if port.component != component {
            continue;
        }
        if own
            .claims
            .iter()
            .any(|it| it.follower.is_none() && port.is_of(it))
        {
            ended.push(Ended {
                edge: Edge::Claims { port: place },
                to: port.command_at(),
            })?;
        }
        if !reads_all && own.reads.iter().any(|it| port.is_of(it)) {
            ended.push(Ended {
                edge: Edge::Reads { port: place },
                to: port.state_at(),
            })?;
        }
    }
    Ok(())
}

fn draw_edge(
    alloc: Global,
    svg: &mut Svg,
    from: PagePoint,
    below: Option<Px>,
    ended: Ended,
    title: &str,
) -> Result<(), Memory> {
    let (class, tip_class, tip_at, tip) = match ended.edge {
        Edge::Leads { .. } => ("leads", "leads-tip", ended.to, "m-4 0l-9 -4v8z"),
        Edge::Claims { .. } => ("claims", "claims-tip", ended.to, "m-4 0l-9 -4v8z"),
        Edge::Reads { .. } | Edge::ReadsAll { .. } => ("reads", "reads-tip", from, "l9 -4v8z"),
    };
    let steps = edge_steps(alloc, from, below, ended)?;
    svg.path(class, steps.as_str(), title)?;
    draw_tip(alloc, svg, tip_at, tip_class, tip, title)
}

fn edge_steps(
    alloc: Global,
    from: PagePoint,
    below: Option<Px>,
    ended: Ended,
) -> Result<String, Memory> {
    match (below, ended.edge) {
        (Some(below), Edge::Reads { .. } | Edge::ReadsAll { .. }) => {
            under(alloc, from, below, ended.to)
        }
        _ => across(alloc, from, ended.to),
    }
}

/// The tip of a line, by its steps from a point on.
fn draw_tip(
    alloc: Global,
    svg: &mut Svg,
    at: PagePoint,
    class: &str,
    steps: &str,
    title: &str,
) -> Result<(), Memory> {
    let (x, y) = (at.x, at.y);
    let tip = format!(in alloc; "M{x} {y}{steps}")?;
    svg.path(class, tip.as_str(), title)
}

/// A line from point to point that begins and ends level.
fn across(alloc: Global, from: PagePoint, to: PagePoint) -> Result<String, Memory> {
    let middle = from.x.plus(to.x).half();
    let (x, y, end_x, end_y) = (from.x, from.y, to.x, to.y);
    Ok(format!(in alloc; "M{x} {y}C{middle} {y} {middle} {end_y} {end_x} {end_y}")?)
}

/// A line that goes down right behind its begin, and passes the boxes at this height.
fn under(alloc: Global, from: PagePoint, low: Px, to: PagePoint) -> Result<String, Memory> {
    let (x, y, end_x, end_y) = (from.x, from.y, to.x, to.y);
    let down = x.plus(Px::of(2 * AROUND));
    let up = end_x.minus(Px::of(2 * AROUND));
    let begin = format!(in alloc; "M{x} {y}C{down} {y} {x} {low} {down} {low}")?;
    Ok(format!(in alloc; "{begin}H{up}C{end_x} {low} {up} {end_y} {end_x} {end_y}")?)
}

fn edge_title(
    alloc: Global,
    placed: PlacedLinks<'_>,
    place: usize,
    edge: Edge,
) -> Result<String, Memory> {
    let linked = placed.linked;
    let controllers = linked.description.controllers.as_slice();
    let who = name_at(controllers, place);
    match edge {
        Edge::Leads { follower } => leads_title(alloc, who, name_at(controllers, follower)),
        Edge::ReadsAll { component } => {
            let component = component_name(linked.description, component);
            told(alloc, who, "reads all states of", component)
        }
        Edge::Claims { port } => port_title(alloc, placed, who, "claims", port),
        Edge::Reads { port } => port_title(alloc, placed, who, "reads", port),
    }
}

/// Who leads whom.
fn leads_title(alloc: Global, who: &str, follower: &str) -> Result<String, Memory> {
    Ok(format!(in alloc;
        "{who} claims a reference of {follower}: it leads, and {follower} follows"
    )?)
}

/// What a controller does with the interface at this place among the ports.
fn port_title(
    alloc: Global,
    placed: PlacedLinks<'_>,
    who: &str,
    does: &str,
    port: usize,
) -> Result<String, Memory> {
    let port = placed.ports.text(alloc, port, placed.linked.joints)?;
    told(alloc, who, does, port.as_str())
}

/// Who does what with what.
fn told(alloc: Global, who: &str, does: &str, what: &str) -> Result<String, Memory> {
    Ok(format!(in alloc; "{who} {does} {what}")?)
}

fn name_at(controllers: &[CtlDesc], place: usize) -> &str {
    match controllers.get(place) {
        Some(controller) => controller.name.as_str(),
        None => "",
    }
}

fn component_name(description: &Description, place: usize) -> &str {
    match description.components.as_slice().get(place) {
        Some(component) => component.name.as_str(),
        None => "",
    }
}
