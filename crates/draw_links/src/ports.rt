//! The interfaces of the hardware at the right of the picture, by component and joint.

use crate::boxes::mark;
use cm_document::{CompDesc, Description, JointDesc};
use draw_replay::{Link, Linked};
use draw_svg::{Area, MARGIN, PAGE_WIDTH, PagePoint, Px, Svg, shortened};
use fixed_num::Memory;
use iface_names::Kind;
use std::alloc::Global;

/// How high the line of an interface is, in pixels.
const PORT_HEIGHT: u64 = 24;

/// How high the name of a component is, in pixels.
const HEAD_HEIGHT: u64 = 30;

/// The blank between components, and between the joints of one, in pixels.
const BETWEEN_COMPONENTS: u64 = 16;

const BETWEEN_JOINTS: u64 = 6;

/// The most letters of an interface's name that are drawn.
const MOST_LETTERS: usize = 44;

/// The fewest states that are drawn as one line where a controller reads them all.
const FEWEST_TOGETHER: usize = 4;

/// An interface of a joint: its command, its state, or both.
#[derive(Clone, Copy)]
pub struct JointPort {
    /// The place of its component.
    pub component: usize,
    joint: usize,
    kind: Kind,
    has_command: bool,
    has_state: bool,
    at: PagePoint,
}

impl JointPort {
    /// Whether a link is to this interface of a joint.
    pub fn is_of(&self, link: &Link) -> bool {
        self.joint == link.joint && self.kind == link.kind
    }

    /// Where its command is claimed.
    pub fn command_at(&self) -> PagePoint {
        PagePoint {
            x: self.at.x,
            y: self.at.y.minus(Px::of(5)),
        }
    }

    /// Where its state is read.
    pub fn state_at(&self) -> PagePoint {
        self.at.beside(Px::of(0), Px::of(6))
    }
}

/// A component of the picture.
#[derive(Clone, Copy)]
pub struct PlacedComponent {
    /// Where those read that read all of it.
    pub at: PagePoint,
    states: usize,
    height: Px,
}

impl PlacedComponent {
    /// Whether these are all its states, and so many that they are drawn as one.
    pub fn reads_all(
        &self,
        reads: &[Link],
        joints: &[(usize, &JointDesc)],
        component: usize,
    ) -> bool {
        let mut count = 0usize;
        for read in reads {
            if joints.get(read.joint).is_some_and(|it| it.0 == component) {
                count = count.saturating_add(1);
            }
        }
        count == self.states && count >= FEWEST_TOGETHER
    }
}

/// All components with their interfaces.
#[derive(Drop)]
pub struct Ports {
    ports: Vec<JointPort>,
    components: Vec<PlacedComponent>,
    left: Px,
    width: Px,
    bottom: Px,
}

impl Ports {
    /// The interfaces of a description, from this height on: right of columns so wide, or where the page has no more
    /// room.
    pub fn of(
        alloc: Global,
        top: Px,
        columns: u64,
        description: &Description,
    ) -> Result<Ports, Memory> {
        let width = Px::letters(longest(description).min(MOST_LETTERS)).plus(Px::of(40));
        let last = Px::of(PAGE_WIDTH - MARGIN).minus(width);
        let mut ports = Ports {
            ports: Vec::new(alloc),
            components: Vec::new(alloc),
            left: last.least(Px::of(columns.saturating_add(MARGIN))),
            width,
            bottom: top,
        };
        let mut joints = 0usize;
        for component in description.components.as_slice() {
            ports.push_component(component, joints)?;
            joints = joints.saturating_add(component.joints.as_slice().len());
        }
        Ok(ports)
    }

    /// One component more, whose joints stand from this place on.
    fn push_component(&mut self, component: &CompDesc, joints: usize) -> Result<(), Memory> {
        let top = self.bottom;
        let at = PagePoint {
            x: self.left,
            y: top.plus(Px::of(HEAD_HEIGHT / 2)),
        };
        let place = self.components.len();
        let mut states = 0usize;
        self.bottom = top.plus(Px::of(HEAD_HEIGHT));
        for (number, joint) in component.joints.as_slice().iter().enumerate() {
            self.push_joint(place, joint, joints.saturating_add(number))?;
            states = states.saturating_add(joint.states.as_slice().len());
        }
        let height = self.bottom.minus(top);
        self.bottom = self.bottom.plus(Px::of(BETWEEN_COMPONENTS));
        self.components
            .push(PlacedComponent { at, states, height })?;
        Ok(())
    }

    fn push_joint(
        &mut self,
        component: usize,
        described: &JointDesc,
        joint: usize,
    ) -> Result<(), Memory> {
        for kind in [Kind::Position, Kind::Velocity, Kind::Effort] {
            self.push_port(component, described, joint, kind)?;
        }
        self.bottom = self.bottom.plus(Px::of(BETWEEN_JOINTS));
        Ok(())
    }

    /// The interface of this kind, where the joint has it.
    fn push_port(
        &mut self,
        component: usize,
        described: &JointDesc,
        joint: usize,
        kind: Kind,
    ) -> Result<(), Memory> {
        let has_command = described.commands.as_slice().contains(&kind);
        let has_state = described.states.as_slice().contains(&kind);
        if !has_command && !has_state {
            return Ok(());
        }
        let at = PagePoint {
            x: self.left,
            y: self.bottom.plus(Px::of(PORT_HEIGHT / 2)),
        };
        self.bottom = self.bottom.plus(Px::of(PORT_HEIGHT));
        self.ports.push(JointPort {
            component,
            joint,
            kind,
            has_command,
            has_state,
            at,
        })?;
        Ok(())
    }

    /// The interfaces, from the uppermost down.
    pub fn all(&self) -> &[JointPort] {
        self.ports.as_slice()
    }

    /// The components, as described.
    pub fn components(&self) -> &[PlacedComponent] {
        self.components.as_slice()
    }

    /// The left end of it all.
    pub fn left(&self) -> Px {
        self.left
    }

    /// Where it ends.
    pub fn bottom(&self) -> Px {
        self.bottom
    }

    /// The name of the interface at this place.
    pub fn text(
        &self,
        alloc: Global,
        place: usize,
        joints: &[(usize, &JointDesc)],
    ) -> Result<String, Memory> {
        let mut text = String::new(alloc);
        if let Some(port) = self.ports.get(place) {
            if let Some((_, joint)) = joints.get(port.joint) {
                text.push_str(joint.name.as_str())?;
            }
            text.push_str("/")?;
            text.push_str(port.kind.word())?;
        }
        Ok(text)
    }

    /// Draws components and interfaces.
    pub fn draw(&self, alloc: Global, svg: &mut Svg, linked: Linked<'_>) -> Result<(), Memory> {
        let described = linked.description.components.as_slice();
        for (placed, component) in self.components.iter().zip(described) {
            draw_component(alloc, svg, self.left, self.width, *placed, component)?;
        }
        self.draw_ports(alloc, svg, linked.joints)
    }

    /// Draws the interfaces.
    fn draw_ports(
        &self,
        alloc: Global,
        svg: &mut Svg,
        joints: &[(usize, &JointDesc)],
    ) -> Result<(), Memory> {
        for (place, port) in self.ports.iter().enumerate() {
            let text = self.text(alloc, place, joints)?;
            draw_port(alloc, svg, port, text.as_str())?;
        }
        Ok(())
    }
}

/// The length of the longest name of an interface.
fn longest(description: &Description) -> usize {
    let mut longest = 16usize;
    for component in description.components.as_slice() {
        longest = longest.max(longest_of(component.joints.as_slice()));
    }
    longest
}

/// The length of the longest name of an interface of these joints; 0 of none.
fn longest_of(joints: &[JointDesc]) -> usize {
    let mut longest = 0usize;
    for joint in joints {
        longest = longest.max(joint.name.as_str().len().saturating_add(9));
    }
    longest
}

fn draw_component(
    alloc: Global,
    svg: &mut Svg,
    left: Px,
    width: Px,
    placed: PlacedComponent,
    component: &CompDesc,
) -> Result<(), Memory> {
    let name = &component.name;
    let kind = component.kind;
    let title = format!(in alloc; "component {name}: {kind}")?;
    let frame = Area {
        x: left,
        y: placed.at.y.minus(Px::of(HEAD_HEIGHT / 2)),
        width,
        height: placed.height,
    };
    svg.rect("frame", frame, title.as_str())?;
    let text = format!(in alloc; "{name}, {kind}")?;
    let text = shortened(alloc, text.as_str(), frame.width.minus(Px::of(24)).room())?;
    svg.words(
        "name",
        placed.at.beside(Px::of(14), Px::of(5)),
        text.as_str(),
        title.as_str(),
    )
}

fn draw_port(alloc: Global, svg: &mut Svg, port: &JointPort, text: &str) -> Result<(), Memory> {
    if port.has_command {
        let title = format!(in alloc; "command {text}")?;
        svg.rect("command", mark(port.command_at()), title.as_str())?;
    }
    if port.has_state {
        let title = format!(in alloc; "state {text}")?;
        svg.circle("state", port.state_at(), 4, title.as_str())?;
    }
    let text = shortened(alloc, text, MOST_LETTERS)?;
    svg.words(
        "port",
        port.at.beside(Px::of(14), Px::of(4)),
        text.as_str(),
        "",
    )
}
