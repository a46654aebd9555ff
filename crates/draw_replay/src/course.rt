//! The course of a joint through a run: its position, and where it was commanded to be.

use crate::links::Link;
use cm_document::{Description, JointDesc};
use fixed_num::{BodyState, Memory, StoredValue, Value};
use iface_names::Kind;
use std::alloc::Global;

/// Where a joint was in a column, in micro-units.
#[derive(Clone, Copy)]
pub struct Sample {
    /// The least position.
    pub least: i64,
    /// The greatest.
    pub most: i64,
    /// The last.
    pub last: i64,
    /// The last commanded position, if there was one.
    pub command: Option<i64>,
}

/// A position that a controller gave out.
#[derive(Clone, Copy)]
struct Given {
    /// The place of the controller.
    by: usize,
    /// The position, in micro-units.
    micro: i64,
}

/// The course of a joint: a sample for each column that was reached.
#[derive(Drop)]
pub struct JointCourse {
    /// Where it was before the first cycle, in micro-units.
    pub start: i64,
    samples: Vec<Option<Sample>>,
    /// What its own command interface holds.
    own: Option<Given>,
    /// What a reference for its position holds.
    reference: Option<Given>,
}

impl JointCourse {
    /// Of a joint that has not moved yet.
    fn blank(alloc: Global, joint: &JointDesc, columns: usize) -> Result<JointCourse, Memory> {
        JointCourse::still(alloc, joint.position.micro(), columns)
    }

    /// Of what is nowhere else yet.
    pub fn still(alloc: Global, start: i64, columns: usize) -> Result<JointCourse, Memory> {
        Ok(JointCourse {
            start,
            samples: vec![in alloc; None; columns]?,
            own: None,
            reference: None,
        })
    }

    /// The samples, by column.
    pub fn samples(&self) -> &[Option<Sample>] {
        self.samples.as_slice()
    }

    /// A controller gave this out at a claim of it.
    pub fn take(&mut self, by: usize, claim: &Link, value: Value) {
        if claim.kind != Kind::Position {
            return;
        }
        let given = match value {
            Value::Num(number) => Some(Given {
                by,
                micro: number.micro(),
            }),
            Value::Unset => None,
        };
        match claim.follower {
            None => self.own = given,
            Some(_) => self.reference = given,
        }
    }

    /// What this controller gave out is gone.
    pub fn forget(&mut self, by: usize) {
        if self.own.is_some_and(|given| given.by == by) {
            self.own = None;
        }
        if self.reference.is_some_and(|given| given.by == by) {
            self.reference = None;
        }
    }

    /// After a cycle of this column it is here.
    pub fn reach(&mut self, column: usize, micro: i64) {
        let command = self.command();
        if let Some(sample) = self.samples.get_mut(column) {
            let (least, most) = match sample {
                Some(before) => (before.least.min(micro), before.most.max(micro)),
                None => (micro, micro),
            };
            *sample = Some(Sample {
                least,
                most,
                last: micro,
                command,
            });
        }
    }

    /// In a cycle of this column it is here. What nobody saw before starts here too.
    pub fn pass(&mut self, column: usize, micro: i64) {
        if self.samples.iter().all(|sample| sample.is_none()) {
            self.start = micro;
        }
        self.reach(column, micro);
    }

    /// Where it is commanded to be: by its own interface, or else by a reference for it.
    fn command(&self) -> Option<i64> {
        match (self.own, self.reference) {
            (Some(given), _) | (None, Some(given)) => Some(given.micro),
            (None, None) => None,
        }
    }
}

/// The courses of all joints of a description before the first cycle.
pub fn blank_courses(
    alloc: Global,
    description: &Description,
    columns: usize,
) -> Result<Vec<JointCourse>, Memory> {
    let mut courses = Vec::new(alloc);
    for component in description.components.as_slice() {
        push_courses(alloc, &mut courses, component.joints.as_slice(), columns)?;
    }
    Ok(courses)
}

fn push_courses(
    alloc: Global,
    courses: &mut Vec<JointCourse>,
    joints: &[JointDesc],
    columns: usize,
) -> Result<(), Memory> {
    for joint in joints {
        courses.push(JointCourse::blank(alloc, joint, columns)?)?;
    }
    Ok(())
}

/// What this controller gave out to any joint is gone.
pub fn forget(courses: &mut Vec<JointCourse>, by: usize) {
    for course in courses {
        course.forget(by);
    }
}

/// After a cycle of this column each joint is where its body is.
pub fn reach(courses: &mut Vec<JointCourse>, bodies: &[BodyState], column: usize) {
    for (place, course) in courses.iter_mut().enumerate() {
        if let Some(body) = bodies.get(place) {
            course.reach(column, body.x.micro());
        }
    }
}

/// The controller at this place gave these outputs at its claims.
pub fn take_outs(courses: &mut Vec<JointCourse>, by: usize, claims: &[Link], outs: &[StoredValue]) {
    for (number, claim) in claims.iter().enumerate() {
        if let (Some(value), Some(course)) = (outs.get(number), courses.get_mut(claim.joint)) {
            course.take(by, claim, value.get());
        }
    }
}
