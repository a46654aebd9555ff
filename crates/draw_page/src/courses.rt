//! The courses that are drawn, with their names.

use crate::curves::NamedCourse;
use draw_replay::{JointCourse, Linked, Replay};
use fixed_num::Memory;
use std::alloc::Global;

/// Where each joint was.
pub fn joint_courses<'a>(
    alloc: Global,
    linked: Linked<'a>,
    replay: &'a Replay<'_>,
) -> Result<Vec<NamedCourse<'a>>, Memory> {
    let mut named = Vec::new(alloc);
    for ((_, joint), course) in linked.joints.iter().zip(replay.courses.as_slice()) {
        named.push(NamedCourse {
            name: joint.name.as_str(),
            part: "",
            course,
        })?;
    }
    Ok(named)
}

/// What each limiter gave: its positions, the steps between them, and how these changed.
pub fn limiter_courses<'a>(
    alloc: Global,
    linked: Linked<'a>,
    replay: &'a Replay<'_>,
) -> Result<Vec<NamedCourse<'a>>, Memory> {
    let mut named = Vec::new(alloc);
    for limiter in &replay.limiters {
        if let Some(controller) = linked.description.controllers.as_slice().get(limiter.place) {
            let name = controller.name.as_str();
            push_course(&mut named, name, "", &limiter.position)?;
            push_course(&mut named, name, " step", &limiter.step)?;
            push_course(&mut named, name, " change", &limiter.change)?;
        }
    }
    Ok(named)
}

fn push_course<'a>(
    named: &mut Vec<NamedCourse<'a>>,
    name: &'a str,
    part: &'static str,
    course: &'a JointCourse,
) -> Result<(), Memory> {
    named.push(NamedCourse { name, part, course })?;
    Ok(())
}
