//! What each limiter gave through a run: the position, the step that led there, and the change from the step before.

use crate::course::JointCourse;
use cm_document::{CtlKind, Description};
use fixed_num::{Memory, StoredValue, Value};
use std::alloc::Global;

/// The three courses of a limiter.
#[derive(Drop)]
pub struct LimiterCourse {
    /// The place of the controller.
    pub place: usize,
    /// The positions that it gave.
    pub position: JointCourse,
    /// The steps from one position to the next.
    pub step: JointCourse,
    /// The changes from one step to the next.
    pub change: JointCourse,
    last_position: Option<i64>,
    last_step: Option<i64>,
    chained: bool,
}

impl LimiterCourse {
    /// Of a limiter that gave nothing yet.
    fn blank(alloc: Global, place: usize, columns: usize) -> Result<LimiterCourse, Memory> {
        Ok(LimiterCourse {
            place,
            position: JointCourse::still(alloc, 0, columns)?,
            step: JointCourse::still(alloc, 0, columns)?,
            change: JointCourse::still(alloc, 0, columns)?,
            last_position: None,
            last_step: None,
            chained: false,
        })
    }

    /// A controller gave these outputs in a cycle of this column. A limiter that becomes chained, or stops to be, began
    /// anew.
    pub fn read(&mut self, place: usize, chained: bool, column: usize, outs: &[StoredValue]) {
        if place != self.place {
            return;
        }
        if chained != self.chained {
            self.begin_anew();
            self.chained = chained;
        }
        if let Some(out) = outs.first() {
            self.take(column, out.get());
        }
    }

    fn take(&mut self, column: usize, value: Value) {
        let Value::Num(number) = value else {
            return;
        };
        let position = number.micro();
        self.position.pass(column, position);
        if let Some(last) = self.last_position {
            self.take_step(column, position.saturating_sub(last));
        }
        self.last_position = Some(position);
    }

    fn take_step(&mut self, column: usize, step: i64) {
        self.step.pass(column, step);
        if let Some(last) = self.last_step {
            self.change.pass(column, step.saturating_sub(last));
        }
        self.last_step = Some(step);
    }

    /// From its next output on it steps anew.
    fn begin_anew(&mut self) {
        self.last_position = None;
        self.last_step = None;
    }
}

/// The courses of all limiters of a description before the first cycle.
pub fn blank_limiters(
    alloc: Global,
    description: &Description,
    columns: usize,
) -> Result<Vec<LimiterCourse>, Memory> {
    let mut limiters = Vec::new(alloc);
    for (place, controller) in description.controllers.as_slice().iter().enumerate() {
        if controller.params.kind() == CtlKind::Limiter {
            limiters.push(LimiterCourse::blank(alloc, place, columns)?)?;
        }
    }
    Ok(limiters)
}

/// The controller at this place stopped.
pub fn stop_limiter(limiters: &mut Vec<LimiterCourse>, place: usize) {
    for limiter in limiters {
        if limiter.place == place {
            limiter.begin_anew();
        }
    }
}
