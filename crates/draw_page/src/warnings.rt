//! What a builder is warned of: limiters that stand for ever.

use cm_document::{CtlDesc, Description, Params};
use cm_model::SECOND_US;
use draw_svg::{MARGIN, PagePoint, Px, Svg, short};
use fixed_num::Memory;
use std::alloc::Global;

/// A second in microseconds, wide enough for its square.
const SECOND: u64 = SECOND_US as u64;

/// Draws a line for each limiter that stands for ever, and gives where they end.
pub fn draw_warnings(
    alloc: Global,
    svg: &mut Svg,
    top: Px,
    description: &Description,
) -> Result<Px, Memory> {
    let mut y = top;
    for controller in description.controllers.as_slice() {
        if let Some(least) = missed(description, controller) {
            let at = PagePoint {
                x: Px::of(MARGIN),
                y,
            };
            let words = warning(alloc, controller, least)?;
            svg.words("note", at, words.as_str(), "")?;
            y = y.plus(Px::of(22));
        }
    }
    Ok(y)
}

/// Appends a line for each limiter that stands for ever, and below it what would mend that.
pub fn push_warnings(
    alloc: Global,
    text: &mut String,
    description: &Description,
) -> Result<(), Memory> {
    for controller in description.controllers.as_slice() {
        if let Some(least) = missed(description, controller) {
            text.push_str(warning(alloc, controller, least)?.as_str())?;
            let least = short(alloc, least)?;
            write!(
                text,
                "\n    mend: an amax of {least} or more, or fewer updates a second\n"
            )?;
        }
    }
    Ok(())
}

fn warning(alloc: Global, controller: &CtlDesc, least: i64) -> Result<String, Memory> {
    let name = controller.name.as_str();
    let least = short(alloc, least)?;
    Ok(format!(in alloc;
        "{name} stands for ever: in the time of its updates an amax below {least} comes to nothing"
    )?)
}

/// The least acceleration with which a limiter moves, in micro-units, if its own is less.
fn missed(description: &Description, controller: &CtlDesc) -> Option<i64> {
    let Params::Limiter { amax, .. } = &controller.params else {
        return None;
    };
    let time = update_time(description.update_rate, controller.rate);
    let squared = time.saturating_mul(time).max(1);
    let least = (SECOND * SECOND - 1) / squared;
    let least = i64::try_from(least.saturating_add(1)).unwrap_or(i64::MAX);
    (amax.micro() < least).then_some(least)
}

/// The time between two updates of a controller of this rate, in microseconds.
fn update_time(manager: u32, rate: u32) -> u64 {
    let period = SECOND / u64::from(manager.max(1));
    if rate == 0 || manager <= rate {
        return period;
    }
    period.saturating_mul(u64::from(manager / rate))
}
