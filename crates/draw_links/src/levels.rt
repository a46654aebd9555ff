//! In which column of the picture each controller stands: those that lead at the left of those that follow.

use draw_replay::{ControllerLinks, Link};
use draw_svg::Px;
use fixed_num::Memory;
use std::alloc::Global;

/// How long the chains are that lead on from each controller, by place: 0 of one that leads nobody.
pub(crate) fn heights(alloc: Global, links: &[ControllerLinks]) -> Result<Vec<usize>, Memory> {
    let mut heights = vec![in alloc; 0usize; links.len()]?;
    // A chain has no more controllers than there are.
    for _length in links {
        raise(&mut heights, links);
    }
    Ok(heights)
}

/// Each controller stands above those that it leads.
fn raise(heights: &mut Vec<usize>, links: &[ControllerLinks]) {
    for (place, own) in links.iter().enumerate() {
        let least = above(heights.as_slice(), own.claims.as_slice());
        if let Some(height) = heights.get_mut(place) {
            *height = least;
        }
    }
}

/// The least height above all that these claims lead.
fn above(heights: &[usize], claims: &[Link]) -> usize {
    let mut least = 0usize;
    for claim in claims {
        if let Some(height) = claim.follower.and_then(|place| heights.get(place)) {
            least = least.max(height.saturating_add(1));
        }
    }
    least
}

/// How many columns of boxes there are.
pub fn levels(heights: &[usize]) -> usize {
    let mut levels = 1usize;
    for height in heights {
        levels = levels.max(height.saturating_add(1));
    }
    levels
}

/// How far down lines pass below the boxes: those of each controller that leads another at a height of their own.
#[derive(Drop)]
pub struct Below {
    lows: Vec<Option<Px>>,
    end: Px,
}

/// The blank between lines that pass below the boxes, in pixels.
const BETWEEN_LINES: u64 = 7;

impl Below {
    /// Of controllers with these heights and links, below boxes that end here.
    pub fn of(
        alloc: Global,
        heights: &[usize],
        links: &[ControllerLinks],
        bottom: Px,
    ) -> Result<Below, Memory> {
        let mut below = Below {
            lows: Vec::new(alloc),
            end: bottom.plus(Px::of(BETWEEN_LINES)),
        };
        for (height, own) in heights.iter().zip(links) {
            let passes = *height > 0 && !own.reads.as_slice().is_empty();
            below.push(passes)?;
        }
        Ok(below)
    }

    /// One controller more, whose lines pass below or do not.
    fn push(&mut self, passes: bool) -> Result<(), Memory> {
        if passes {
            self.end = self.end.plus(Px::of(BETWEEN_LINES));
            self.lows.push(Some(self.end))?;
        } else {
            self.lows.push(None)?;
        }
        Ok(())
    }

    /// How far down the lines of the controller at this place pass, where they do.
    pub fn of_place(&self, place: usize) -> Option<Px> {
        *self.lows.get(place)?
    }

    /// Where the lowest of them is.
    pub fn end(&self) -> Px {
        self.end
    }
}
