//! Where things stand on the page: lengths, points and areas.

use std::fmt;
use std::fmt::{Display, Formatter, Write};

/// The page's width, in pixels.
pub const PAGE_WIDTH: u64 = 1_200;

/// The blank beside all that is drawn, in pixels.
pub const MARGIN: u64 = 24;

/// How wide a letter of a text in fixed width is, in hundredths of a pixel: 0.602 of 12 pixels, as in DejaVu Sans Mono,
/// rounded up.
const LETTER: u64 = 723;

/// A length on the page, or a distance from its left or top, in hundredths of a pixel.
#[derive(Clone, Copy)]
pub struct Px(u64);

impl Px {
    /// So many pixels.
    pub fn of(pixels: u64) -> Px {
        Px(pixels.saturating_mul(100))
    }

    /// As wide as so many letters of a text in fixed width.
    pub fn letters(count: usize) -> Px {
        Px((count as u64).saturating_mul(LETTER))
    }

    /// Both together.
    pub fn plus(self, more: Px) -> Px {
        Px(self.0.saturating_add(more.0))
    }

    /// Without this; nothing where this is more.
    pub fn minus(self, less: Px) -> Px {
        Px(self.0.saturating_sub(less.0))
    }

    /// So many times.
    pub fn times(self, count: usize) -> Px {
        Px(self.0.saturating_mul(count as u64))
    }

    /// The part that `part` is of `whole`; nothing of no whole.
    pub fn share(self, part: u64, whole: u64) -> Px {
        match self.0.saturating_mul(part).checked_div(whole) {
            Some(share) => Px(share),
            None => Px(0),
        }
    }

    /// The half.
    pub fn half(self) -> Px {
        Px(self.0 / 2)
    }

    /// The longer of both.
    pub fn most(self, other: Px) -> Px {
        Px(self.0.max(other.0))
    }

    /// The shorter of both.
    pub fn least(self, other: Px) -> Px {
        Px(self.0.min(other.0))
    }

    /// Whether it is at least as long.
    pub fn reaches(self, other: Px) -> bool {
        self.0 >= other.0
    }

    /// How many letters of a text in fixed width stand in it.
    pub fn room(self) -> usize {
        (self.0 / LETTER) as usize
    }
}

impl Display for Px {
    fn fmt<W: Write>(&self, f: &mut Formatter<W>) -> fmt::Result {
        let whole = self.0 / 100;
        let hundredths = self.0 % 100;
        if hundredths == 0 {
            write!(f, "{whole}")
        } else {
            write!(f, "{whole}.{hundredths:02}")
        }
    }
}

/// A point of the page.
#[derive(Clone, Copy)]
pub struct PagePoint {
    /// From the left.
    pub x: Px,
    /// From the top.
    pub y: Px,
}

impl PagePoint {
    /// The point that is so far to the right and down.
    pub fn beside(self, right: Px, down: Px) -> PagePoint {
        PagePoint {
            x: self.x.plus(right),
            y: self.y.plus(down),
        }
    }
}

/// An area of the page.
#[derive(Clone, Copy)]
pub struct Area {
    /// From the left.
    pub x: Px,
    /// From the top.
    pub y: Px,
    /// To the right.
    pub width: Px,
    /// Down.
    pub height: Px,
}
