//! A loaded controller, by its two numbers.

/// A loaded controller, by its two numbers.
#[derive(Clone, Copy, Debug, PartialEq, Eq)]
pub struct Member {
    /// The number that its load gave.
    pub serial: u32,
    /// Its place in the description.
    pub place: u32,
}
