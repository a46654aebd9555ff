//! Where the loop stands.

/// Where the loop stands, as its pass has seen.
#[derive(Clone, Copy)]
pub struct LoopStand {
    /// So many cycles are left.
    pub left: u64,
    pub aloft: bool,
    pub closed: bool,
}
