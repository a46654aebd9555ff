//! Lifecycle states.

/// The lifecycle state of a controller or a component.
#[derive(Clone, Copy, Debug, PartialEq, Eq)]
pub enum Life {
    /// Of a controller: loaded, without parameters. Of a component: its interfaces are not available.
    Unconfigured,
    /// Configured, not running. A component is read, and not written.
    Inactive,
    /// Running. A component is read and written.
    Active,
    /// Gone for good.
    Finalized,
}
