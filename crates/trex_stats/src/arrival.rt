// A packet of a flow, as it came.

/// A stamped packet of a flow, as it came.
#[derive(Clone, Copy, Drop)]
pub(crate) struct Arrival {
    /// The sequence number of its stamp.
    pub(crate) sequence: u64,
    /// When it was due, as its stamp says, in ns.
    pub(crate) sent: u64,
    /// When it was captured, in ns.
    pub(crate) came: u64,
}
