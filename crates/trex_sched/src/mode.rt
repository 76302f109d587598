// How a stream sends its packets in a run.

/// How a stream sends its packets in one run.
#[derive(Clone, Copy, Debug, PartialEq, Eq)]
pub enum Mode {
    /// Packets without an end.
    Continuous,
    /// One burst of so many packets.
    SingleBurst {
        total: u32,
    },
    /// So many bursts, each further one beginning `ibg` nanoseconds after the end of the one before it; without an end where `count` is 0.
    MultiBurst {
        per_burst: u32,
        ibg: u64,
        count: u32,
    },
}
