// A visit of a chain to a leg.

use crate::Leg;

/// One visit of a chain to a leg: one run of the leg's stream.
#[derive(Clone, Copy, Debug, PartialEq, Eq)]
pub struct Run {
    /// The leg.
    pub leg: Leg,
    /// The leg's place in the chain.
    pub place: usize,
    /// The number of earlier runs of the leg.
    pub visit: u64,
    /// The run's start, in nanoseconds from the schedule's zero.
    pub start: u64,
}
