// The streams that follow one another.

use crate::{Mode, Period};

/// A stream as a chain visits it.
#[derive(Clone, Copy, Debug, PartialEq, Eq)]
pub struct Leg {
    /// The time between two packets of a burst.
    pub period: Period,
    /// The stream's position in the profile.
    pub stream: u32,
    /// The gap before each of its runs, in nanoseconds.
    pub isg: u64,
    /// How it sends its packets in each run.
    pub mode: Mode,
    /// After so many visits the chain stops; 0 where it doesn't.
    pub actions: u32,
}

/// The streams that follow one another from a stream that starts by itself.
#[derive(Debug, Drop)]
pub struct ChainSpec {
    /// The streams in order, each once.
    pub legs: Vec<Leg>,
    /// The place in `legs` that follows the last leg, where one does.
    pub back: Option<u32>,
}
