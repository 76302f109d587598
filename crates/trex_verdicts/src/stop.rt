//! Why a run ends before its last case.

use trex_io::{Failed, Memory, ReadAll};

/// Why not all cases are answered.
#[derive(Clone, Copy, Debug, PartialEq, Eq)]
pub(crate) enum Stop {
    /// The cases can't be read, or are too long.
    Unread,
    /// An answer can't be written.
    Unwritten,
    /// There is no memory for the cases or for a profile.
    Memory,
}

impl From<ReadAll> for Stop {
    fn from(stop: ReadAll) -> Stop {
        match stop {
            ReadAll::Fault | ReadAll::TooLong { limit: _ } => Stop::Unread,
            ReadAll::Memory => Stop::Memory,
        }
    }
}

impl From<Failed> for Stop {
    fn from(_failed: Failed) -> Stop {
        Stop::Unwritten
    }
}

impl From<Memory> for Stop {
    fn from(_memory: Memory) -> Stop {
        Stop::Memory
    }
}
