// What a batch knows of a packet beside its record.

use trex_merge::Key;

/// A packet that waits, without its bytes.
#[derive(Clone, Copy, Debug, PartialEq, Eq, Drop)]
pub struct Waiting {
    /// What the packet is ordered by.
    pub key: Key,
    /// How many bytes it has, without the header of its record.
    pub length: usize,
}
