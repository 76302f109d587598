// Why a capture isn't imported.

use trex_pcap::{CaptureFault, Unfit};

/// Why a capture wasn't imported.
#[derive(Clone, Copy, Debug, PartialEq, Eq, Drop)]
pub enum ImportFault {
    /// The input could not be read.
    Read,
    /// The capture has a fault, which is never `Fault`.
    Bad(CaptureFault),
    /// The capture has no fault, and its records make no profile.
    Unfit(Unfit),
    /// The output could not be written.
    Out,
    /// Want of memory.
    Memory,
}
