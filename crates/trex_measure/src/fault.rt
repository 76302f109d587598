// Why a capture wasn't measured.

ghost use Rattle.std.specs.Prelude.{◌≡◌};
ghost use Rattle.trex_measure.specs.Measured.{measure_fault};

use trex_pcap::CaptureFault;

/// Why a capture wasn't measured.
#[derive(Clone, Copy, Debug, PartialEq, Eq, Drop)]
pub enum MeasureFault {
    /// The source failed.
    Read,
    /// The capture has a fault, which is never `Fault`.
    Bad(CaptureFault),
    /// Out of memory.
    Memory,
}

/// What a reader's fault is to the measuring.
pub(crate) fn measure_fault(fault: CaptureFault) -> MeasureFault
    ensures { result ≡ measure_fault fault }
{
    match fault {
        CaptureFault::Fault => MeasureFault::Read,
        _ => MeasureFault::Bad(fault),
    }
}
