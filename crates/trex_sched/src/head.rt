// The heads of many walks, and their order.

ghost use Rattle.std.specs.Prelude.{◌≡◌};
ghost use Rattle.trex_sched.specs.Heads.{head_of};

use crate::Slot;

/// Where a walk stands: what its next packet is ordered by, and the walk's place among the others. Packets of two walks have different
/// streams, so it needs no number.
#[derive(Clone, Copy, Debug, PartialEq, Eq, PartialOrd, Ord)]
pub(crate) struct Head {
    pub(crate) time: u64,
    pub(crate) stream: u32,
    pub(crate) place: u32,
}

impl Head {
    /// The head of the walk at a place whose next packet is the slot.
    pub(crate) fn new(slot: &Slot, place: u32) -> Head
        ensures { result ≡ head_of slot.now place }
    {
        Head {
            time: slot.time,
            stream: slot.stream,
            place,
        }
    }
}
