// A packet of the schedule.

use trex_merge::{Key, Keyed};

/// One packet of the schedule.
#[derive(Clone, Copy, Debug, PartialEq, Eq)]
pub struct Slot {
    /// Nanoseconds from the schedule's zero.
    pub time: u64,
    /// The stream's position in the profile.
    pub stream: u32,
    /// The packet's number in its stream, over all visits, from 0.
    pub number: u64,
    /// The packet's place in its run, from 0.
    pub in_run: u64,
}

impl Keyed for Slot {
    ghost use Rattle.trex_sched.specs.Entries.{key_of as slot_key};

    ghost key_of = { slot_key };

    fn key(&self) -> Key {
        Key {
            time: self.time,
            stream: self.stream,
            number: self.number,
        }
    }
}
