// A packet that waits first at a core.

ghost use Rattle.trex_merge.specs.declared.key.Key.{Key};

use crate::key::{Key, Keyed};

/// A packet that waits, with its bytes.
#[derive(Clone, Copy, PartialEq, Eq, Debug, Drop)]
pub struct Head<'a> {
    /// Nanoseconds from the schedule's zero.
    pub time: u64,
    /// The stream's position in the profile.
    pub stream: u32,
    /// The packet's number in its stream.
    pub number: u64,
    /// The packet's bytes.
    pub bytes: &'a [u8],
}

impl<'a> Keyed for Head<'a> {
    ghost key_of = { λ h. record { time = h.time; stream = h.stream; number = h.number } };

    fn key(&self) -> Key {
        Key {
            time: self.time,
            stream: self.stream,
            number: self.number,
        }
    }
}
