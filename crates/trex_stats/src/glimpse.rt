// What the counts take of a record.

ghost use Rattle.std.specs.Prelude.{◌≡◌};
ghost use Rattle.trex_stats.specs.Counts.{glimpse_of, whole_stamp};

use crate::line::FlowNumber;
use trex_stamp::{Stamp, find_stamp};

/// What the counts take of a record, beside its time and how many captured bytes it has.
#[derive(Clone, Copy, Debug, PartialEq, Eq, Drop)]
pub enum Glimpse {
    /// The record counts for no flow.
    Plain,
    /// The record's packet is whole and ends in a latency header, which has this flow, this sequence number and this time in ns.
    Stamped {
        flow: FlowNumber,
        sequence: u64,
        sent: u64,
    },
}

impl Glimpse {
    /// What the counts take of a record of these captured bytes and this original length. It counts for a flow where its packet is whole
    /// and ends in a stamp.
    pub fn of(bytes: &[u8], original: u32) -> Glimpse
        ensures { result ≡ glimpse_of bytes.now original }
    {
        match whole_stamp(bytes, original) {
            Some(stamp) => Glimpse::Stamped {
                flow: stamp.flow,
                sequence: stamp.sequence,
                sent: stamp.time,
            },
            None => Glimpse::Plain,
        }
    }
}

/// The stamp at the end of the bytes, where they are the whole packet.
fn whole_stamp(bytes: &[u8], original: u32) -> Option<Stamp>
    ensures { result ≡ whole_stamp bytes.now original }
{
    if bytes.len() != original as usize {
        return None;
    }
    find_stamp(bytes)
}
