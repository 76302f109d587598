// The rules on one record.

ghost use Rattle.std.specs.Prelude.{◌≡◌, length};
ghost use Rattle.trex_import.specs.Fit.{record_unfit};

use trex_pcap::Unfit;

/// The most streams of a profile.
const MOST_RECORDS: u64 = 4096;

/// The least and the most bytes of a stream's packet.
const SHORTEST_PACKET: usize = 14;

const LONGEST_PACKET: usize = 9216;

/// A time, in ns from the first record, that no gap of a stream reaches: 10^18.
const TIME_LIMIT: u64 = 1_000_000_000_000_000_000;

/// Where a record stands among the others of its capture.
#[derive(Clone, Copy, Drop)]
pub(crate) struct Place {
    /// The time of the first record, in ns.
    pub(crate) start: u64,
    /// The time of the record before it, in ns; of the first record, its own.
    pub(crate) before: u64,
    /// Which record it is, from 1.
    pub(crate) number: u64,
}

/// The first rule that a record breaks at its place.
#[tactic(auto, unfolding(crate::specs::Fit::record_unfit))]
pub(crate) fn record_unfit(place: Place, time: u64, bytes: &[u8], original: u32) -> Option<Unfit>
    ensures { result ≡ record_unfit place.start place.before place.number
        (record { time = time; bytes = bytes.now; original = original }) }
{
    let number = place.number;
    if number > MOST_RECORDS {
        Some(Unfit::Count { number })
    } else if bytes.len() < SHORTEST_PACKET || bytes.len() > LONGEST_PACKET {
        Some(Unfit::Length { number })
    } else if bytes.len() != original as usize {
        Some(Unfit::Cut { number })
    } else if time < place.before {
        Some(Unfit::Backwards { number })
    } else if time.saturating_sub(place.start) >= TIME_LIMIT {
        Some(Unfit::Late { number })
    } else {
        None
    }
}
