// What stands at the front of bytes that are in memory, as far as they tell: the reading of records where they lie.

ghost use Rattle.std.specs.Prelude.{◌≤◌};
ghost use Rattle.trex_pcap.specs.Ahead.{IsAhead};

use crate::fault::CaptureFault;
use crate::format::Format;
use crate::headers::{RECORD_HEADER, read_head};
use crate::reader::MOST_RECORDS;
use crate::record::Record;

/// What the first bytes of the rest of a capture tell, whatever follows them.
#[derive(Clone, Copy, Debug, PartialEq, Eq, Drop)]
pub enum Ahead {
    /// A record stands there: its header takes 16 bytes, and its captured bytes stand behind the header.
    Whole(Record),
    /// This fault stands there.
    Faulty(CaptureFault),
    /// There are too few bytes to tell. If none follows, the capture ends there, or is torn where there are some.
    Short,
}

/// What stands at the front of these bytes, where so many records came before (pcap 2.4, packet record).
pub fn look_ahead(format: Format, before: u64, bytes: &[u8]) -> Ahead
    requires { before ≤ 100000000 }
    ensures { IsAhead format before bytes.now result }
{
    if bytes.is_empty() {
        return Ahead::Short;
    }
    if before == MOST_RECORDS {
        return Ahead::Faulty(CaptureFault::TooMany);
    }
    if bytes.len() < RECORD_HEADER {
        return Ahead::Short;
    }
    match read_head(format, before + 1, &bytes[..RECORD_HEADER]) {
        Ok(record) => {
            if bytes.len() - RECORD_HEADER < record.captured as usize {
                Ahead::Short
            } else {
                Ahead::Whole(record)
            }
        }
        Err(fault) => Ahead::Faulty(fault),
    }
}
