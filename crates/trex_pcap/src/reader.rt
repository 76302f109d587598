// The reader of captures: `start` reads the file header, and then `next` reads record after record while `live` says that there may be one.

ghost use Rattle.std.specs.Prelude.{◌≡◌, ◌+◌, ◌^◌, ◌<◌, ◌≤◌, true, length, IfOk, IfSome, IfNone, IsErrOf};
ghost use Rattle.std.specs.Io.KnownBytes.{IsAtEnd};
ghost use Rattle.trex_io.specs.Faults.{Rises};
ghost use Rattle.trex_pcap.specs.Following.{Begins, Follows, GoesOn};

use crate::fault::CaptureFault;
use crate::filling::fill;
use crate::format::Format;
use crate::headers::{FILE_HEADER, RECORD_HEADER, open, read_head};
use crate::record::Record;
use std::marker::Model;
use trex_io::Source;

/// The most records of a capture that is read.
pub(crate) const MOST_RECORDS: u64 = 100_000_000;

/// Reads a capture record by record from a source that gives its bytes in pieces of any size (pcap 2.4).
#[derive(Debug, Drop)]
pub struct CaptureReader {
    /// How the capture spells its numbers.
    format: Format,
    /// How many records were read.
    records: u64,
    /// Whether there may be more.
    live: bool,
}

impl Model for CaptureReader {
    ghost use Rattle.std.specs.Prelude.{◌≤◌};
    ghost use Rattle.trex_pcap.specs.Place.{Place};

    ghost Value = { Place };

    ghost view = { λ r. record { format = r.format; records = r.records; live = r.live } };

    ghost invariant = { λ r. r.records ≤ 100000000 };
}

impl CaptureReader {
    /// Reads the 24 bytes of the file header.
    pub fn start<S: Source>(source: &mut S) -> Result<CaptureReader, CaptureFault>
        ensures begins { Begins (S.left source.old) (S.left source.new) result }
        ensures live { IfOk result (λ r. (r.live ≡ true) × (r.records ≡ 0)) }
        ensures later { S.faults source.old ≤ S.faults source.new }
        ensures fault { IsErrOf result CaptureFault.Fault → Rises S.faults source.old source.new }
    {
        let mut header = [0; FILE_HEADER];
        let Ok(count) = fill(source, &mut header) else {
            return Err(CaptureFault::Fault);
        };
        if count < FILE_HEADER {
            return Err(CaptureFault::Torn { number: 0 });
        }
        let format = open(&header)?;
        Ok(CaptureReader {
            format,
            records: 0,
            live: true,
        })
    }

    /// How the capture spells its numbers.
    pub fn format(&self) -> Format
        ensures { result ≡ self.now.format }
    {
        self.format
    }

    /// Whether there may be more: after `start` and after each record, until the end or the first fault.
    pub fn live(&self) -> bool
        ensures { result ≡ self.now.live }
    {
        self.live
    }

    /// The next record, whose captured bytes are then at the front of `into`; None at the end of the capture.
    /// `Fault` comes only where the source failed, and each other fault exactly where the capture has it.
    pub fn next<S: Source>(
        &mut self,
        source: &mut S,
        into: &mut [u8],
    ) -> Result<Option<Record>, CaptureFault>
        requires live { self.old.live ≡ true }
        requires room { 262144 ≤ length into.old }
        ensures follows { Follows self.old.format self.old.records (S.left source.old) (S.left source.new) result into.new }
        ensures record { IfOk result (λ o. IfSome o (λ r. (r.number ≡ self.old.records + 1)
            × (r.number ≤ 100000000) × (r.captured ≤ 262144) × (r.time < 2 ^ 63))) }
        ensures end { IfOk result (λ o. IfNone o (IsAtEnd (S.left source.new))) }
        ensures place { GoesOn self.old self.new result }
        ensures later { S.faults source.old ≤ S.faults source.new }
        ensures fault { IsErrOf result CaptureFault.Fault → Rises S.faults source.old source.new }
    {
        self.live = false;
        let record = read_record(self.format, self.records, source, into)?;
        if let Some(record) = &record {
            self.records = record.number;
            self.live = true;
        }
        Ok(record)
    }
}

/// The record that stands at the front of what the source has left, where `before` records came before it.
fn read_record<S: Source>(
    format: Format,
    before: u64,
    source: &mut S,
    into: &mut [u8],
) -> Result<Option<Record>, CaptureFault>
    requires few { before ≤ 100000000 }
    requires room { 262144 ≤ length into.old }
    ensures follows { Follows format before (S.left source.old) (S.left source.new) result into.new }
    ensures record { IfOk result (λ o. IfSome o (λ r. (r.number ≡ before + 1)
        × (r.number ≤ 100000000) × (r.captured ≤ 262144) × (r.time < 2 ^ 63))) }
    ensures end { IfOk result (λ o. IfNone o (IsAtEnd (S.left source.new))) }
    ensures later { S.faults source.old ≤ S.faults source.new }
    ensures fault { IsErrOf result CaptureFault.Fault → Rises S.faults source.old source.new }
{
    let mut header = [0; RECORD_HEADER];
    let Ok(given) = fill(source, &mut header) else {
        return Err(CaptureFault::Fault);
    };
    if given == 0 {
        return Ok(None);
    }
    if before == MOST_RECORDS {
        return Err(CaptureFault::TooMany);
    }
    let number = before + 1;
    if given < RECORD_HEADER {
        return Err(CaptureFault::Torn { number });
    }
    let record = read_head(format, number, &header)?;
    let captured = record.captured as usize;
    let Ok(count) = fill(source, &mut into[..captured]) else {
        return Err(CaptureFault::Fault);
    };
    if count < captured {
        return Err(CaptureFault::Torn { number });
    }
    Ok(Some(record))
}

#[cfg(test)]
mod tests {
    use super::*;
    use std::alloc::{AllocError, Global};
    use std::test::Fail;
    use trex_io::MemSource;

    /// The answer to these bytes after `records` records.
    fn after(
        alloc: Global,
        records: u64,
        left: &[u8],
    ) -> Result<Result<Option<Record>, CaptureFault>, AllocError>
        requires { records ≤ 100000000 }
    {
        let mut source = MemSource::new(left.to_vec(alloc)?, 100, Vec::new(alloc));
        let mut into = [0; 262_144];
        let mut reader = CaptureReader {
            format: Format {
                big: false,
                micro: false,
            },
            records,
            live: true,
        };
        Ok(reader.next(&mut source, &mut into))
    }

    #[test]
    fn a_byte_after_the_last_record_is_too_many(rt: HostRuntime) -> Result<(), Fail> {
        let empty = Record {
            number: 100_000_000,
            time: 0,
            captured: 0,
            original: 0,
        };
        assert_eq!(rt; after(rt.alloc(), 99_999_999, &[0; 16])?, Ok(Some(empty)));
        assert_eq!(rt; after(rt.alloc(), 100_000_000, &[])?, Ok(None));
        assert_eq!(rt;
            after(rt.alloc(), 100_000_000, &[0])?,
            Err(CaptureFault::TooMany)
        );
        assert_eq!(rt;
            after(rt.alloc(), 99_999_999, &[0])?,
            Err(CaptureFault::Torn {
                number: 100_000_000
            })
        );
        Ok(())
    }
}
