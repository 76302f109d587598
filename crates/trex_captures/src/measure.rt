// The measuring of captures that come in pieces, that are cut, that have a fault at their end, and whose source fails.

ghost use Rattle.std.specs.Prelude.{◌≤◌};

use std::alloc::{AllocError, Global};
use std::test::Fail;
use trex_io::MemSource;
use trex_measure::{MeasureFault, measure};
use trex_pcap::{CaptureFault, header, record_header};
use trex_stats::{Stats, Totals};

/// What is measured of these bytes, so many a call; this call fails.
fn measured_of(
    alloc: Global,
    bytes: Vec<u8>,
    per_call: usize,
    failing: u64,
) -> Result<Result<Stats, MeasureFault>, Fail>
    requires { 1 ≤ per_call }
{
    let failing = Vec::from_slice(alloc, &[failing])?;
    let mut input = MemSource::new(bytes, per_call, failing);
    Ok(measure(alloc, &mut input))
}

/// The measuring of the first bytes of a capture of two packets, so many a call; this call fails.
fn measured(
    alloc: Global,
    length: usize,
    per_call: usize,
    failing: u64,
) -> Result<Result<Stats, MeasureFault>, Fail>
    requires { 1 ≤ per_call }
{
    let mut bytes = Vec::from_slice(alloc, &header())?;
    bytes.extend_from_slice(&record_header(7, 3))?;
    bytes.extend_from_slice(b"abc")?;
    bytes.extend_from_slice(&record_header(9, 0))?;
    bytes.truncate(length);
    measured_of(alloc, bytes, per_call, failing)
}

/// How many bytes a call gives: less than a header, a header, more, and as many as are asked for.
const PER_CALL: [usize; 5] = [1, 15, 16, 17, 65_536];

/// How many bytes the capture is cut to, and the number of the record that is torn.
const TORN: [(usize, u64); 9] = [
    (0, 0),
    (23, 0),
    (25, 1),
    (39, 1),
    (40, 1),
    (42, 1),
    (44, 2),
    (57, 2),
    (58, 2),
];

#[test]
fn a_capture_is_measured_however_it_comes(rt: HostRuntime) -> Result<(), Fail> {
    for &per_call in &PER_CALL {
        let Ok(stats) = measured(rt.alloc(), 59, per_call, 0)? else {
            return Err("no counts".into());
        };
        let totals = Totals {
            records: 2,
            bytes: 3,
            stamped: 0,
        };
        assert_eq!(rt; stats.totals(), totals);
        for &(length, number) in &TORN {
            let torn = MeasureFault::Bad(CaptureFault::Torn { number });
            assert_eq!(rt;
                measured(rt.alloc(), length, per_call, 0)?.err(),
                Some(torn)
            );
        }
    }
    for failing in 1..7 {
        assert_eq!(rt;
            measured(rt.alloc(), 59, 17, failing)?.err(),
            Some(MeasureFault::Read)
        );
    }
    Ok(())
}

#[test]
fn the_longest_record_is_measured(rt: HostRuntime) -> Result<(), Fail> {
    let mut bytes = Vec::from_slice(rt.alloc(), &header())?;
    bytes.extend_from_slice(&record_header(7, 262_144))?;
    bytes.resize(24 + 16 + 262_144, 0xff)?;
    bytes.extend_from_slice(&record_header(9, 1))?;
    bytes.push(0xff)?;
    let Ok(stats) = measured_of(rt.alloc(), bytes, 65_536, 0)? else {
        return Err("no counts".into());
    };
    let totals = Totals {
        records: 2,
        bytes: 262_145,
        stamped: 0,
    };
    assert_eq!(rt; stats.totals(), totals);
    Ok(())
}

/// A capture of 40 records of 9,999 bytes, more than the measuring holds at a time.
fn forty(alloc: Global) -> Result<Vec<u8>, AllocError> {
    let packet = vec![in alloc; 0xff; 9_999]?;
    let mut bytes = Vec::from_slice(alloc, &header())?;
    for number in 0..40 {
        bytes.extend_from_slice(&record_header(number, 9_999))?;
        bytes.extend_from_slice(&packet)?;
    }
    Ok(bytes)
}

/// How many bytes of a long capture a call gives.
const LONG_CALLS: [usize; 3] = [1, 4_096, 65_536];

#[test]
fn a_record_that_lies_over_the_end_of_the_buffer_is_measured(rt: HostRuntime) -> Result<(), Fail> {
    for &per_call in &LONG_CALLS {
        let Ok(stats) = measured_of(rt.alloc(), forty(rt.alloc())?, per_call, 0)? else {
            return Err("no counts".into());
        };
        let totals = Totals {
            records: 40,
            bytes: 399_960,
            stamped: 0,
        };
        assert_eq!(rt; stats.totals(), totals, "{per_call} bytes a call");
    }
    Ok(())
}

/// A record header of a fraction of a whole second, and one of 262,145 bytes.
const WHOLE_SECOND: [u8; 16] = [1, 0, 0, 0, 0x00, 0xca, 0x9a, 0x3b, 0, 0, 0, 0, 0, 0, 0, 0];

const TOO_LONG: [u8; 16] = [1, 0, 0, 0, 0, 0, 0, 0, 1, 0, 4, 0, 1, 0, 4, 0];

/// A record header behind 40 records, the fault of it, and how many bytes a call gives.
const FAULTY: [(&[u8; 16], CaptureFault, usize); 4] = [
    (&WHOLE_SECOND, FRACTION, 1),
    (&WHOLE_SECOND, FRACTION, 65_536),
    (&TOO_LONG, LENGTH, 4_096),
    (&TOO_LONG, LENGTH, 65_536),
];

const FRACTION: CaptureFault = CaptureFault::BadFraction { number: 41 };

const LENGTH: CaptureFault = CaptureFault::BadLength { number: 41 };

#[test]
fn a_faulty_header_is_found_at_the_end_of_a_capture(rt: HostRuntime) -> Result<(), Fail> {
    for &(head, fault, per_call) in &FAULTY {
        assert!(rt; 1 <= per_call);
        let mut bytes = forty(rt.alloc())?;
        bytes.extend_from_slice(head)?;
        assert_eq!(rt;
            measured_of(rt.alloc(), bytes, per_call, 0)?.err(),
            Some(MeasureFault::Bad(fault)),
            "{per_call} bytes a call"
        );
    }
    Ok(())
}
