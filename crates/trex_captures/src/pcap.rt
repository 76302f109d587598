// The headers that are written, and captures that are cut, damaged, in either byte order, and from a source that fails. Their bytes are spelled
// out here after pcap 2.4.

ghost use Rattle.std.specs.Prelude.{◌≤◌};

use std::alloc::{AllocError, Global};
use std::test::Fail;
use trex_io::MemSource;
use trex_pcap::{
    Ahead, CaptureFault, CaptureReader, Format, Record, header, look_ahead, record_header,
};

#[test]
fn the_file_header_is_little_endian_in_nanoseconds(rt: HostRuntime) -> Result<(), Fail> {
    let wanted = [
        0x4d, 0x3c, 0xb2, 0xa1, 2, 0, 4, 0, 0, 0, 0, 0, 0, 0, 0, 0, 0, 0, 4, 0, 1, 0, 0, 0,
    ];
    assert_eq!(rt; header().as_slice(), wanted.as_slice());
    Ok(())
}

#[test]
fn a_record_header_has_seconds_and_nanoseconds(rt: HostRuntime) -> Result<(), Fail> {
    let wanted = [1, 0, 0, 0, 0x55, 0x43, 0xde, 0x13, 14, 0, 0, 0, 14, 0, 0, 0];
    assert_eq!(rt;
        record_header(1_333_333_333, 14).as_slice(),
        wanted.as_slice()
    );
    Ok(())
}

/// A capture of two records of 16 bytes: little-endian, nanoseconds.
const TWO: [u8; 88] = [
    0x4d, 0x3c, 0xb2, 0xa1, 2, 0, 4, 0, 0, 0, 0, 0, 0, 0, 0, 0, 0, 0, 4, 0, 1, 0, 0, 0, // file header
    0, 0, 0, 0, 0, 0, 0, 0, 16, 0, 0, 0, 16, 0, 0, 0, // at 0
    0xab, 1, 0, 0, 0, 0, 0, 0, 0, 0, 0, 0, 0, 0, 0, 0, // 16 bytes
    1, 0, 0, 0, 2, 0, 0, 0, 16, 0, 0, 0, 16, 0, 0, 0, // at 1,000,000,002
    0xab, 1, 0, 0, 0, 0, 0, 1, 0, 0, 0, 0, 0, 0, 0, 0, // 16 bytes
];

/// A capture of one empty record, at one second and 999,999 fractions, with the highest byte of each number first. The magic number is
/// put in by the test.
const BIG: [u8; 40] = [
    0, 0, 0, 0, 0, 2, 0, 4, 0, 0, 0, 0, 0, 0, 0, 0, 0, 0, 0xff, 0xff, 0, 0, 0, 1, // file header
    0, 0, 0, 1, 0, 0x0f, 0x42, 0x3f, 0, 0, 0, 0, 0, 0, 0, 14,
];

/// The same capture with the lowest byte of each number first.
const LITTLE: [u8; 40] = [
    0, 0, 0, 0, 2, 0, 4, 0, 0, 0, 0, 0, 0, 0, 0, 0, 0xff, 0xff, 0, 0, 1, 0, 0, 0, // file header
    1, 0, 0, 0, 0x3f, 0x42, 0x0f, 0, 0, 0, 0, 0, 14, 0, 0, 0,
];

/// Five records at 1 s and 1 to 5 us in a capture of microseconds; their bytes have the numbers 0, 2, 1, 2, 5.
const FIVE: [u8; 184] = [
    0xa1, 0xb2, 0xc3, 0xd4, 0, 2, 0, 4, 0, 0, 0, 0, 0, 0, 0, 0, 0, 0, 0xff, 0xff, 0, 0, 0, 1, //
    0, 0, 0, 1, 0, 0, 0, 1, 0, 0, 0, 16, 0, 0, 0, 16, //
    0xab, 1, 0, 7, 0, 0, 0, 0, 0, 0, 0, 0, 0x3b, 0x9a, 0xca, 0, //
    0, 0, 0, 1, 0, 0, 0, 2, 0, 0, 0, 16, 0, 0, 0, 16, //
    0xab, 1, 0, 7, 0, 0, 0, 2, 0, 0, 0, 0, 0x3b, 0x9a, 0xca, 0, //
    0, 0, 0, 1, 0, 0, 0, 3, 0, 0, 0, 16, 0, 0, 0, 16, //
    0xab, 1, 0, 7, 0, 0, 0, 1, 0, 0, 0, 0, 0x3b, 0x9a, 0xca, 0, //
    0, 0, 0, 1, 0, 0, 0, 4, 0, 0, 0, 16, 0, 0, 0, 16, //
    0xab, 1, 0, 7, 0, 0, 0, 2, 0, 0, 0, 0, 0x3b, 0x9a, 0xca, 0, //
    0, 0, 0, 1, 0, 0, 0, 5, 0, 0, 0, 16, 0, 0, 0, 16, //
    0xab, 1, 0, 7, 0, 0, 0, 5, 0, 0, 0, 0, 0x3b, 0x9a, 0xca, 0,
];

/// What a reader gave: the records, their captured bytes in a row, and its fault.
#[derive(Drop)]
struct Reading {
    records: Vec<Record>,
    bytes: Vec<u8>,
    fault: Option<CaptureFault>,
}

/// Reads up to ten records of a capture, from a source that fails at these calls.
fn read(alloc: Global, text: &[u8], per_call: usize, failing: &[u64]) -> Result<Reading, AllocError>
    requires { 1 ≤ per_call }
{
    let mut source = MemSource::new(text.to_vec(alloc)?, per_call, failing.to_vec(alloc)?);
    let mut into = [0; 262_144];
    let mut records = Vec::new(alloc);
    let mut bytes = Vec::new(alloc);
    let mut fault = None;
    match CaptureReader::start(&mut source) {
        Err(found) => fault = Some(found),
        Ok(mut reader) => {
            for _ in 0..10 {
                if !reader.live() {
                    break;
                }
                match reader.next(&mut source, &mut into) {
                    Ok(Some(record)) => {
                        records.push(record)?;
                        bytes.extend_from_slice(&into[..record.captured as usize])?;
                    }
                    Ok(None) => {}
                    Err(found) => fault = Some(found),
                }
            }
        }
    }
    Ok(Reading {
        records,
        bytes,
        fault,
    })
}

/// No fault, with its type.
const NONE: Option<CaptureFault> = None;

#[test]
fn any_cut_of_the_source_gives_the_same_records(rt: HostRuntime) -> Result<(), Fail> {
    for per_call in [1, 3, 1_000] {
        let reading = read(rt.alloc(), &FIVE, per_call, &[])?;
        assert_eq!(rt; reading.fault, NONE);
        assert_eq!(rt; reading.records.len(), 5);
        for (place, record) in reading.records.iter().enumerate() {
            let at = place as u64 + 1;
            assert_eq!(rt;
                *record,
                Record {
                    number: at,
                    time: 1_000_000_000 + at * 1_000,
                    captured: 16,
                    original: 16
                }
            );
        }
        assert_eq!(rt; reading.bytes.len(), 80);
        for (place, number) in [0, 2, 1, 2, 5].iter().enumerate() {
            assert_eq!(rt; reading.bytes[16 * place + 7], *number);
        }
        let torn = read(rt.alloc(), &FIVE[..183], per_call, &[])?;
        assert_eq!(rt; torn.fault, Some(CaptureFault::Torn { number: 5 }));
        assert_eq!(rt; torn.records.len(), 4);
    }
    Ok(())
}

/// To how many bytes the capture of two records is cut, how many records are then read, and the record that is torn.
const CUTS: [(usize, usize, Option<u64>); 13] = [
    (0, 0, Some(0)),
    (23, 0, Some(0)),
    (24, 0, None),
    (25, 0, Some(1)),
    (39, 0, Some(1)),
    (40, 0, Some(1)),
    (55, 0, Some(1)),
    (56, 1, None),
    (57, 1, Some(2)),
    (71, 1, Some(2)),
    (72, 1, Some(2)),
    (87, 1, Some(2)),
    (88, 2, None),
];

#[test]
fn a_capture_is_torn_inside_its_header_and_inside_each_record(rt: HostRuntime) -> Result<(), Fail> {
    for &(length, records, fault) in &CUTS {
        let reading = read(rt.alloc(), TWO.get(..length).ok_or("too long")?, 7, &[])?;
        let torn = fault.map(|number| CaptureFault::Torn { number });
        assert_eq!(rt; reading.fault, torn, "{length} bytes");
        assert_eq!(rt; reading.records.len(), records, "{length} bytes");
    }
    Ok(())
}

/// A place in the capture of two records, four bytes that stand there instead, how many records are then read, and the fault.
#[derive(Clone, Copy, Drop)]
struct Row(usize, [u8; 4], usize, Option<CaptureFault>);

/// The fraction of a whole second.
const SECOND: [u8; 4] = [0x00, 0xca, 0x9a, 0x3b];

const FRACTION_1: Option<CaptureFault> = Some(CaptureFault::BadFraction { number: 1 });

const FRACTION_2: Option<CaptureFault> = Some(CaptureFault::BadFraction { number: 2 });

const LENGTH_1: Option<CaptureFault> = Some(CaptureFault::BadLength { number: 1 });

const LENGTH_2: Option<CaptureFault> = Some(CaptureFault::BadLength { number: 2 });

const TORN_2: Option<CaptureFault> = Some(CaptureFault::Torn { number: 2 });

const ROWS: [Row; 17] = [
    Row(0, [0, 0x3c, 0xb2, 0xa1], 0, Some(CaptureFault::BadMagic)),
    Row(0, [0x4d, 0x3c, 0xb2, 0xa2], 0, Some(CaptureFault::BadMagic)),
    Row(4, [3, 0, 4, 0], 0, Some(CaptureFault::BadVersion)),
    Row(4, [2, 0, 4, 1], 0, Some(CaptureFault::BadVersion)),
    Row(20, [0, 0, 0, 0], 0, Some(CaptureFault::BadLink)),
    Row(20, [1, 0, 0, 0x10], 0, Some(CaptureFault::BadLink)),
    Row(16, [0, 0, 0, 0], 2, None),
    Row(28, SECOND, 0, FRACTION_1),
    Row(28, [0xff; 4], 0, FRACTION_1),
    Row(60, SECOND, 1, FRACTION_2),
    Row(60, [0xff, 0xc9, 0x9a, 0x3b], 2, None),
    Row(32, [1, 0, 4, 0], 0, LENGTH_1),
    Row(32, [0xff; 4], 0, LENGTH_1),
    Row(64, [1, 0, 4, 0], 1, LENGTH_2),
    Row(64, [0, 0, 4, 0], 1, TORN_2),
    Row(64, [17, 0, 0, 0], 1, TORN_2),
    Row(36, [15, 0, 0, 0], 2, None),
];

/// The capture of two records with four other bytes at a place.
fn changed(place: usize, bytes: &[u8; 4]) -> Result<[u8; 88], Fail> {
    let mut text = TWO;
    let rest = text.get_mut(place..).ok_or("too far")?;
    rest.get_mut(..4).ok_or("too far")?.copy_from_slice(bytes);
    Ok(text)
}

#[test]
fn each_fault_is_found_where_it_stands(rt: HostRuntime) -> Result<(), Fail> {
    for Row(place, bytes, records, fault) in &ROWS {
        let text = changed(*place, bytes)?;
        let reading = read(rt.alloc(), &text, 1_000, &[])?;
        assert_eq!(rt; reading.fault, *fault, "{bytes:?} at {place}");
        assert_eq!(rt; reading.records.len(), *records, "{bytes:?} at {place}");
    }
    Ok(())
}

/// A capture of one record, its magic number, and the record's time.
const MAGICS: [(&[u8; 40], [u8; 4], u64); 4] = [
    (&BIG, [0xa1, 0xb2, 0xc3, 0xd4], 1_999_999_000),
    (&BIG, [0xa1, 0xb2, 0x3c, 0x4d], 1_000_999_999),
    (&LITTLE, [0xd4, 0xc3, 0xb2, 0xa1], 1_999_999_000),
    (&LITTLE, [0x4d, 0x3c, 0xb2, 0xa1], 1_000_999_999),
];

#[test]
fn both_magic_numbers_are_read_in_both_orders(rt: HostRuntime) -> Result<(), Fail> {
    for &(text, magic, time) in &MAGICS {
        let mut text = *text;
        text[..4].copy_from_slice(&magic);
        let reading = read(rt.alloc(), &text, 5, &[])?;
        assert_eq!(rt; reading.fault, NONE);
        let wanted = [Record {
            number: 1,
            time,
            captured: 0,
            original: 14,
        }];
        assert_eq!(rt; reading.records.as_slice(), wanted.as_slice());
    }
    let mut text = BIG;
    text[..4].copy_from_slice(&[0xa1, 0xb2, 0xc3, 0xd4]);
    text[28..32].copy_from_slice(&[0, 0x0f, 0x42, 0x40]);
    let late = read(rt.alloc(), &text, 5, &[])?;
    assert_eq!(rt; late.fault, FRACTION_1);
    Ok(())
}

#[test]
fn whichever_call_of_the_source_fails_is_the_fault(rt: HostRuntime) -> Result<(), Fail> {
    // Calls of 8 bytes: three for the file header, two for each header, two for each record's bytes, one at the end.
    for call in 1..=12 {
        let reading = read(rt.alloc(), &TWO, 8, &[call])?;
        assert_eq!(rt; reading.fault, Some(CaptureFault::Fault), "call {call}");
    }
    assert_eq!(rt; read(rt.alloc(), &TWO, 8, &[13])?.fault, NONE);
    Ok(())
}

/// How many of the bytes behind a file header are there, how many records came before, and what the bytes tell.
const AHEAD: [(usize, u64, Ahead); 10] = [
    (0, 0, Ahead::Short),
    (15, 0, Ahead::Short),
    (31, 0, Ahead::Short),
    (32, 0, Ahead::Whole(FIRST)),
    (64, 0, Ahead::Whole(FIRST)),
    (0, 100_000_000, Ahead::Short),
    (1, 100_000_000, Ahead::Faulty(CaptureFault::TooMany)),
    (1, 99_999_999, Ahead::Short),
    (15, 99_999_999, Ahead::Short),
    (32, 99_999_999, Ahead::Whole(LAST)),
];

/// The first record of `TWO`.
const FIRST: Record = Record {
    number: 1,
    time: 0,
    captured: 16,
    original: 16,
};

/// The same record as the last one that there may be.
const LAST: Record = Record {
    number: 100_000_000,
    ..FIRST
};

#[test]
fn bytes_tell_of_their_front_what_they_can(rt: HostRuntime) -> Result<(), Fail> {
    let format = Format {
        big: false,
        micro: false,
    };
    for &(length, before, ahead) in &AHEAD {
        let bytes = &TWO[24..24 + length.min(64)];
        let before = before.min(100_000_000);
        assert_eq!(rt; look_ahead(format, before, bytes), ahead, "{length}");
    }
    Ok(())
}
