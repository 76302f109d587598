//! Imports that no line of data can hold: calls that fail, each in turn, and the longest texts.

use super::*;
use std::process::Abort;
use trex_import::ImportFault;
use trex_pcap::{Unfit, header, record_header};

/// Three packets of 14 bytes, a third of a second apart (pcap 2.4).
const THIRDS: &[u8; 114] = b"\x4d\x3c\xb2\xa1\x02\0\x04\0\0\0\0\0\0\0\0\0\0\0\x04\0\x01\0\0\0\
\0\0\0\0\0\0\0\0\x0e\0\0\0\x0e\0\0\0\x02\0\0\0\0\x02\x02\0\0\0\0\x01\x88\xb5\
\0\0\0\0\x55\x43\xde\x13\x0e\0\0\0\x0e\0\0\0\x02\0\0\0\0\x02\x02\0\0\0\0\x01\x88\xb5\
\0\0\0\0\xaa\x86\xbc\x27\x0e\0\0\0\x0e\0\0\0\x02\0\0\0\0\x02\x02\0\0\0\0\x01\x88\xb5";

/// Their text.
const TEXT: &[u8] =
    br#"[{"stream":{"isg":"0.000","mode":{"rate":{"type":"pps","value":"1000000000"},"total_pkts":"1","type":"single_burst"},"packet":{"binary":"AgAAAAACAgAAAAABiLU="}},"stream_id":"1"},{"stream":{"isg":"333333.333","mode":{"rate":{"type":"pps","value":"1000000000"},"total_pkts":"1","type":"single_burst"},"packet":{"binary":"AgAAAAACAgAAAAABiLU="}},"stream_id":"2"},{"stream":{"isg":"666666.666","mode":{"rate":{"type":"pps","value":"1000000000"},"total_pkts":"1","type":"single_burst"},"packet":{"binary":"AgAAAAACAgAAAAABiLU="}},"stream_id":"3"}]"#;

/// Ten bytes a call, and room for the text.
const TENS: Ends = Ends {
    room: TEXT.len(),
    ..Ends::WIDE
};

/// Looks at what an import left.
fn assert_left(rt: &impl Abort, left: &Imported, answer: Result<(), ImportFault>, text: &[u8]) {
    assert_eq!(rt; left.answer, answer);
    assert_eq!(rt; left.out.bytes(), text);
}

#[test]
fn whichever_read_fails_nothing_is_written(rt: HostRuntime) -> Result<(), Fail> {
    // One read more than there are bytes, since the end is read too.
    for failing_read in 1..=115 {
        let ends = Ends {
            per_call: 1,
            failing_read,
            ..TENS
        };
        let left = run_import(rt.alloc(), THIRDS, &ends)?;
        assert_left(&rt, &left, Err(ImportFault::Read), b"");
    }
    let left = run_import(rt.alloc(), THIRDS, &TENS)?;
    assert_left(&rt, &left, Ok(()), TEXT);
    Ok(())
}

#[test]
fn whichever_write_fails_the_text_before_it_stands(rt: HostRuntime) -> Result<(), Fail> {
    for call in 0..55 {
        let written = call * 10;
        let failing = Ends {
            failing_write: call as u64 + 1,
            ..TENS
        };
        let full = Ends {
            room: written + 1,
            ..TENS
        };
        let left = run_import(rt.alloc(), THIRDS, &failing)?;
        assert_left(&rt, &left, Err(ImportFault::Out), &TEXT[..written]);
        let left = run_import(rt.alloc(), THIRDS, &full)?;
        assert_left(&rt, &left, Err(ImportFault::Out), &TEXT[..written + 1]);
    }
    Ok(())
}

/// Adds a record of a packet, at a time in ns.
fn add_record(capture: &mut Vec<u8>, time: u32, packet: &[u8]) -> Result<(), Fail> {
    let length = u32::try_from(packet.len())?;
    capture.extend_from_slice(&record_header(u64::from(time), length))?;
    capture.extend_from_slice(packet)?;
    Ok(())
}

/// A capture of 2,695 records of 9,216 bytes at 0, and one of 6,012 bytes at this time.
fn long_capture(alloc: Global, last: u32) -> Result<Vec<u8>, Fail> {
    let mut capture = Vec::from_slice(alloc, &header())?;
    for _ in 0..2695 {
        add_record(&mut capture, 0, &[0x5a; 9216])?;
    }
    add_record(&mut capture, last, &[0x5a; 6012])?;
    Ok(capture)
}

/// The lengths and the digest were worked out by a program of its own in Python: the last entry's gap is 999.999 or 1000.000.
#[test]
fn a_text_of_33554432_bytes_is_the_longest(rt: HostRuntime) -> Result<(), Fail> {
    let alloc = rt.alloc();
    let ends = Ends {
        per_call: 65_536,
        room: 33_554_432,
        ..Ends::WIDE
    };
    let fits = run_import(alloc, &long_capture(alloc, 999_999)?, &ends)?;
    assert_eq!(rt;
        shown(alloc, &fits)?.as_str(),
        "Ok(())\t33554432 bytes 6c189c791cb9bc6a565484b5952d101f"
    );
    let unfit = run_import(alloc, &long_capture(alloc, 1_000_000)?, &ends)?;
    assert_left(&rt, &unfit, Err(ImportFault::Unfit(Unfit::TooLarge)), b"");
    Ok(())
}
