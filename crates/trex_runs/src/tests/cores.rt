//! Runs that fill batches and pieces, on one core and on several.

use super::{Made, assert_left, run_open};
use crate::memory::{Ends, Ran};
use std::alloc::Global;
use std::process::Abort;
use std::test::Fail;
use std::thread::Threads;
use trex_top::Status;

/// A run by its words without the number of cores, with the length of its capture, the headers of some records and the places where they stand,
/// and its report.
struct Case<'a> {
    profile: Made<'a>,
    words: &'a str,
    length: usize,
    records: [(usize, &'a [u8; 16]); 3],
    notes: &'a [u8],
}

/// Bursts of 3,000 packets of 14 bytes, a nanosecond each and 1 ns apart.
const BURSTS: Made<'static> = Made {
    begin: r#"[{"stream_id":1,"stream":{"packet":{"binary":"AgAAAAACAgAAAAABiLU="},"mode":{"type":"multi_burst","pkts_per_burst":3000,"count":0,"ibg":0.001,"rate":{"type":"pps","value":1000000000}}}}]"#,
    piece: "",
    count: 0,
    end: "",
};

/// A stream that follows itself 1 ns after each visit of 1,500 packets of 14 bytes, a nanosecond each.
const VISITS: Made<'static> = Made {
    begin: r#"[{"stream_id":1,"stream":{"isg":0.001,"next_stream_id":1,"packet":{"binary":"AgAAAAACAgAAAAABiLU="},"mode":{"type":"single_burst","total_pkts":1500,"rate":{"type":"pps","value":1000000000}}}}]"#,
    piece: "",
    count: 0,
    end: "",
};

/// A stream of 14-byte packets, a nanosecond each, and behind it one of 15-byte packets, two nanoseconds each.
const TIES: Made<'static> = Made {
    begin: r#"[{"stream_id":9,"stream":{"packet":{"binary":"AgAAAAACAgAAAAABiLU="},"mode":{"type":"continuous","rate":{"type":"pps","value":1000000000}}}},{"stream_id":2,"stream":{"packet":{"binary":"AgAAAAACAgAAAAABiLUH"},"mode":{"type":"continuous","rate":{"type":"pps","value":500000000}}}}]"#,
    piece: "",
    count: 0,
    end: "",
};

/// A stream of packets of 9,216 zero bytes, a microsecond each: a batch holds 113 of them.
const LONGEST: Made<'static> = Made {
    begin: r#"[{"stream_id":1,"stream":{"packet":{"binary":""#,
    piece: "AAAA",
    count: 3_072,
    end: r#""},"mode":{"type":"continuous","rate":{"type":"pps","value":1000000}}}}]"#,
};

/// A stream of packets of 8,173 zero bytes, a nanosecond each: the file header and eight records are 65,536 bytes.
const EIGHTHS: Made<'static> = Made {
    begin: r#"[{"stream_id":1,"stream":{"packet":{"binary":""#,
    piece: "AAAA",
    count: 2_724,
    end: r#"AA=="},"mode":{"type":"continuous","rate":{"type":"pps","value":1000000000}}}}]"#,
};

// Lengths, places and times were worked out by hand from docs/MEANING.md, the headers from pcap 2.4. A batch holds 4,096 packets.
const CASES: [Case<'static>; 6] = [
    Case {
        profile: BURSTS,
        words: "run --limit 5000 --cores ",
        length: 150_024,
        records: [
            (89_994, b"\0\0\0\0\xb7\x0b\0\0\x0e\0\0\0\x0e\0\0\0"),
            (90_024, b"\0\0\0\0\xb9\x0b\0\0\x0e\0\0\0\x0e\0\0\0"),
            (149_994, b"\0\0\0\0\x88\x13\0\0\x0e\0\0\0\x0e\0\0\0"),
        ],
        notes: b"stream 1 packets 5000 bytes 70000\ntotal packets 5000 bytes 70000\n",
    },
    Case {
        profile: BURSTS,
        words: "run --duration 5000 --cores ",
        length: 149_994,
        records: [
            (89_994, b"\0\0\0\0\xb7\x0b\0\0\x0e\0\0\0\x0e\0\0\0"),
            (90_024, b"\0\0\0\0\xb9\x0b\0\0\x0e\0\0\0\x0e\0\0\0"),
            (149_964, b"\0\0\0\0\x87\x13\0\0\x0e\0\0\0\x0e\0\0\0"),
        ],
        notes: b"stream 1 packets 4999 bytes 69986\ntotal packets 4999 bytes 69986\n",
    },
    Case {
        profile: VISITS,
        words: "run --limit 4000 --cores ",
        length: 120_024,
        records: [
            (44_994, b"\0\0\0\0\xdc\x05\0\0\x0e\0\0\0\x0e\0\0\0"),
            (45_024, b"\0\0\0\0\xde\x05\0\0\x0e\0\0\0\x0e\0\0\0"),
            (119_994, b"\0\0\0\0\xa2\x0f\0\0\x0e\0\0\0\x0e\0\0\0"),
        ],
        notes: b"stream 1 packets 4000 bytes 56000\ntotal packets 4000 bytes 56000\n",
    },
    Case {
        profile: TIES,
        words: "run --limit 7498 --cores ",
        length: 227_463,
        records: [
            (115, b"\0\0\0\0\x02\0\0\0\x0e\0\0\0\x0e\0\0\0"),
            (145, b"\0\0\0\0\x02\0\0\0\x0f\0\0\0\x0f\0\0\0"),
            (227_433, b"\0\0\0\0\x86\x13\0\0\x0e\0\0\0\x0e\0\0\0"),
        ],
        notes: b"stream 9 packets 4999 bytes 69986\nstream 2 packets 2499 bytes 37485\ntotal packets 7498 bytes 107471\n",
    },
    Case {
        profile: LONGEST,
        words: "run --limit 120 --cores ",
        length: 1_107_864,
        records: [
            (24, b"\0\0\0\0\0\0\0\0\0\x24\0\0\0\x24\0\0"),
            (1_043_240, b"\0\0\0\0\x68\xb9\x01\0\0\x24\0\0\0\x24\0\0"),
            (1_098_632, b"\0\0\0\0\xd8\xd0\x01\0\0\x24\0\0\0\x24\0\0"),
        ],
        notes: b"stream 1 packets 120 bytes 1105920\ntotal packets 120 bytes 1105920\n",
    },
    Case {
        profile: EIGHTHS,
        words: "run --limit 17 --cores ",
        length: 139_237,
        records: [
            (24, b"\0\0\0\0\0\0\0\0\xed\x1f\0\0\xed\x1f\0\0"),
            (65_536, b"\0\0\0\0\x08\0\0\0\xed\x1f\0\0\xed\x1f\0\0"),
            (131_048, b"\0\0\0\0\x10\0\0\0\xed\x1f\0\0\xed\x1f\0\0"),
        ],
        notes: b"stream 1 packets 17 bytes 138941\ntotal packets 17 bytes 138941\n",
    },
];

/// Numbers of cores, and how many bytes a call of the output takes.
const CORES: [(&str, usize); 3] = [("2", 65_536), ("3", 10_000), ("7", 65_536)];

/// Runs these words on so many cores.
fn run_on<R: Threads + Sync>(
    rt: &R,
    alloc: Global,
    profile: Made<'_>,
    words: &str,
    cores: &str,
    ends: &Ends,
) -> Result<Ran, Fail> {
    let text = profile.text(alloc)?;
    let mut line = String::from_str(alloc, words)?;
    line.push_str(cores)?;
    run_open(rt, alloc, line.as_str(), text.as_bytes(), ends)
}

/// Ends of so many bytes a call, with room for the longest capture of the cases.
fn ends_of(per_call: usize) -> Ends {
    Ends {
        per_call,
        room: 1_200_000,
        ..Ends::WIDE
    }
}

/// Looks at what a case leaves on one core, and that each of the other numbers leaves the same.
fn assert_case<R: Abort + Threads + Sync>(
    rt: &R,
    alloc: Global,
    case: &Case<'_>,
) -> Result<(), Fail> {
    let one = run_on(rt, alloc, case.profile, case.words, "1", &ends_of(65_536))?;
    assert_eq!(rt; one.status, Status::Done);
    assert_eq!(rt; one.notes.bytes(), case.notes);
    assert_eq!(rt; one.out.bytes().len(), case.length);
    for &(place, header) in &case.records {
        let there = one.out.bytes().get(place..place.saturating_add(16));
        assert_eq!(rt; there, Some(header.as_slice()));
    }
    for &(cores, per_call) in &CORES {
        let ends = ends_of(per_call);
        let ran = run_on(rt, alloc, case.profile, case.words, cores, &ends)?;
        assert_left(rt, &ran, Status::Done, one.out.bytes(), case.notes);
    }
    Ok(())
}

#[test]
fn any_number_of_cores_leaves_the_same(rt: HostRuntime) -> Result<(), Fail> {
    for case in &CASES {
        assert_case(&rt, rt.alloc(), case)?;
    }
    Ok(())
}

#[test]
fn a_tie_ends_a_run_of_64_cores(rt: HostRuntime) -> Result<(), Fail> {
    let alloc = rt.alloc();
    let words = "run --limit 7498 --cores ";
    let one = run_on(&rt, alloc, TIES, words, "1", &ends_of(65_536))?;
    let all = run_on(&rt, alloc, TIES, words, "64", &ends_of(10))?;
    assert_eq!(rt; one.out.bytes().len(), 227_463);
    assert_left(&rt, &all, Status::Done, one.out.bytes(), one.notes.bytes());
    Ok(())
}

/// How much an output takes before it is full, on how many cores, and how much a call takes: the file header, pieces and the whole, and a byte
/// less or more.
const ROOMS: [(usize, &str, usize); 8] = [
    (0, "1", 65_536),
    (23, "3", 10),
    (24, "1", 65_536),
    (25, "3", 65_536),
    (65_535, "1", 65_536),
    (65_536, "3", 1),
    (65_537, "1", 10_000),
    (139_236, "3", 65_536),
];

#[test]
fn a_full_output_keeps_the_beginning(rt: HostRuntime) -> Result<(), Fail> {
    let alloc = rt.alloc();
    let words = "run --limit 17 --cores ";
    let whole = run_on(&rt, alloc, EIGHTHS, words, "1", &ends_of(65_536))?;
    assert_eq!(rt; whole.status, Status::Done);
    for &(room, cores, per_call) in &ROOMS {
        let ends = Ends {
            per_call,
            room,
            ..Ends::WIDE
        };
        let ran = run_on(&rt, alloc, EIGHTHS, words, cores, &ends)?;
        let kept = whole.out.bytes().get(..room).ok_or("too long")?;
        assert_left(&rt, &ran, Status::OutFault, kept, b"write fault\n");
    }
    Ok(())
}
