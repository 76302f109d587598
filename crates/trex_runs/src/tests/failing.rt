//! Reads and writes that fail, each call in turn, and an output that is full.

use super::{CAPTURE, REPORT, THIRDS, assert_left, run_open};
use crate::memory::Ends;
use std::alloc::Global;
use std::process::Abort;
use std::test::Fail;
use std::thread::Threads;
use trex_top::Status;

/// A byte a call, and room for what the cases write.
const BYTEWISE: Ends = Ends {
    per_call: 1,
    room: 20_000,
    ..Ends::WIDE
};

/// A profile with names that nothing reads.
const MORE_NAMES: &[u8] =
    br#"[{"handler":"x","api_h":"y","port_id":0,"stream_id":1,"stream":{"enabled":true,"self_start":true,"isg":0.0,"next_stream_id":-1,"flags":3,"action_count":0,"random_seed":0,"core_id":-1,"start_paused":false,"vm":{"instructions":[]},"packet":{"binary":"AgAAAAACAgAAAAABiLU=","meta":""},"flow_stats":{"enabled":false},"mode":{"type":"continuous","rate":{"type":"pps","value":1e+06}}}}]"#;

/// A capture of five packets of flow 7, in microseconds and with the highest byte of each number first.
const FIVE: &[u8; 184] = b"\xa1\xb2\xc3\xd4\0\x02\0\x04\0\0\0\0\0\0\0\0\0\0\xff\xff\0\0\0\x01\
\0\0\0\x01\0\0\0\x01\0\0\0\x10\0\0\0\x10\xab\x01\0\x07\0\0\0\0\0\0\0\0\x3b\x9a\xca\0\
\0\0\0\x01\0\0\0\x02\0\0\0\x10\0\0\0\x10\xab\x01\0\x07\0\0\0\x02\0\0\0\0\x3b\x9a\xca\0\
\0\0\0\x01\0\0\0\x03\0\0\0\x10\0\0\0\x10\xab\x01\0\x07\0\0\0\x01\0\0\0\0\x3b\x9a\xca\0\
\0\0\0\x01\0\0\0\x04\0\0\0\x10\0\0\0\x10\xab\x01\0\x07\0\0\0\x02\0\0\0\0\x3b\x9a\xca\0\
\0\0\0\x01\0\0\0\x05\0\0\0\x10\0\0\0\x10\xab\x01\0\x07\0\0\0\x05\0\0\0\0\x3b\x9a\xca\0";

/// Its flow: the numbers 0, 2, 1, 2, 5, each sent at the first second and come 1 to 5 microseconds later.
const FIVE_LINES: &[u8] =
    b"flow 7 received 5 duplicates 1 lost 2 reordered 1 early 0 least 1000 greatest 5000 sum 15000\n\
records 5 bytes 80 stamped 5\n";

/// The profile of the capture of thirds of a second.
const ENTRIES: &[u8] =
    br#"[{"stream":{"isg":"0.000","mode":{"rate":{"type":"pps","value":"1000000000"},"total_pkts":"1","type":"single_burst"},"packet":{"binary":"AgAAAAACAgAAAAABiLU="}},"stream_id":"1"},{"stream":{"isg":"333333.333","mode":{"rate":{"type":"pps","value":"1000000000"},"total_pkts":"1","type":"single_burst"},"packet":{"binary":"AgAAAAACAgAAAAABiLU="}},"stream_id":"2"},{"stream":{"isg":"666666.666","mode":{"rate":{"type":"pps","value":"1000000000"},"total_pkts":"1","type":"single_burst"},"packet":{"binary":"AgAAAAACAgAAAAABiLU="}},"stream_id":"3"}]"#;

/// What a wire that copies each record measures of the five packets.
const TWICE_LINES: &[u8] =
    b"flow 7 received 10 duplicates 6 lost 2 reordered 1 early 0 least 1000 greatest 5000 sum 30000\n\
records 10 bytes 160 stamped 10\n\
wire sent 5 lost 0 copied 5 arrived 10\n";

/// The line of the first three packets of a sample, of 798 bytes each; the sum was worked out by another program.
const SAMPLE: &[u8] = b"sample seed 1 streams 1 packets 3 bytes 2394 sum f4e5\n";

const HELP: &[u8] = b"trex run [--duration n] [--limit n] [--cores n] [--base n]\n\
trex check\n\
trex analyze\n\
trex sample --seed n [--streams n] [--duration n] [--limit n] [--cores n]\n\
trex import\n\
trex wire --seed n [--loss n] [--copy n] [--delay n]\n\
trex session\n\
trex help\n";

/// A line of words with the bytes that it may read, the number of its reads at a byte a call, and all that it writes.
struct Case<'a> {
    line: &'a str,
    input: &'a [u8],
    reads: u64,
    out: &'a [u8],
    notes: &'a [u8],
}

// One read more than there are bytes, since the end is read too.
const CASES: [Case<'static>; 7] = [
    Case {
        line: "run",
        input: THIRDS,
        reads: 150,
        out: CAPTURE,
        notes: REPORT,
    },
    Case {
        line: "check",
        input: MORE_NAMES,
        reads: 381,
        out: b"accepted streams 1\n",
        notes: b"",
    },
    Case {
        line: "analyze",
        input: FIVE,
        reads: 185,
        out: FIVE_LINES,
        notes: b"",
    },
    Case {
        line: "sample --seed 1 --streams 1 --limit 3",
        input: b"[",
        reads: 0,
        out: SAMPLE,
        notes: b"",
    },
    Case {
        line: "import",
        input: CAPTURE,
        reads: 115,
        out: ENTRIES,
        notes: b"",
    },
    Case {
        line: "wire --seed 1 --copy 1000000",
        input: FIVE,
        reads: 185,
        out: TWICE_LINES,
        notes: b"",
    },
    Case {
        line: "help",
        input: b"[",
        reads: 0,
        out: HELP,
        notes: b"",
    },
];

/// Looks at what a case leaves where these ends fail.
fn assert_case<R: Abort + Threads + Sync>(
    rt: &R,
    alloc: Global,
    case: &Case<'_>,
    ends: &Ends,
    status: Status,
    out: &[u8],
    notes: &[u8],
) -> Result<(), Fail> {
    let ran = run_open(rt, alloc, case.line, case.input, ends)?;
    assert_left(rt, &ran, status, out, notes);
    Ok(())
}

#[test]
fn each_read_that_fails_has_its_answer(rt: HostRuntime) -> Result<(), Fail> {
    for case in &CASES {
        for call in 1..=case.reads {
            let ends = Ends {
                failing_read: call,
                ..BYTEWISE
            };
            let notes = b"read fault\n";
            assert_case(&rt, rt.alloc(), case, &ends, Status::ReadFault, b"", notes)?;
        }
        let ends = Ends {
            failing_read: case.reads.saturating_add(1),
            ..BYTEWISE
        };
        assert_case(
            &rt,
            rt.alloc(),
            case,
            &ends,
            Status::Done,
            case.out,
            case.notes,
        )?;
    }
    Ok(())
}

#[test]
fn each_write_that_fails_keeps_what_stood_before(rt: HostRuntime) -> Result<(), Fail> {
    for case in &CASES {
        for at in 0..case.out.len() {
            let ends = Ends {
                failing_write: at as u64 + 1,
                ..BYTEWISE
            };
            let out = &case.out[..at];
            let notes = b"write fault\n";
            assert_case(&rt, rt.alloc(), case, &ends, Status::OutFault, out, notes)?;
        }
        for at in 0..case.notes.len() {
            let ends = Ends {
                failing_note: at as u64 + 1,
                ..BYTEWISE
            };
            let notes = &case.notes[..at];
            assert_case(
                &rt,
                rt.alloc(),
                case,
                &ends,
                Status::NotesFault,
                case.out,
                notes,
            )?;
        }
    }
    Ok(())
}

#[test]
fn a_full_output_keeps_what_it_has_room_for(rt: HostRuntime) -> Result<(), Fail> {
    let ends = Ends {
        room: 113,
        ..BYTEWISE
    };
    let ran = run_open(&rt, rt.alloc(), "run", THIRDS, &ends)?;
    assert_left(
        &rt,
        &ran,
        Status::OutFault,
        &CAPTURE[..113],
        b"write fault\n",
    );
    Ok(())
}

/// How many bytes a call of the input gives: less than a record's header, a header, more, and all.
const PER_CALL: [usize; 5] = [1, 15, 16, 17, 65_536];

#[test]
fn a_capture_is_analyzed_however_it_comes(rt: HostRuntime) -> Result<(), Fail> {
    for &per_call in &PER_CALL {
        let ends = Ends {
            per_call,
            ..Ends::WIDE
        };
        let ran = run_open(&rt, rt.alloc(), "analyze", FIVE, &ends)?;
        assert_left(&rt, &ran, Status::Done, FIVE_LINES, b"");
    }
    Ok(())
}
