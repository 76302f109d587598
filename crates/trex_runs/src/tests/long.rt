//! Texts and packets of the greatest sizes.

use super::{CAPTURE, Made, assert_left, run_open};
use crate::memory::{Ends, run};
use std::test::Fail;
use trex_crew::ListGate;
use trex_top::Status;

/// How many bytes a profile's text may have.
const LONGEST: usize = 33_554_432;

const LIST_BEGIN: &str =
    r#"[{"stream_id":1,"stream":{"packet":{"binary":"AgAAAAACAgAAAAABiLU="},"mode":{"type":"continuous","rate":{"type":"pps","value":3}},"vm":{"instructions":[{"type":"flow_var","name":"v","size":1,"op":"inc","value_list":[1"#;

const LIST_END: &str = r#"]}]}}}]"#;

/// What is checked, with its status, what the output gets and what the notes get: a text of 33,554,432 bytes is read, 4,096 entries and 4,096 values
/// of a list are accepted.
const CHECKS: [(Made<'static>, Status, &[u8], &[u8]); 6] = [
    (
        Made {
            begin: "",
            piece: " ",
            count: LONGEST,
            end: "",
        },
        Status::Refused,
        b"",
        b"refused: NotJson\n",
    ),
    (
        Made {
            begin: "",
            piece: " ",
            count: LONGEST,
            end: " ",
        },
        Status::Refused,
        b"",
        b"refused: TooLong\n",
    ),
    (
        Made {
            begin: "[{}",
            piece: ",{}",
            count: 4_095,
            end: "]",
        },
        Status::Refused,
        b"",
        b"refused: BadStreamId stream 0\n",
    ),
    (
        Made {
            begin: "[{}",
            piece: ",{}",
            count: 4_096,
            end: "]",
        },
        Status::Refused,
        b"",
        b"refused: TooManyStreams\n",
    ),
    (
        Made {
            begin: LIST_BEGIN,
            piece: ",1",
            count: 4_095,
            end: LIST_END,
        },
        Status::Done,
        b"accepted streams 1\n",
        b"",
    ),
    (
        Made {
            begin: LIST_BEGIN,
            piece: ",1",
            count: 4_096,
            end: LIST_END,
        },
        Status::Refused,
        b"",
        b"refused: VarRange stream 0 at 0\n",
    ),
];

#[test]
fn texts_entries_and_lists_have_their_bounds(rt: HostRuntime) -> Result<(), Fail> {
    let alloc = rt.alloc();
    let ends = Ends {
        per_call: LONGEST,
        ..Ends::WIDE
    };
    for &(made, status, out, notes) in &CHECKS {
        let text = made.text(alloc)?;
        let ran = run_open(&rt, alloc, "check", text.as_bytes(), &ends)?;
        assert_left(&rt, &ran, status, out, notes);
    }
    Ok(())
}

/// A stream of the longest packets at the slowest rate: 9,216 zero bytes in base64, a millionth of a bit a second.
const SLOWEST: Made<'static> = Made {
    begin: r#"[{"stream_id":1,"stream":{"packet":{"binary":""#,
    piece: "AAAA",
    count: 3_072,
    end: r#""},"mode":{"type":"multi_burst","pkts_per_burst":4294967295,"count":4294967295,"rate":{"type":"bps_L2","value":0.000001}}}}]"#,
};

/// The record header of its first packet, by pcap 2.4: 0 ns, 9,216 bytes.
const LONGEST_RECORD: &[u8; 16] = b"\0\0\0\0\0\0\0\0\0\x24\0\0\0\x24\0\0";

#[test]
fn the_slowest_rate_sends_one_packet(rt: HostRuntime) -> Result<(), Fail> {
    let alloc = rt.alloc();
    let text = SLOWEST.text(alloc)?;
    let line = "run --duration 1000000000000000000";
    let ran = run_open(&rt, alloc, line, text.as_bytes(), &Ends::WIDE)?;
    let mut sent = Vec::from_slice(alloc, &CAPTURE[..24])?;
    sent.extend_from_slice(LONGEST_RECORD)?;
    sent.extend_from_slice(&[0; 9_216])?;
    let report = b"stream 1 packets 1 bytes 9216\ntotal packets 1 bytes 9216\n";
    assert_left(&rt, &ran, Status::Done, sent.as_slice(), report);
    Ok(())
}

/// A burst of 250 packets of 9,216 zero bytes, a nanosecond each.
const LONG_BURST: Made<'static> = Made {
    begin: r#"[{"stream_id":1,"stream":{"packet":{"binary":[0"#,
    piece: ",0",
    count: 9_215,
    end: r#"]},"mode":{"type":"single_burst","total_pkts":250,"rate":{"type":"pps","value":1000000000}},"vm":{"instructions":[]}}}]"#,
};

/// The record header of its last packet, by pcap 2.4: 249 ns, 9,216 bytes.
const LAST_RECORD: &[u8] = b"\0\0\0\0\xf9\0\0\0\0\x24\0\0\0\x24\0\0";

#[test]
fn the_longest_packets_fill_batches_by_their_bytes(rt: HostRuntime) -> Result<(), Fail> {
    let alloc = rt.alloc();
    let text = LONG_BURST.text(alloc)?;
    let one = run_open(&rt, alloc, "run", text.as_bytes(), &Ends::WIDE)?;
    assert_eq!(rt; one.status, Status::Done);
    assert_eq!(rt; one.out.bytes().len(), 2_308_024);
    assert_eq!(rt;
        one.out.bytes().get(2_298_792..2_298_808),
        Some(LAST_RECORD)
    );
    let two = run_open(&rt, alloc, "run --cores 2", text.as_bytes(), &Ends::WIDE)?;
    assert_eq!(rt; two.out.bytes(), one.out.bytes());
    Ok(())
}

/// An endless stream of such packets, a microsecond each.
const LONG_STREAM: Made<'static> = Made {
    begin: r#"[{"stream_id":1,"stream":{"packet":{"binary":[0"#,
    piece: ",0",
    count: 9_215,
    end: r#"]},"mode":{"type":"continuous","rate":{"type":"pps","value":1000000}}}}]"#,
};

/// A batch holds 113 packets of 9,216 bytes, so the next one asks for a second round.
#[test]
fn a_round_is_made_where_a_batch_is_used_up(rt: HostRuntime) -> Result<(), Fail> {
    let alloc = rt.alloc();
    let mut gates = [ListGate::new(alloc, 100)?];
    let text = LONG_STREAM.text(alloc)?;
    let line = "run --limit 114";
    let ran = run(&rt, alloc, line, text.as_bytes(), &Ends::WIDE, &mut gates)?;
    assert_eq!(rt; ran.status, Status::Done);
    let [gate] = &gates;
    assert_eq!(rt; gate.entries(), [(0, 0), (1, 0)].as_slice());
    Ok(())
}
