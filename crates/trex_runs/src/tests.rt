//! Whole runs that no line of data can hold: calls that fail, gates that tell or wait, texts that are made, and the packets of a sample.

mod cores;
mod failing;
mod gates;
mod long;
mod samples;
mod sessions;

use crate::memory::{Ends, Ran, run};
use std::alloc::Global;
use std::process::Abort;
use std::test::Fail;
use std::thread::Threads;
use trex_crew::Open;
use trex_top::Status;

/// A burst of three packets of 14 bytes, three a second.
const THIRDS: &[u8] =
    br#"[{"stream_id":1,"stream":{"packet":{"binary":"AgAAAAACAgAAAAABiLU="},"mode":{"type":"single_burst","total_pkts":3,"rate":{"type":"pps","value":3}}}}]"#;

/// Its capture, by the headers of pcap 2.4 and the times 0, 333,333,333 and 666,666,666 ns.
const CAPTURE: &[u8; 114] = b"\x4d\x3c\xb2\xa1\x02\0\x04\0\0\0\0\0\0\0\0\0\0\0\x04\0\x01\0\0\0\
\0\0\0\0\0\0\0\0\x0e\0\0\0\x0e\0\0\0\x02\0\0\0\0\x02\x02\0\0\0\0\x01\x88\xb5\
\0\0\0\0\x55\x43\xde\x13\x0e\0\0\0\x0e\0\0\0\x02\0\0\0\0\x02\x02\0\0\0\0\x01\x88\xb5\
\0\0\0\0\xaa\x86\xbc\x27\x0e\0\0\0\x0e\0\0\0\x02\0\0\0\0\x02\x02\0\0\0\0\x01\x88\xb5";

/// Its report: three packets of 14 bytes are 42 bytes.
const REPORT: &[u8; 53] = b"stream 1 packets 3 bytes 42\ntotal packets 3 bytes 42\n";

/// A text of a beginning, a piece so many times over, and an end.
#[derive(Clone, Copy)]
struct Made<'a> {
    begin: &'a str,
    piece: &'a str,
    count: usize,
    end: &'a str,
}

impl Made<'_> {
    fn text(&self, alloc: Global) -> Result<String, Fail> {
        let mut text = String::from_str(alloc, self.begin)?;
        for _ in 0..self.count {
            text.push_str(self.piece)?;
        }
        text.push_str(self.end)?;
        Ok(text)
    }
}

/// Runs a line with two open gates.
fn run_open<R: Threads + Sync>(
    rt: &R,
    alloc: Global,
    line: &str,
    input: &[u8],
    ends: &Ends,
) -> Result<Ran, Fail> {
    run(rt, alloc, line, input, ends, &mut [Open; 2])
}

/// Looks at what a run left.
fn assert_left(rt: &impl Abort, ran: &Ran, status: Status, out: &[u8], notes: &[u8]) {
    assert_eq!(rt; ran.status, status);
    assert_eq!(rt; ran.out.bytes(), out);
    assert_eq!(rt; ran.notes.bytes(), notes);
}
