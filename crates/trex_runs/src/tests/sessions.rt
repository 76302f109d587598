//! Sessions whose reads and writes fail, each call in turn, whose starts are told to a gate, and whose inputs are long.

ghost use Rattle.std.specs.Prelude.{None};

use super::{CAPTURE, assert_left, run_open};
use crate::memory::{Ends, run};
use std::alloc::Global;
use std::test::Fail;
use trex_crew::{ListGate, Open};
use trex_io::{Failed, MemSink, Source};
use trex_top::{Status, trex_main};

/// A byte a call.
const BYTEWISE: Ends = Ends {
    per_call: 1,
    ..Ends::WIDE
};

/// The lines of a session, their replies, and how many bytes of the captures were written when the reply was.
const LINES: [(&str, &str, usize); 6] = [
    (
        r#"add_stream {"stream_id":1,"stream":{"packet":{"binary":"AgAAAAACAgAAAAABiLU="},"mode":{"type":"single_burst","total_pkts":3,"rate":{"type":"pps","value":3}}}}"#,
        "ok\n",
        0,
    ),
    (
        "start --limit 1",
        "stream 1 packets 1 bytes 14\ntotal packets 1 bytes 14\n",
        54,
    ),
    ("start --limit 0", "usage: OutOfRange at 2\n", 54),
    ("remove_stream 1", "ok\n", 54),
    ("remove_stream 1", "refused: NoSuchStream\n", 54),
    ("quit", "ok\n", 54),
];

/// The lines as they are read.
fn input(alloc: Global) -> Result<String, Fail> {
    let mut text = String::new(alloc);
    for &(line, _reply, _written) in &LINES {
        text.push_str(line)?;
        text.push_str("\n")?;
    }
    Ok(text)
}

/// The replies to the lines that stand wholly in so many bytes, and how many bytes of the captures were then written.
fn answered(alloc: Global, read: usize) -> Result<(String, usize), Fail> {
    let mut replies = String::new(alloc);
    let mut end: usize = 0;
    let mut captured = 0;
    for &(line, reply, written) in &LINES {
        end = end.saturating_add(line.len()).saturating_add(1);
        if end > read {
            break;
        }
        replies.push_str(reply)?;
        captured = written;
    }
    Ok((replies, captured))
}

#[test]
fn a_session_answers_all_lines_before_a_read_that_fails(rt: HostRuntime) -> Result<(), Fail> {
    let text = input(rt.alloc())?;
    for read in 0..text.len() {
        let ends = Ends {
            failing_read: (read as u64).saturating_add(1),
            ..BYTEWISE
        };
        let (mut notes, captured) = answered(rt.alloc(), read)?;
        notes.push_str("read fault\n")?;
        let ran = run_open(&rt, rt.alloc(), "session", text.as_bytes(), &ends)?;
        let out = &CAPTURE[..captured.min(114)];
        assert_left(&rt, &ran, Status::ReadFault, out, notes.as_bytes());
    }
    Ok(())
}

#[test]
fn a_session_keeps_what_stood_before_a_write_that_fails(rt: HostRuntime) -> Result<(), Fail> {
    let text = input(rt.alloc())?;
    let (replies, captured) = answered(rt.alloc(), text.len())?;
    for at in 0..captured.min(114) {
        let ends = Ends {
            failing_write: at as u64 + 1,
            ..BYTEWISE
        };
        let ran = run_open(&rt, rt.alloc(), "session", text.as_bytes(), &ends)?;
        let notes = b"ok\nwrite fault\n";
        assert_left(&rt, &ran, Status::OutFault, &CAPTURE[..at], notes);
    }
    for (at, _byte) in replies.as_bytes().iter().enumerate() {
        let ends = Ends {
            failing_note: (at as u64).saturating_add(1),
            ..BYTEWISE
        };
        let ran = run_open(&rt, rt.alloc(), "session", text.as_bytes(), &ends)?;
        let out = if at < 3 {
            &CAPTURE[..0]
        } else {
            &CAPTURE[..54]
        };
        let notes = &replies.as_bytes()[..at];
        assert_left(&rt, &ran, Status::NotesFault, out, notes);
    }
    Ok(())
}

#[test]
fn the_starts_of_a_session_enter_its_gate(rt: HostRuntime) -> Result<(), Fail> {
    let mut text = String::new(rt.alloc());
    for place in [0, 1, 1] {
        text.push_str(LINES[place].0)?;
        text.push_str("\n")?;
    }
    let mut gates = [ListGate::new(rt.alloc(), 10)?];
    let ran = run(
        &rt,
        rt.alloc(),
        "session",
        text.as_bytes(),
        &Ends::WIDE,
        &mut gates,
    )?;
    assert_eq!(rt; gates[0].entries(), [(0, 0), (0, 0)].as_slice());
    let mut twice = Vec::from_slice(rt.alloc(), &CAPTURE[..54])?;
    twice.extend_from_slice(&CAPTURE[..54])?;
    assert_eq!(rt; ran.out.bytes(), twice.as_slice());
    Ok(())
}

#[test]
fn a_table_holds_as_many_streams_as_a_profile_may_have(rt: HostRuntime) -> Result<(), Fail> {
    let alloc = rt.alloc();
    let mut text = String::new(alloc);
    let mut replies = String::new(alloc);
    for id in 0..4097 {
        let line = format!(in alloc;
            "add_stream {{\"stream_id\":{id},\"stream\":{{\"packet\":{{\"binary\":\"AgAAAAACAgAAAAABiLU=\"}},\"mode\":{{\"type\":\"continuous\",\"rate\":{{\"type\":\"pps\",\"value\":1}}}}}}}}\n"
        )?;
        text.push_str(line.as_str())?;
        replies.push_str(if id < 4096 {
            "ok\n"
        } else {
            "refused: TableFull\n"
        })?;
    }
    let ran = run_open(&rt, alloc, "session", text.as_bytes(), &Ends::WIDE)?;
    assert_left(&rt, &ran, Status::Done, b"", replies.as_bytes());
    Ok(())
}

/// Lines of so many bytes, with a line feed or without, and how a session over them ends.
const LENGTHS: [(usize, bool, Status, &str); 4] = [
    (1_048_576, true, Status::Done, "refused: UnknownCommand\n"),
    (1_048_576, false, Status::Done, "refused: UnknownCommand\n"),
    (
        1_048_577,
        true,
        Status::BadSession,
        "bad session: LineTooLong line 1\n",
    ),
    (
        1_048_577,
        false,
        Status::BadSession,
        "bad session: LineTooLong line 1\n",
    ),
];

#[test]
fn a_line_has_at_most_a_mebibyte(rt: HostRuntime) -> Result<(), Fail> {
    for &(length, fed, status, reply) in &LENGTHS {
        let mut text = Vec::new(rt.alloc());
        text.resize(length, b'x')?;
        if fed {
            text.push(b'\n')?;
        }
        let ends = Ends {
            per_call: 5_000,
            ..Ends::WIDE
        };
        let ran = run_open(&rt, rt.alloc(), "session", text.as_slice(), &ends)?;
        assert_left(&rt, &ran, status, b"", reply.as_bytes());
    }
    Ok(())
}

/// So many bytes in lines of 1,048,576 bytes, line feeds included, and then `quit`.
#[derive(Drop)]
struct Plenty {
    before: u64,
    given: u64,
}

impl Source for Plenty {
    ghost left = { λ _. None };

    ghost faults = { λ _. 0 };

    fn read(&mut self, into: &mut [u8]) -> Result<usize, Failed> {
        let left = self.before.saturating_add(4).saturating_sub(self.given);
        let count = into.len().min(left as usize);
        for byte in into[..count].iter_mut() {
            *byte = match self.given.checked_sub(self.before) {
                Some(0) => b'q',
                Some(1) => b'u',
                Some(2) => b'i',
                Some(_) => b't',
                None => {
                    if self.given % 1_048_576 == 1_048_575 {
                        b'\n'
                    } else {
                        b'x'
                    }
                }
            };
            self.given = self.given.saturating_add(1);
        }
        Ok(count)
    }
}

#[test]
fn quit_stands_behind_as_many_bytes_as_there_may_be(rt: HostRuntime) -> Result<(), Fail> {
    let mut words = Vec::new(rt.alloc());
    words.push(String::from_str(rt.alloc(), "session")?)?;
    for (before, wanted) in [
        (268_435_456, Status::Done),
        (268_435_457, Status::BadSession),
    ] {
        let mut input = Plenty { before, given: 0 };
        let mut out = MemSink::new(rt.alloc(), 0, 1, Vec::new(rt.alloc()))?;
        let mut notes = MemSink::new(rt.alloc(), 10_000, 100, Vec::new(rt.alloc()))?;
        let status = trex_main(
            &rt,
            rt.alloc(),
            &words,
            &mut input,
            &mut out,
            &mut notes,
            &mut [Open; 1],
        );
        assert_eq!(rt; status, wanted);
    }
    Ok(())
}
