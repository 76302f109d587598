// The lines that are printed by themselves.

ghost use Rattle.trex_io.specs.Texts.{Writes};
ghost use Rattle.trex_report.specs.Texts.{accepted_line, line_text, session_line};

use crate::capture::{write_bad_capture, write_unfit};
use crate::refusal::write_refusal;
use crate::sample::write_sample;
use crate::usage::write_usage;
use crate::wire::write_wire;
use itoa::Buffer;
use trex_io::{Failed, Sink, write_all, write_pieces};
use trex_pcap::{CaptureFault, Unfit};
use trex_profile::Refusal;
use trex_words::Usage;

/// A line that is printed by itself.
#[derive(Clone, Copy, Debug, PartialEq, Eq)]
pub enum Line {
    /// A profile of so many streams keeps all rules.
    Accepted {
        streams: u64,
    },
    /// The command words have no meaning.
    Usage(Usage),
    /// A profile breaks a rule.
    Refused(Refusal),
    /// A capture has a fault.
    BadCapture(CaptureFault),
    /// A capture makes no profile.
    Unfit(Unfit),
    /// The input could not be read.
    ReadFault,
    /// The output could not be written.
    WriteFault,
    /// There was no memory.
    OutOfMemory,
    /// What is summed up of a sample: how many packets were sent and of how many bytes, record headers not counted, and the folded
    /// Internet checksum (RFC 1071) of the capture.
    Sample {
        seed: u64,
        streams: u32,
        packets: u64,
        bytes: u64,
        sum: u16,
    },
    /// A line of the input of a session, counted from 1, is too long.
    LineTooLong {
        line: u64,
    },
    /// The input of a session has too many bytes, the first of them in this line, counted from 1.
    TooMuch {
        line: u64,
    },
    /// What a simulated wire did: how many records it was sent, how many of them it lost and how many it copied, and how many copies
    /// arrived.
    Wire {
        sent: u64,
        lost: u64,
        copied: u64,
        arrived: u64,
    },
}

/// Writes that a profile keeps all rules.
#[tactic(auto, unfolding(crate::specs::Texts::accepted_line))]
fn write_accepted<O: Sink>(to: &mut O, streams: u64) -> Result<(), Failed>
    ensures { Writes O.held O.faults to.old to.new result (accepted_line streams) }
{
    let mut count = Buffer::new();
    write_pieces(
        to,
        &[
            b"accepted streams ",
            count.format(streams).as_bytes(),
            b"\n",
        ],
    )
}

/// Writes which bound the input of a session breaks, and in which line.
fn write_bad_session<O: Sink>(to: &mut O, name: &str, line: u64) -> Result<(), Failed>
    ensures { Writes O.held O.faults to.old to.new result (session_line name.now line) }
{
    let mut place = Buffer::new();
    write_pieces(
        to,
        &[
            b"bad session: ",
            name.as_bytes(),
            b" line ",
            place.format(line).as_bytes(),
            b"\n",
        ],
    )
}

/// Writes a line.
pub fn write_line<O: Sink>(to: &mut O, which: Line) -> Result<(), Failed>
    ensures { Writes O.held O.faults to.old to.new result (line_text which) }
{
    match which {
        Line::Accepted { streams } => write_accepted(to, streams),
        Line::Usage(usage) => write_usage(to, &usage),
        Line::Refused(refusal) => write_refusal(to, &refusal),
        Line::BadCapture(fault) => write_bad_capture(to, &fault),
        Line::Unfit(unfit) => write_unfit(to, unfit),
        Line::ReadFault => write_all(to, b"read fault\n"),
        Line::WriteFault => write_all(to, b"write fault\n"),
        Line::OutOfMemory => write_all(to, b"out of memory\n"),
        Line::Sample {
            seed,
            streams,
            packets,
            bytes,
            sum,
        } => write_sample(to, seed, streams, packets, bytes, sum),
        Line::LineTooLong { line } => write_bad_session(to, "LineTooLong", line),
        Line::TooMuch { line } => write_bad_session(to, "TooMuch", line),
        Line::Wire {
            sent,
            lost,
            copied,
            arrived,
        } => write_wire(to, sent, lost, copied, arrived),
    }
}
