// The command `run`: a profile's capture to the output, and the report on it to the notes.

ghost use Rattle.trex_words.specs.Asked.{IsRunAsk};
ghost use Rattle.trex_top.specs.Ends.Run.{RunEnds};
ghost use Rattle.trex_top.specs.Sides.{gate_side, side};

use crate::capturing::{Unwritten, write_capture};
use crate::input::{ReadingStop, read_input};
use crate::saying::tell;
use crate::status::Status;
use std::alloc::Global;
use std::thread::Threads;
use trex_crew::Gate;
use trex_io::{Sink, Source};
use trex_report::{Line, write_report};
use trex_words::RunAsk;

/// Reads a profile, and writes its capture and the report on it.
pub(crate) fn run<R: Threads + Sync, S: Source, O: Sink, N: Sink, G: Gate>(
    rt: &R,
    alloc: Global,
    ask: &RunAsk,
    input: &mut S,
    out: &mut O,
    notes: &mut N,
    gates: &mut [G],
) -> Status
    requires { IsRunAsk ask.now }
    ensures { RunEnds ask.now (side S.left S.faults input.old input.new) (side O.held O.faults out.old out.new)
        (side N.held N.faults notes.old notes.new) (gate_side G.entries gates.old gates.new) result }
{
    let profile = match read_input(alloc, input) {
        Ok(profile) => profile,
        Err(ReadingStop::Refused(refusal)) => {
            tell(notes, Line::Refused(refusal));
            return Status::Refused;
        }
        Err(ReadingStop::ReadFault) => {
            tell(notes, Line::ReadFault);
            return Status::ReadFault;
        }
        Err(ReadingStop::Memory) => {
            tell(notes, Line::OutOfMemory);
            return Status::Memory;
        }
    };
    match write_capture(rt, alloc, &profile, ask, out, gates) {
        Ok(tallies) => match write_report(notes, &tallies) {
            Ok(()) => Status::Done,
            Err(_) => Status::NotesFault,
        },
        Err(Unwritten::OutFault) => {
            tell(notes, Line::WriteFault);
            Status::OutFault
        }
        Err(Unwritten::Memory) => {
            tell(notes, Line::OutOfMemory);
            Status::Memory
        }
    }
}
