// The command `check`: whether a profile keeps all rules.

ghost use Rattle.trex_top.specs.Ends.Check.{CheckEnds};
ghost use Rattle.trex_top.specs.Sides.{side};

use crate::input::{ReadingStop, read_input};
use crate::saying::tell;
use crate::status::Status;
use std::alloc::Global;
use trex_io::{Sink, Source};
use trex_report::{Line, write_line};

/// Reads a profile, and writes that it keeps all rules.
pub(crate) fn check<S: Source, O: Sink, N: Sink>(
    alloc: Global,
    input: &mut S,
    out: &mut O,
    notes: &mut N,
) -> Status
    ensures { CheckEnds (side S.left S.faults input.old input.new) (side O.held O.faults out.old out.new)
        (side N.held N.faults notes.old notes.new) result }
{
    let profile = match read_input(alloc, input) {
        Ok(profile) => profile,
        Err(ReadingStop::Refused(refusal)) => {
            tell(notes, Line::Refused(refusal));
            return Status::Refused;
        }
        Err(ReadingStop::ReadFault) => {
            tell(notes, Line::ReadFault);
            return Status::ReadFault;
        }
        Err(ReadingStop::Memory) => {
            tell(notes, Line::OutOfMemory);
            return Status::Memory;
        }
    };
    let streams = profile.len() as u64;
    match write_line(out, Line::Accepted { streams }) {
        Ok(()) => Status::Done,
        Err(_) => {
            tell(notes, Line::WriteFault);
            Status::OutFault
        }
    }
}
