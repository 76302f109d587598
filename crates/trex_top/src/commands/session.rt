// The command `session`: commands on streams, heard line by line, and runs of the streams that are kept.

ghost use Rattle.std.specs.Prelude.{◌≡◌};
ghost use Rattle.trex_top.specs.Ends.Session.{SessionEnds, bound_line};
ghost use Rattle.trex_top.specs.Sides.{side};

use crate::saying::tell;
use crate::status::Status;
use crate::talking::talk;
use std::alloc::Global;
use std::thread::Threads;
use trex_crew::Gate;
use trex_io::{Sink, Source};
use trex_report::Line;
use trex_rpc::{Bound, Stop};

/// The line of a bound that is broken in a line of the input.
fn bound_line(bound: Bound, line: u64) -> Line
    ensures { result ≡ bound_line bound line }
{
    match bound {
        Bound::LineTooLong => Line::LineTooLong { line },
        Bound::TooMuch => Line::TooMuch { line },
    }
}

/// Holds a session over the lines of the input.
pub(crate) fn session<R: Threads + Sync, S: Source, O: Sink, N: Sink, G: Gate>(
    rt: &R,
    alloc: Global,
    input: &mut S,
    out: &mut O,
    notes: &mut N,
    gates: &mut [G],
) -> Status
    ensures { SessionEnds (side S.left S.faults input.old input.new) (side O.held O.faults out.old out.new)
        (side N.held N.faults notes.old notes.new) result }
{
    match talk(rt, alloc, input, out, notes, gates) {
        Ok(()) => Status::Done,
        Err(Stop::ReadFault) => {
            tell(notes, Line::ReadFault);
            Status::ReadFault
        }
        Err(Stop::OutFault) => {
            tell(notes, Line::WriteFault);
            Status::OutFault
        }
        Err(Stop::NotesFault) => Status::NotesFault,
        Err(Stop::Memory) => {
            tell(notes, Line::OutOfMemory);
            Status::Memory
        }
        Err(Stop::Bad { bound, line }) => {
            tell(notes, bound_line(bound, line));
            Status::BadSession
        }
    }
}
