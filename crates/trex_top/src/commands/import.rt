// The command `import`: a profile that sends the packets of a capture again.

ghost use Rattle.trex_top.specs.Ends.Import.{ImportEnds};
ghost use Rattle.trex_top.specs.Sides.{side};

use crate::saying::tell;
use crate::status::Status;
use std::alloc::Global;
use trex_import::ImportFault;
use trex_io::{Sink, Source};
use trex_report::Line;

/// Reads a capture, and writes the text of a profile that sends its packets again.
pub(crate) fn import<S: Source, O: Sink, N: Sink>(
    alloc: Global,
    input: &mut S,
    out: &mut O,
    notes: &mut N,
) -> Status
    ensures { ImportEnds (side S.left S.faults input.old input.new) (side O.held O.faults out.old out.new)
        (side N.held N.faults notes.old notes.new) result }
{
    match trex_import::import(alloc, input, out) {
        Ok(()) => Status::Done,
        Err(ImportFault::Read) => {
            tell(notes, Line::ReadFault);
            Status::ReadFault
        }
        Err(ImportFault::Bad(fault)) => {
            tell(notes, Line::BadCapture(fault));
            Status::BadCapture
        }
        Err(ImportFault::Unfit(unfit)) => {
            tell(notes, Line::Unfit(unfit));
            Status::Unfit
        }
        Err(ImportFault::Out) => {
            tell(notes, Line::WriteFault);
            Status::OutFault
        }
        Err(ImportFault::Memory) => {
            tell(notes, Line::OutOfMemory);
            Status::Memory
        }
    }
}
