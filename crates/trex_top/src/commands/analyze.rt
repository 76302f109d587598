// The command `analyze`: what is counted of a capture.

ghost use Rattle.trex_top.specs.Ends.Analyze.{AnalyzeEnds};
ghost use Rattle.trex_top.specs.Sides.{side};

use crate::analysis::{self, AnalyzeFault};
use crate::saying::tell;
use crate::status::Status;
use std::alloc::Global;
use trex_io::{Sink, Source};
use trex_report::Line;

/// Reads a capture, and writes the lines of its flows and of its records.
pub(crate) fn analyze<S: Source, O: Sink, N: Sink>(
    alloc: Global,
    input: &mut S,
    out: &mut O,
    notes: &mut N,
) -> Status
    ensures { AnalyzeEnds (side S.left S.faults input.old input.new) (side O.held O.faults out.old out.new)
        (side N.held N.faults notes.old notes.new) result }
{
    match analysis::analyze(alloc, input, out) {
        Ok(()) => Status::Done,
        Err(AnalyzeFault::Read) => {
            tell(notes, Line::ReadFault);
            Status::ReadFault
        }
        Err(AnalyzeFault::Bad(fault)) => {
            tell(notes, Line::BadCapture(fault));
            Status::BadCapture
        }
        Err(AnalyzeFault::Out) => {
            tell(notes, Line::WriteFault);
            Status::OutFault
        }
        Err(AnalyzeFault::Memory) => {
            tell(notes, Line::OutOfMemory);
            Status::Memory
        }
    }
}
