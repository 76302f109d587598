// The command `sample`: what the machine makes of a profile that a seed determines.

ghost use Rattle.trex_words.specs.Asked.{IsSampleAsk};
ghost use Rattle.trex_top.specs.Ends.Sample.{SampleEnds};
ghost use Rattle.trex_top.specs.Sides.{gate_side, side};

use crate::sampling::{self, SampleFault};
use crate::saying::tell;
use crate::status::Status;
use std::alloc::Global;
use std::thread::Threads;
use trex_crew::Gate;
use trex_io::Sink;
use trex_report::Line;
use trex_words::SampleAsk;

/// Runs the profile of a seed, and writes the line of what it sends.
pub(crate) fn sample<R: Threads + Sync, O: Sink, N: Sink, G: Gate>(
    rt: &R,
    alloc: Global,
    ask: &SampleAsk,
    out: &mut O,
    notes: &mut N,
    gates: &mut [G],
) -> Status
    requires { IsSampleAsk ask.now }
    ensures { SampleEnds ask.now (side O.held O.faults out.old out.new) (side N.held N.faults notes.old notes.new)
        (gate_side G.entries gates.old gates.new) result }
{
    match sampling::sample(rt, alloc, ask, out, gates) {
        Ok(()) => Status::Done,
        Err(SampleFault::Out) => {
            tell(notes, Line::WriteFault);
            Status::OutFault
        }
        Err(SampleFault::Memory) => {
            tell(notes, Line::OutOfMemory);
            Status::Memory
        }
    }
}
