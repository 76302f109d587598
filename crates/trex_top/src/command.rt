// The top call: from the command words and the input's bytes to the capture and the report.

ghost use Rattle.std.specs.Prelude.{map, string_bytes};
ghost use Rattle.trex_words.specs.Asked.{asked};
ghost use Rattle.trex_top.specs.Ends.{Ends};
ghost use Rattle.trex_top.specs.Sides.{gate_side, side};

use crate::commands::analyze::analyze;
use crate::commands::check::check;
use crate::commands::help::help;
use crate::commands::import::import;
use crate::commands::run::run;
use crate::commands::sample::sample;
use crate::commands::session::session;
use crate::commands::wire::wire;
use crate::saying::tell;
use crate::status::Status;
use std::alloc::Global;
use std::thread::Threads;
use trex_crew::Gate;
use trex_io::{Sink, Source};
use trex_report::Line;
use trex_words::{Asked, read_words};

/// The program: reads the command words and does what they ask. `input` has the profile or the capture. `out` gets the capture, the accepted
/// line, the lines of flows, the sample line, a profile, the line of a wire or the help text, and `notes` the report of a run or the line of the
/// status. A run's cores work in as many threads as there are `gates`.
pub fn trex_main<R: Threads + Sync, S: Source, O: Sink, N: Sink, G: Gate>(
    rt: &R,
    alloc: Global,
    words: &[String],
    input: &mut S,
    out: &mut O,
    notes: &mut N,
    gates: &mut [G],
) -> Status
    ensures ends { Ends (asked (map string_bytes words.now)) (side S.left S.faults input.old input.new)
        (side O.held O.faults out.old out.new) (side N.held N.faults notes.old notes.new)
        (gate_side G.entries gates.old gates.new) result }
{
    match read_words(words) {
        Err(usage) => {
            tell(notes, Line::Usage(usage));
            Status::Usage
        }
        Ok(Asked::Run(ask)) => run(rt, alloc, &ask, input, out, notes, gates),
        Ok(Asked::Check) => check(alloc, input, out, notes),
        Ok(Asked::Analyze) => analyze(alloc, input, out, notes),
        Ok(Asked::Sample(ask)) => sample(rt, alloc, &ask, out, notes, gates),
        Ok(Asked::Import) => import(alloc, input, out, notes),
        Ok(Asked::Wire(ask)) => wire(alloc, &ask, input, out, notes),
        Ok(Asked::Session) => session(rt, alloc, input, out, notes, gates),
        Ok(Asked::Help) => help(out, notes),
    }
}
