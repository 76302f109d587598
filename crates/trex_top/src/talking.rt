// The loop of a session: its lines are heard one after another, and each is answered before the next is read.

ghost use Rattle.std.specs.Prelude.{◌≡◌, ◌≤◌, Err, IfErr, IfSome, OnOk};
ghost use Rattle.trex_io.specs.Faults.{Rises};
ghost use Rattle.trex_rpc.specs.Heard.{heard};
ghost use Rattle.trex_rpc.specs.Written.{Spoken, Stopped};
ghost use Rattle.trex_top.specs.Ends.Session.{starts};

use crate::answering::respond;
use std::alloc::Global;
use std::thread::Threads;
use trex_crew::Gate;
use trex_io::{Sink, Source};
use trex_rpc::{Bound, Judged, LineReader, Session, Stop, is_end, judge, stop_of, unheard};

/// Holds a session over the lines of an input, up to `quit` or to its end: the captures go to `out` and the replies to `notes`. A reply is
/// written before the input is read again.
pub(crate) fn talk<R: Threads + Sync, S: Source, O: Sink, N: Sink, G: Gate>(
    rt: &R,
    alloc: Global,
    input: &mut S,
    out: &mut O,
    notes: &mut N,
    gates: &mut [G],
) -> Result<(), Stop>
    ensures done { OnOk result (IfSome (S.left input.old) (λ text. Spoken starts
        O.held N.held out.old out.new notes.old notes.new (heard text) (S.left input.new))) }
    ensures stops { IfErr result (λ stop. IfSome (S.left input.old) (λ text. Stopped starts
        O.held N.held out.old out.new notes.old notes.new (heard text) stop)) }
    ensures read_cause { result ≡ Err Stop.ReadFault → Rises S.faults input.old input.new }
    ensures out_cause { result ≡ Err Stop.OutFault → Rises O.faults out.old out.new }
    ensures notes_cause { result ≡ Err Stop.NotesFault → Rises N.faults notes.old notes.new }
    ensures notes_later { N.faults notes.old ≤ N.faults notes.new }
{
    let mut session = Session::new(alloc);
    let mut reader = LineReader::new();
    let mut line = Vec::new(alloc);
    let mut before = 0u64;
    let mut number = 0u64;
    'lines: loop {
        let ended = match reader.next(input, &mut line) {
            Ok(ended) => ended,
            Err(fault) => return Err(unheard(fault, before, number + 1)),
        };
        let text = line.as_slice();
        if is_end(text, ended) {
            return Ok(());
        }
        let total = match judge(text, ended, before) {
            Judged::Quits => {
                if let Err(fault) = respond(rt, alloc, &mut session, text, out, notes, gates) {
                    return Err(stop_of(fault));
                }
                return Ok(());
            }
            Judged::Breaks => {
                return Err(Stop::Bad {
                    bound: Bound::TooMuch,
                    line: number + 1,
                });
            }
            Judged::Goes(total) => total,
        };
        if let Err(fault) = respond(rt, alloc, &mut session, text, out, notes, gates) {
            return Err(stop_of(fault));
        }
        before = total;
        number += 1;
    }
}
