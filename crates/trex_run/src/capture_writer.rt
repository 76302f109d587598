//! A run is written as a capture. The records are joined in a piece, which is handed to the output where the next ones don't fit.

ghost use Rattle.std.specs.Prelude.{◌≡◌, ◌*◌, ◌≤◌, OnOk, OnErr};
ghost use Rattle.std.specs.Vec.{vec_capacity};
ghost use Rattle.trex_io.specs.Faults.{HasCause};
ghost use Rattle.trex_io.specs.Texts.{Writes, WrotePart};
ghost use Rattle.trex_pcap.specs.Writing.{file_header};
ghost use Rattle.trex_run.specs.Capture.{capture_text};
ghost use Rattle.trex_run.specs.Pieces.{WrittenAndPending};
ghost use Rattle.trex_run.specs.State.{AreSteps, IsThrough, all_of};
ghost use Rattle.trex_run.specs.Step.{reached};

use crate::pieces::PIECE;
use crate::progress::Progress;
use crate::ready::Ready;
use std::thread::Threads;
use trex_crew::Gate;
use trex_io::{Failed, Sink, write_all};
use trex_pcap::header;

/// Begins a capture in a piece: the file header alone.
#[tactic(auto, unfolding(trex_pcap::specs::Writing::file_header))]
fn begin(piece: &mut Vec<u8>)
    requires { PIECE ≤ vec_capacity piece.old }
    ensures items { piece.new.items ≡ file_header }
    ensures capacity { PIECE ≤ vec_capacity piece.new }
{
    piece.clear();
    piece.extend_from_slice(&header()).unwrap();
}

/// Gathers the records of all packets of a run of which no step was taken. Of the capture the last piece is still to be written.
fn gather_all<R: Threads + Sync, O: Sink, G: Gate>(
    rt: &R,
    progress: &mut Progress<'_>,
    piece: &mut Vec<u8>,
    out: &mut O,
    gates: &mut [G],
) -> Result<(), Failed>
    requires none { reached progress.old.state ≡ 0 }
    requires piece { piece.old.items ≡ file_header }
    requires capacity { PIECE ≤ vec_capacity piece.old }
    ensures gathers { OnOk result (WrittenAndPending O.held out.old out.new piece.new.items (capture_text progress.old.plan.base (all_of progress.old))) }
    ensures part { OnErr result (WrotePart O.held out.old out.new (capture_text progress.old.plan.base (all_of progress.old))) }
    ensures cause { HasCause O.faults out.old out.new result }
    ensures steps { AreSteps G.entries progress.old progress.new gates.old gates.new }
    ensures through { OnOk result (IsThrough progress.old progress.new) }
    ensures capacity { PIECE ≤ vec_capacity piece.new }
{
    let mut found = progress.step(rt, gates);
    'runs: while found {
        match progress.pass(rt, piece, out, gates) {
            Ok(more) => found = more,
            Err(failed) => return Err(failed),
        }
    }
    Ok(())
}

/// Writes the capture of a run of which no step was taken: at `Ok` the whole, and then the run stands at its end. The times of the records
/// count from the base, in seconds since 1970. No memory is taken. The gates are entered once for each core in each round.
pub fn generate<R: Threads + Sync, O: Sink, G: Gate>(
    rt: &R,
    ready: &mut Ready<'_>,
    base: u32,
    out: &mut O,
    gates: &mut [G],
) -> Result<(), Failed>
    requires none { reached ready.old.state ≡ 0 }
    requires base { base ≡ ready.old.plan.base }
    requires time { base ≤ 3000000000 }
    ensures writes { Writes O.held O.faults out.old out.new result (capture_text base (all_of ready.old)) }
    ensures steps { AreSteps G.entries ready.old ready.new gates.old gates.new }
    ensures through { OnOk result (IsThrough ready.old ready.new) }
{
    begin(&mut ready.piece);
    if let Err(failed) = gather_all(rt, &mut ready.progress, &mut ready.piece, out, gates) {
        return Err(failed);
    }
    write_all(out, &ready.piece)
}
