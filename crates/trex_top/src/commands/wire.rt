// The command `wire`: what is counted of a capture behind a simulated wire.

ghost use Rattle.std.specs.Prelude.{◌≡◌, ◌++◌, List};
ghost use Rattle.trex_io.specs.Seen.{Seen};
ghost use Rattle.trex_io.specs.Texts.{Writes};
ghost use Rattle.trex_report.specs.Texts.{kept_text, line_text};
ghost use Rattle.trex_wire.specs.Behind.{IsBehind};
ghost use Rattle.trex_words.specs.Asked.{IsWireAsk};
ghost use Rattle.trex_words.specs.declared.asked.WireAsk.{WireAsk as AWireAsk};
ghost use Rattle.trex_top.specs.Ends.Wire.{WireEnds};
ghost use Rattle.trex_top.specs.Sides.{side};
ghost use Rattle.trex_top.specs.Wire.{line_of, spec_of, wire_text};

use crate::saying::tell;
use crate::status::Status;
use std::alloc::Global;
use trex_io::{Failed, Sink, Source};
use trex_measure::MeasureFault;
use trex_report::{Line, write_flows, write_line};
use trex_stats::Stats;
use trex_wire::{WireCounts, WireSpec, measure_behind};
use trex_words::WireAsk;

/// The wire that is asked for.
fn spec_of(ask: &WireAsk) -> WireSpec
    ensures { result ≡ spec_of ask.now }
{
    WireSpec {
        seed: ask.seed,
        loss: ask.loss,
        copy: ask.copy,
        delay: ask.delay,
    }
}

/// The line of a wire.
fn line(counts: WireCounts) -> Line
    ensures { line_text result ≡ line_of counts }
{
    Line::Wire {
        sent: counts.sent,
        lost: counts.lost,
        copied: counts.copied,
        arrived: counts.arrived,
    }
}

/// Writes what is counted of what arrived, and then the line of the wire.
fn write_measured<O: Sink>(to: &mut O, stats: &Stats, counts: WireCounts) -> Result<(), Failed>
    ensures writes { Writes O.held O.faults to.old to.new result (kept_text stats.now ++ line_of counts) }
    ensures behind { (ask : AWireAsk) (rs : List Seen) → IsBehind (spec_of ask) (stats.now, counts) rs
        → kept_text stats.now ++ line_of counts ≡ wire_text ask rs }
{
    if let Err(failed) = write_flows(to, stats) {
        return Err(failed);
    }
    write_line(to, line(counts))
}

/// Reads a capture, sends it over a wire, and writes the lines of what arrives and the line of the wire.
pub(crate) fn wire<S: Source, O: Sink, N: Sink>(
    alloc: Global,
    ask: &WireAsk,
    input: &mut S,
    out: &mut O,
    notes: &mut N,
) -> Status
    requires { IsWireAsk ask.now }
    ensures { WireEnds ask.now (side S.left S.faults input.old input.new) (side O.held O.faults out.old out.new)
        (side N.held N.faults notes.old notes.new) result }
{
    let (stats, counts) = match measure_behind(alloc, input, spec_of(ask)) {
        Ok(measured) => measured,
        Err(MeasureFault::Read) => {
            tell(notes, Line::ReadFault);
            return Status::ReadFault;
        }
        Err(MeasureFault::Bad(fault)) => {
            tell(notes, Line::BadCapture(fault));
            return Status::BadCapture;
        }
        Err(MeasureFault::Memory) => {
            tell(notes, Line::OutOfMemory);
            return Status::Memory;
        }
    };
    match write_measured(out, &stats, counts) {
        Ok(()) => Status::Done,
        Err(_) => {
            tell(notes, Line::WriteFault);
            Status::OutFault
        }
    }
}
