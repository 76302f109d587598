// The lines on what is counted of a capture.

ghost use Rattle.std.specs.Prelude.{◌≡◌, List};
ghost use Rattle.trex_io.specs.Seen.{Seen};
ghost use Rattle.trex_io.specs.Texts.{Writes};
ghost use Rattle.trex_stats.specs.Counts.{StandsFor};
ghost use Rattle.trex_report.specs.Texts.{flow_line, records_line, kept_text, analysis_text};

use crate::gather::Gathered;
use trex_io::{Failed, Sink, write_all};
use trex_stats::{FlowLine, Stats, Totals};

/// Writes what is counted of a flow, in one piece.
fn write_flow<O: Sink>(to: &mut O, flow: &FlowLine) -> Result<(), Failed>
    ensures { Writes O.held O.faults to.old to.new result (flow_line flow.now) }
{
    let mut line = Gathered::new();
    line.number(b"flow ", flow.flow);
    line.number(b" received ", flow.received);
    line.number(b" duplicates ", flow.duplicates);
    line.number(b" lost ", flow.lost);
    line.number(b" reordered ", flow.reordered);
    line.number(b" early ", flow.early);
    line.number(b" least ", flow.least);
    line.number(b" greatest ", flow.greatest);
    line.number(b" sum ", flow.sum);
    line.text(b"\n");
    write_all(to, line.bytes())
}

/// Writes what is counted of all records.
fn write_records<O: Sink>(to: &mut O, totals: &Totals) -> Result<(), Failed>
    ensures { Writes O.held O.faults to.old to.new result (records_line totals.now) }
{
    let mut line = Gathered::new();
    line.number(b"records ", totals.records);
    line.number(b" bytes ", totals.bytes);
    line.number(b" stamped ", totals.stamped);
    line.text(b"\n");
    write_all(to, line.bytes())
}

/// Writes a line for each flow, in rising order of number, and one for all records. No memory is taken.
pub fn write_flows<O: Sink>(to: &mut O, stats: &Stats) -> Result<(), Failed>
    ensures writes { Writes O.held O.faults to.old to.new result (kept_text stats.now) }
    ensures analysis { (rs : List Seen) → StandsFor stats.now rs → kept_text stats.now ≡ analysis_text rs }
{
    for flow in stats.flows() {
        if let Err(failed) = write_flow(to, &flow) {
            return Err(failed);
        }
    }
    write_records(to, &stats.totals())
}
