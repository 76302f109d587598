// The analysis of a capture, and what is written of it.

ghost use Rattle.std.specs.Prelude.{IfErr, OnOk};
ghost use Rattle.std.specs.Io.KnownBytes.{IsAtEnd};
ghost use Rattle.trex_io.specs.Texts.{Wrote};
ghost use Rattle.trex_measure.specs.Measured.{IfCapture, OnCapture};
ghost use Rattle.trex_report.specs.Texts.{analysis_text};
ghost use Rattle.trex_top.specs.Analysis.{AnalysisAnswers, AnalysisStops};

use std::alloc::Global;
use thiserror::Error;
use trex_io::{Sink, Source};
use trex_measure::{MeasureFault, measure};
use trex_pcap::CaptureFault;
use trex_report::write_flows;

/// Why a capture wasn't analyzed.
#[derive(Clone, Copy, Debug, PartialEq, Eq, Drop, Error)]
pub enum AnalyzeFault {
    /// The input could not be read.
    #[error("the input failed")]
    Read,
    /// The capture has a fault, which is never `Fault`.
    #[error("{0}")]
    Bad(CaptureFault),
    /// The output could not be written.
    #[error("the output failed")]
    Out,
    /// Out of memory.
    #[error("out of memory")]
    Memory,
}

/// Reads a capture (pcap 2.4) to its end, and then writes what is counted of it: a line for each flow, and one for all records.
/// `Read` and `Out` come only where the input or the output failed, and `Bad` exactly where the capture has that fault, but for `Read`
/// and `Memory`.
pub fn analyze<S: Source, O: Sink>(
    alloc: Global,
    input: &mut S,
    out: &mut O,
) -> Result<(), AnalyzeFault>
    ensures done { OnOk result (OnCapture (S.left input.old) (λ rs.
        Wrote O.held out.old out.new (analysis_text rs))) }
    ensures end { OnOk result (IsAtEnd (S.left input.new)) }
    ensures stops { IfErr result (AnalysisStops S.left S.faults O.held O.faults input.old input.new out.old out.new) }
    ensures exact { IfCapture (S.left input.old) (AnalysisAnswers result) }
{
    let stats = match measure(alloc, input) {
        Ok(stats) => stats,
        Err(MeasureFault::Read) => return Err(AnalyzeFault::Read),
        Err(MeasureFault::Bad(fault)) => return Err(AnalyzeFault::Bad(fault)),
        Err(MeasureFault::Memory) => return Err(AnalyzeFault::Memory),
    };
    match write_flows(out, &stats) {
        Ok(()) => Ok(()),
        Err(_) => Err(AnalyzeFault::Out),
    }
}
