// The import of a capture.

ghost use Rattle.std.specs.Prelude.{IfErr, OnOk};
ghost use Rattle.std.specs.Io.KnownBytes.{IsAtEnd};
ghost use Rattle.trex_io.specs.Texts.{Wrote};
ghost use Rattle.trex_measure.specs.Measured.{IfCapture, OnCapture};
ghost use Rattle.trex_import.specs.Answers.{ImportAnswers, ImportStops};
ghost use Rattle.trex_import.specs.Imported.{imported};

use crate::draft::{Draft, TextFault};
use crate::fault::ImportFault;
use std::alloc::Global;
use trex_io::{Sink, Source, write_all};
use trex_measure::{MeasureFault, read_into};

/// Reads a capture (pcap 2.4) to its end, and then writes the text of a profile that sends its records again, at their times since the
/// first. `Read` and `Out` come only where the input or the output failed; `Bad` exactly where the capture has that fault, and `Unfit`
/// exactly where it has none and its records are unfit for that, but for `Read` and `Memory`.
pub fn import<S: Source, O: Sink>(
    alloc: Global,
    input: &mut S,
    out: &mut O,
) -> Result<(), ImportFault>
    ensures done { OnOk result (OnCapture (S.left input.old) (λ rs.
        Wrote O.held out.old out.new (imported rs))) }
    ensures end { OnOk result (IsAtEnd (S.left input.new)) }
    ensures stops { IfErr result (ImportStops S.left S.faults O.held O.faults input.old input.new out.old out.new) }
    ensures exact { IfCapture (S.left input.old) (ImportAnswers result) }
{
    let draft = match read_into(alloc, input, Draft::new(alloc)) {
        Ok(draft) => draft,
        Err(MeasureFault::Read) => return Err(ImportFault::Read),
        Err(MeasureFault::Bad(fault)) => return Err(ImportFault::Bad(fault)),
        Err(MeasureFault::Memory) => return Err(ImportFault::Memory),
    };
    let text = match draft.text() {
        Ok(text) => text,
        Err(TextFault::Broken(unfit)) => return Err(ImportFault::Unfit(unfit)),
        Err(TextFault::Memory) => return Err(ImportFault::Memory),
    };
    match write_all(out, &text) {
        Ok(()) => Ok(()),
        Err(_) => Err(ImportFault::Out),
    }
}
