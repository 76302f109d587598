// The reading of a capture to its end, record by record.

ghost use Rattle.std.specs.Prelude.{◌≡◌, [], OnOk, IfOk, IfErr, IsErrOf};
ghost use Rattle.std.specs.Io.KnownBytes.{IsAtEnd};
ghost use Rattle.trex_io.specs.Faults.{Rises};
ghost use Rattle.trex_stats.specs.Counts.{StandsFor};
ghost use Rattle.trex_measure.specs.Measured.{OnCapture, IfCapture, IsSound, AnswersBy, AnswersFor};

use crate::fault::{MeasureFault, measure_fault};
use crate::keep::Keep;
use crate::window::Window;
use std::alloc::Global;
use trex_io::Source;
use trex_pcap::{Ahead, CaptureFault, CaptureReader, look_ahead};
use trex_stats::Stats;

/// The length of a record header in bytes.
const RECORD_HEADER: usize = 16;

/// Reads a capture (pcap 2.4) to its end and hands each of its records to what keeps it, which is given back. `Read` comes only
/// where the source failed, and `Bad` exactly where the capture has that fault, but for `Read` and `Memory`.
pub fn read_into<S: Source, K: Keep>(
    alloc: Global,
    input: &mut S,
    keep: K,
) -> Result<K, MeasureFault>
    requires none { K.kept keep ≡ 0 }
    requires stands { K.stands keep [] }
    ensures counts { IfOk result (λ k. OnCapture (S.left input.old) (K.stands k)) }
    ensures mark { IfOk result (λ k. K.mark k ≡ K.mark keep) }
    ensures end { OnOk result (IsAtEnd (S.left input.new)) }
    ensures sound { IfErr result (IsSound (S.left input.old)) }
    ensures read { IsErrOf result MeasureFault.Read → Rises S.faults input.old input.new }
    ensures exact { IfCapture (S.left input.old) (AnswersBy K.stands result) }
{
    let Ok(mut window) = Window::new(alloc) else {
        return Err(MeasureFault::Memory);
    };
    let format = match CaptureReader::start(input) {
        Ok(reader) => reader.format(),
        Err(fault) => return Err(measure_fault(fault)),
    };
    let mut keep = keep;
    let mut records = 0;
    'records: loop {
        match look_ahead(format, records, window.bytes()) {
            Ahead::Whole(record) => {
                let captured = record.captured as usize;
                let bytes = &window.bytes()[RECORD_HEADER..][..captured];
                let Ok(()) = keep.take(record.time, bytes, record.original) else {
                    return Err(MeasureFault::Memory);
                };
                window.skip(RECORD_HEADER + captured);
                records = record.number;
            }
            Ahead::Faulty(fault) => return Err(measure_fault(fault)),
            Ahead::Short => {
                let Ok(count) = window.refill(input) else {
                    return Err(MeasureFault::Read);
                };
                if count == 0 {
                    if window.is_empty() {
                        return Ok(keep);
                    }
                    let number = records + 1;
                    return Err(MeasureFault::Bad(CaptureFault::Torn { number }));
                }
            }
        }
    }
}

/// Reads a capture (pcap 2.4) to its end and counts its records. `Read` comes only where the source failed, and `Bad` exactly where the
/// capture has that fault, but for `Read` and `Memory`.
pub fn measure<S: Source>(alloc: Global, input: &mut S) -> Result<Stats, MeasureFault>
    ensures counts { IfOk result (λ c. OnCapture (S.left input.old) (StandsFor c)) }
    ensures end { OnOk result (IsAtEnd (S.left input.new)) }
    ensures sound { IfErr result (IsSound (S.left input.old)) }
    ensures read { IsErrOf result MeasureFault.Read → Rises S.faults input.old input.new }
    ensures exact { IfCapture (S.left input.old) (AnswersFor result) }
{
    read_into(alloc, input, Stats::new(alloc))
}
