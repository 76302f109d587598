// A capture that is measured behind a wire.

ghost use Rattle.std.specs.Prelude.{◌≡◌, [], ◌∷◌, length, OnOk, IfOk, IfErr, IsErrOf};
ghost use Rattle.std.specs.Io.KnownBytes.{IsAtEnd};
ghost use Rattle.trex_io.specs.Faults.{Rises};
ghost use Rattle.trex_measure.specs.Measured.{OnCapture, IfCapture, IsSound, AnswersBy};
ghost use Rattle.trex_wire.specs.Behind.{IsBehind};
ghost use Rattle.trex_wire.specs.Sent.{Carries};
ghost use Rattle.trex_wire.specs.Wired.{IsAsk};

use crate::spec::{WireCounts, WireSpec};
use crate::wire::Wire;
use std::alloc::Global;
use trex_io::{Memory, Source};
use trex_measure::{Keep, MeasureFault, read_into};
use trex_stats::Stats;

impl Keep for Wire {
    ghost stands = { Carries };

    ghost kept = { λ w. w.sent };

    ghost mark = { λ w. w.ask.seed ∷ w.ask.loss ∷ w.ask.copy ∷ w.ask.delay ∷ [] };

    fn take(&mut self, time: u64, bytes: &[u8], original: u32) -> Result<(), Memory> {
        self.send(time, bytes, original)
    }
}

/// Reads a capture (pcap 2.4) to its end, sends its records over a wire, and measures what arrives. `Read` comes only where the source
/// failed, and `Bad` exactly where the capture has that fault, but for `Read` and `Memory`.
pub fn measure_behind<S: Source>(
    alloc: Global,
    input: &mut S,
    ask: WireSpec,
) -> Result<(Stats, WireCounts), MeasureFault>
    requires { IsAsk ask }
    ensures counts { IfOk result (λ p. OnCapture (S.left input.old) (IsBehind ask p)) }
    ensures end { OnOk result (IsAtEnd (S.left input.new)) }
    ensures sound { IfErr result (IsSound (S.left input.old)) }
    ensures read { IsErrOf result MeasureFault.Read → Rises S.faults input.old input.new }
    ensures exact { IfCapture (S.left input.old) (AnswersBy (IsBehind ask) result) }
{
    let wire = read_into(alloc, input, Wire::new(alloc, ask))?;
    let Ok(measured) = wire.measure() else {
        return Err(MeasureFault::Memory);
    };
    Ok(measured)
}
