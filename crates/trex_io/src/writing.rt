// Whole texts written to a sink, by as many calls as it takes.

ghost use Rattle.std.specs.List.{flat_map};
ghost use Rattle.trex_io.specs.Texts.{Writes};

use crate::fault::Failed;
use crate::sink::Sink;

/// Writes all bytes. At `Failed` the sink took a prefix of them other than the whole.
pub fn write_all<O: Sink>(sink: &mut O, bytes: &[u8]) -> Result<(), Failed>
    ensures { Writes O.held O.faults sink.old sink.new result bytes.now }
{
    let mut rest = bytes;
    while !rest.is_empty() {
        match sink.write(rest) {
            Ok(count) => rest = &rest[count..],
            Err(failed) => return Err(failed),
        }
    }
    Ok(())
}

/// Writes the pieces one after another. At `Failed` the sink took a prefix of them all other than the whole.
pub fn write_pieces<O: Sink>(sink: &mut O, pieces: &[&[u8]]) -> Result<(), Failed>
    ensures { Writes O.held O.faults sink.old sink.new result (flat_map (λ piece. piece.now) pieces.now) }
{
    for piece in pieces {
        if let Err(failed) = write_all(sink, piece) {
            return Err(failed);
        }
    }
    Ok(())
}
