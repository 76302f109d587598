//! Pieces of a capture: texts are joined until the next one doesn't fit.

ghost use Rattle.std.specs.Prelude.{◌≡◌, ◌+◌, ◌≤◌, ◌<◌, ◌++◌, [], length, vec_len, OnOk, OnErr};
ghost use Rattle.std.specs.Vec.{vec_capacity};
ghost use Rattle.trex_io.specs.Faults.{HasCause};
ghost use Rattle.trex_io.specs.Texts.{Writes, WrotePart};
ghost use Rattle.trex_run.specs.Pieces.{WrittenAndPending};

use trex_io::{Failed, Sink, write_all};

/// The greatest number of bytes that are handed to the output at once.
pub(crate) const PIECE: usize = 65_536;

/// Makes room in a piece: if so many bytes more don't fit, the piece is written, and then it is empty.
fn make_room<O: Sink>(out: &mut O, piece: &mut Vec<u8>, wanted: usize) -> Result<(), Failed>
    ensures gathers { OnOk result (WrittenAndPending O.held out.old out.new piece.new.items piece.old.items) }
    ensures room { OnOk result (wanted ≤ PIECE → vec_len piece.new + wanted ≤ PIECE) }
    ensures empty { OnOk result (PIECE < wanted → piece.new.items ≡ []) }
    ensures part { OnErr result (WrotePart O.held out.old out.new piece.old.items) }
    ensures cause { HasCause O.faults out.old out.new result }
    ensures capacity { vec_capacity piece.old ≤ vec_capacity piece.new }
{
    if wanted <= PIECE && piece.len() <= PIECE - wanted {
        return Ok(());
    }
    if let Err(failed) = write_all(out, piece) {
        return Err(failed);
    }
    piece.clear();
    Ok(())
}

/// Writes a text in parts that are no longer than a piece.
fn write_parts<O: Sink>(out: &mut O, text: &[u8]) -> Result<(), Failed>
    ensures { Writes O.held O.faults out.old out.new result text.now }
{
    let mut rest = text;
    'parts: while PIECE < rest.len() {
        if let Err(failed) = write_all(out, &rest[..PIECE]) {
            return Err(failed);
        }
        rest = &rest[PIECE..];
    }
    write_all(out, rest)
}

/// Gathers a text: it is put behind the piece, which is written first if the text doesn't fit. A text that is longer than a piece isn't copied,
/// but written itself.
pub(crate) fn gather<O: Sink>(out: &mut O, piece: &mut Vec<u8>, text: &[u8]) -> Result<(), Failed>
    requires capacity { PIECE ≤ vec_capacity piece.old }
    ensures gathers { OnOk result (WrittenAndPending O.held out.old out.new piece.new.items (piece.old.items ++ text.now)) }
    ensures part { OnErr result (WrotePart O.held out.old out.new (piece.old.items ++ text.now)) }
    ensures cause { HasCause O.faults out.old out.new result }
    ensures capacity { PIECE ≤ vec_capacity piece.new }
{
    if let Err(failed) = make_room(out, piece, text.len()) {
        return Err(failed);
    }
    if PIECE < text.len() {
        return write_parts(out, text);
    }
    piece.extend_from_slice(text).unwrap();
    Ok(())
}
