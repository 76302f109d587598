// The lines that tell how a command ended.

ghost use Rattle.trex_top.specs.Sides.{GotLine, side};

use trex_io::Sink;
use trex_report::{Line, write_line};

/// Writes a line on whose failing nothing hangs.
pub(crate) fn tell<N: Sink>(notes: &mut N, line: Line)
    ensures { GotLine (side N.held N.faults notes.old notes.new) line }
{
    let _ = write_line(notes, line);
}
