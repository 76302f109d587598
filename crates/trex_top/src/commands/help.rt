// The command `help`: the commands and their options.

ghost use Rattle.trex_top.specs.Ends.Help.{HelpEnds};
ghost use Rattle.trex_top.specs.Sides.{side};

use crate::saying::tell;
use crate::status::Status;
use trex_io::{Sink, write_all};
use trex_report::Line;
use trex_words::help_text;

/// Writes the help text.
pub(crate) fn help<O: Sink, N: Sink>(out: &mut O, notes: &mut N) -> Status
    ensures { HelpEnds (side O.held O.faults out.old out.new) (side N.held N.faults notes.old notes.new) result }
{
    match write_all(out, help_text().as_bytes()) {
        Ok(()) => Status::Done,
        Err(_) => {
            tell(notes, Line::WriteFault);
            Status::OutFault
        }
    }
}
