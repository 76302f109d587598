// The line on a wire.

ghost use Rattle.trex_io.specs.Texts.{Writes};
ghost use Rattle.trex_report.specs.Texts.{wire_line};

use crate::gather::Gathered;
use trex_io::{Failed, Sink, write_all};

/// Writes what a wire did, in one piece.
pub(crate) fn write_wire<O: Sink>(
    to: &mut O,
    sent: u64,
    lost: u64,
    copied: u64,
    arrived: u64,
) -> Result<(), Failed>
    ensures { Writes O.held O.faults to.old to.new result (wire_line sent lost copied arrived) }
{
    let mut line = Gathered::new();
    line.number(b"wire sent ", sent);
    line.number(b" lost ", lost);
    line.number(b" copied ", copied);
    line.number(b" arrived ", arrived);
    line.text(b"\n");
    write_all(to, line.bytes())
}
