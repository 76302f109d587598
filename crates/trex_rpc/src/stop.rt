// Why a session stops.

ghost use Rattle.std.specs.Prelude.{◌≡◌};
ghost use Rattle.trex_rpc.specs.Written.{stop_of};

use crate::bound::Bound;

/// Why a line wasn't answered.
#[derive(Clone, Copy, Debug, PartialEq, Eq)]
pub enum Unanswered {
    /// The output could not be written; a part of the capture may stand there.
    OutFault,
    /// The notes could not be written; a part of the reply may stand there.
    NotesFault,
    /// There was no memory, and nothing was written.
    Memory,
}

/// Why a session stopped before its end.
#[derive(Clone, Copy, Debug, PartialEq, Eq)]
pub enum Stop {
    /// The input could not be read.
    ReadFault,
    /// The output could not be written.
    OutFault,
    /// The notes could not be written.
    NotesFault,
    /// There was no memory.
    Memory,
    /// The input breaks a bound in this line, counted from 1.
    Bad { bound: Bound, line: u64 },
}

/// An answer that failed as the stop of its session.
pub fn stop_of(fault: Unanswered) -> Stop
    ensures { result ≡ stop_of fault }
{
    match fault {
        Unanswered::OutFault => Stop::OutFault,
        Unanswered::NotesFault => Stop::NotesFault,
        Unanswered::Memory => Stop::Memory,
    }
}
