// How the program ends.

/// How the program ended; its number is the exit status.
#[derive(Clone, Copy, Debug, PartialEq, Eq)]
pub enum Status {
    /// All was written.
    Done = 0,
    /// The command words have no meaning.
    Usage = 2,
    /// The profile breaks a rule.
    Refused = 3,
    /// The input could not be read.
    ReadFault = 4,
    /// The output could not be written.
    OutFault = 5,
    /// The report could not be written; the capture stands.
    NotesFault = 6,
    /// The capture that was to be measured has a fault.
    BadCapture = 7,
    /// There was no memory.
    Memory = 8,
    /// The capture that was to be imported makes no profile.
    Unfit = 9,
    /// The input of a session breaks a bound.
    BadSession = 10,
}
