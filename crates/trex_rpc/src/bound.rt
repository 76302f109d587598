// The bounds of a session's input, beside that of a line.

/// The most bytes that come before the line `quit`.
pub const MOST_BYTES: u64 = 268_435_456;

/// A bound that an input breaks.
#[derive(Clone, Copy, Debug, PartialEq, Eq)]
pub enum Bound {
    /// A line has more bytes than `LONGEST_LINE`.
    LineTooLong,
    /// More bytes than `MOST_BYTES` come before the line `quit`.
    TooMuch,
}
