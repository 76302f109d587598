// What a magic number says of a capture.

/// How a capture spells its numbers, as its magic number says.
#[derive(Clone, Copy, Debug, PartialEq, Eq, Drop)]
pub struct Format {
    /// Numbers stand with their highest byte first.
    pub big: bool,
    /// Fractions of a second are microseconds; else they are nanoseconds.
    pub micro: bool,
}
