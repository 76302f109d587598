// Why the records of a capture make no profile.

/// Why a capture without a fault makes no profile, and at which record; records are counted from 1.
#[derive(Clone, Copy, Debug, PartialEq, Eq, Drop)]
pub enum Unfit {
    /// It is record 4,097, and a profile has at most 4,096 streams.
    Count { number: u64 },
    /// The captured length is outside 14 to 9,216 bytes.
    Length { number: u64 },
    /// The captured length isn't the original length.
    Cut { number: u64 },
    /// The time is below that of the record before it.
    Backwards { number: u64 },
    /// The time is 10^18 ns or more after that of the first record.
    Late { number: u64 },
    /// The profile's text has more than 33,554,432 bytes.
    TooLarge,
}
