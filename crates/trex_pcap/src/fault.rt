// What can be wrong with a capture that is read.

use thiserror::Error;

/// What is wrong with a capture, and at which record; records are counted from 1.
#[derive(Clone, Copy, Debug, PartialEq, Eq, Drop, Error)]
pub enum CaptureFault {
    /// The capture ends within this record, or within the file header, which has the number 0.
    #[error("record {number} is torn")]
    Torn { number: u64 },
    /// The first four bytes are no magic number in either byte order.
    #[error("no magic number")]
    BadMagic,
    /// The version isn't 2.4.
    #[error("not version 2.4")]
    BadVersion,
    /// The link word, all four bytes of it, isn't 1, Ethernet.
    #[error("not Ethernet")]
    BadLink,
    /// A byte follows record 100,000,000.
    #[error("more than 100000000 records")]
    TooMany,
    /// The fraction is a second or more.
    #[error("the fraction of record {number} is a second or more")]
    BadFraction { number: u64 },
    /// The captured length is above 262,144 bytes.
    #[error("record {number} has more than 262144 bytes")]
    BadLength { number: u64 },
    /// The source failed; the capture itself may be without a fault.
    #[error("the source failed")]
    Fault,
}
