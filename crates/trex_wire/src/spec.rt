// What a wire is asked, and what it counts.

/// What a wire does to records, by the words of a seed.
#[derive(Clone, Copy, Debug, PartialEq, Eq, Drop)]
pub struct WireSpec {
    /// The seed of the words.
    pub seed: u64,
    /// How many of a million records are lost: 0 to 1,000,000.
    pub loss: u32,
    /// How many of a million records that aren't lost arrive twice: 0 to 1,000,000.
    pub copy: u32,
    /// The longest delay of a copy, in ns: 0 to 10^18.
    pub delay: u64,
}

/// How many records a wire was sent, how many of them it lost, how many it copied, and how many copies arrived.
#[derive(Clone, Copy, Debug, PartialEq, Eq, Drop)]
pub struct WireCounts {
    /// The records that were sent.
    pub sent: u64,
    /// Those of them of which nothing arrived.
    pub lost: u64,
    /// Those of them that arrived twice.
    pub copied: u64,
    /// The copies that arrived, of all records.
    pub arrived: u64,
}
