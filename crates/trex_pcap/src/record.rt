// A record of a capture, without its bytes.

/// A record of a capture (pcap 2.4, packet record). Its captured bytes stand in the caller's buffer.
#[derive(Clone, Copy, Debug, PartialEq, Eq, Drop)]
pub struct Record {
    /// Which record it is, from 1.
    pub number: u64,
    /// Its time in ns since 1970.
    pub time: u64,
    /// How many bytes were captured.
    pub captured: u32,
    /// How many bytes the packet had.
    pub original: u32,
}
