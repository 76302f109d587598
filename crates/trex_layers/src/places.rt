// Where headers stand in a packet.

/// Where an IPv4 header stands (RFC 791, section 3.1).
#[derive(Clone, Copy, PartialEq, Eq, Debug, Drop)]
pub struct Ipv4Place {
    /// The place of the header's first byte.
    pub at: usize,
    /// The header's length in bytes, options included.
    pub header: usize,
    /// The protocol that the header names, as 6 for TCP and 17 for UDP.
    pub protocol: u8,
}

/// Where a TCP header (RFC 793, section 3.1) or a UDP header (RFC 768) stands.
#[derive(Clone, Copy, PartialEq, Eq, Debug, Drop)]
pub enum L4Place {
    /// A TCP header, from its first byte on.
    Tcp { at: usize },
    /// A UDP header, from its first byte on.
    Udp { at: usize },
}

/// The headers of a packet.
#[derive(Clone, Copy, PartialEq, Eq, Debug, Drop)]
pub struct Layers {
    /// The packet begins with an Ethernet header.
    pub ethernet: bool,
    /// The number of 802.1Q tags behind it, 2 at most.
    pub tags: u8,
    /// The IPv4 header.
    pub ip: Option<Ipv4Place>,
    /// The TCP or UDP header.
    pub l4: Option<L4Place>,
    /// The first byte behind what was recognised, a TCP header taken as 20 bytes.
    pub rest: usize,
}
