// Lengths, places and numbers of Ethernet, tag, IPv4, TCP and UDP headers. Lengths and places are in bytes; a place is counted from its
// header's first byte.

/// The length of an Ethernet header (IEEE 802.3, section 3.1.1).
pub const ETHERNET_LEN: usize = 14;

/// The length of a tag (IEEE 802.1Q, section 9.6).
pub const TAG_LEN: usize = 4;

/// The length of the type in which an Ethernet header and a tag end (IEEE 802.3, section 3.2.6).
pub const TYPE_LEN: usize = 2;

/// The type before a tag (IEEE 802.1Q, section 9.6).
pub const TYPE_VLAN: u16 = 0x8100;

/// The type before an IPv4 header (RFC 894).
pub const TYPE_IPV4: u16 = 0x0800;

/// The length of an IPv4 header without options, which is the least (RFC 791, section 3.1).
pub const IPV4_LEN: usize = 20;

/// The place of the protocol in an IPv4 header.
pub const IPV4_PROTOCOL_AT: usize = 9;

/// The place of the source address in an IPv4 header, before the destination.
pub const IPV4_SOURCE_AT: usize = 12;

/// The protocol of TCP (RFC 790).
pub const PROTOCOL_TCP: u8 = 6;

/// The protocol of UDP (RFC 790).
pub const PROTOCOL_UDP: u8 = 17;

/// The length of a TCP header without options (RFC 793, section 3.1).
pub const TCP_LEN: usize = 20;

/// The length of a UDP header (RFC 768).
pub const UDP_LEN: usize = 8;
