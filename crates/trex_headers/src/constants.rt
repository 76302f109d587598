// Lengths, places and numbers of IP headers. Lengths and places are in bytes; a place is counted from its header's first byte.

/// The place of the total length in an IPv4 header (RFC 791, section 3.1).
pub(crate) const IPV4_LENGTH_AT: usize = 2;

/// The length of an IPv6 header, in bytes (RFC 8200, section 3).
pub const IPV6_LEN: usize = 40;

/// The place of the payload length in an IPv6 header.
pub(crate) const IPV6_LENGTH_AT: usize = 4;

/// The place of the next header in an IPv6 header.
pub(crate) const IPV6_NEXT_AT: usize = 6;

/// The place of the source address in an IPv6 header, before the destination.
pub const IPV6_SOURCE_AT: usize = 8;

/// The type before an IPv6 header (RFC 2464, section 3).
pub const TYPE_IPV6: u16 = 0x86dd;
