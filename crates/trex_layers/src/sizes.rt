// How many bytes a packet has.

/// The length in bytes of the shortest packet: an Ethernet header (IEEE 802.3, 3.1.1).
pub const SHORTEST_PACKET: usize = 14;

/// The length in bytes of the longest packet: a jumbo frame. Own: no standard bounds it.
pub const LONGEST_PACKET: usize = 9_216;
