// A layer of a packet, as whoever holds it lends it.

/// A version of IP.
#[derive(Clone, Copy, Debug, PartialEq, Eq, Drop)]
pub enum Version {
    /// RFC 791.
    V4,
    /// RFC 8200.
    V6,
}

/// A layer of a packet, its addresses and its payload borrowed. Lengths, checksums and the numbers that name the layer behind are filled
/// in where the packet is built.
#[derive(Clone, Copy, Debug, Drop)]
pub enum LayerView<'a> {
    /// An Ethernet header (IEEE 802.3, 3.1.1): destination, source, and the type that counts where what follows has no number here.
    Ethernet {
        dst: &'a [u8; 6],
        src: &'a [u8; 6],
        etype: u16,
    },
    /// A tag (IEEE 802.1Q, 9.6): its control information, and the type as in Ethernet's header.
    Vlan {
        tci: u16,
        etype: u16,
    },
    /// An IPv4 header without options (RFC 791, section 3.1): type of service, identification, flags and fragment offset, time to
    /// live, the protocol that counts where neither TCP nor UDP follows, and the two addresses.
    Ipv4 {
        tos: u8,
        id: u16,
        frag: u16,
        ttl: u8,
        proto: u8,
        src: u32,
        dst: u32,
    },
    /// An IPv6 header (RFC 8200, section 3): traffic class, flow label, of which the lowest 20 bits are written, hop limit, the next
    /// header that counts where neither TCP nor UDP follows, and the two addresses.
    Ipv6 {
        class: u8,
        label: u32,
        hop: u8,
        next: u8,
        src: &'a [u8; 16],
        dst: &'a [u8; 16],
    },
    /// A TCP header without options (RFC 793, section 3.1): ports, sequence and acknowledgment number, flags, and window.
    Tcp {
        sport: u16,
        dport: u16,
        seq: u32,
        ack: u32,
        flags: u8,
        window: u16,
    },
    /// A UDP header (RFC 768): its ports.
    Udp {
        sport: u16,
        dport: u16,
    },
    /// The payload.
    Raw {
        bytes: &'a [u8],
    },
}
