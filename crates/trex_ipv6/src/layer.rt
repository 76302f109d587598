// A layer of a packet over IPv6, and how it is lent to the writer of headers.

ghost use Rattle.trex_ipv6.specs.Layer.{layer6};

use trex_headers::{AsLayer, LayerView, lend};

/// A layer of a packet. Lengths, checksums and the numbers that name the layer behind are filled in where the packet is built.
#[derive(Debug, Drop)]
pub enum Layer6 {
    /// An Ethernet header (IEEE 802.3, 3.1.1): destination, source, and the type that counts where what follows has no number here.
    Ethernet {
        dst: [u8; 6],
        src: [u8; 6],
        etype: u16,
    },
    /// A tag (IEEE 802.1Q, 9.6): its control information, and the type as in Ethernet's header.
    Vlan {
        tci: u16,
        etype: u16,
    },
    /// An IPv6 header (RFC 8200, section 3): traffic class, flow label, hop limit, the next header that counts where neither TCP nor UDP
    /// follows, and the two addresses.
    Ipv6 {
        class: u8,
        label: u32,
        hop: u8,
        next: u8,
        src: [u8; 16],
        dst: [u8; 16],
    },
    /// A TCP header without options (RFC 793, section 3.1): ports, sequence and acknowledgment number, flags, and window.
    Tcp {
        sport: u16,
        dport: u16,
        seq: u32,
        ack: u32,
        flags: u8,
        window: u16,
    },
    /// A UDP header (RFC 768): its ports.
    Udp {
        sport: u16,
        dport: u16,
    },
    /// The payload.
    Raw {
        bytes: Vec<u8>,
    },
}

impl AsLayer for Layer6 {
    ghost plain = { layer6 };

    fn as_layer(&self) -> LayerView<'_> {
        lend!(self, Layer6,
            Layer6::Ipv6 {
                class,
                label,
                hop,
                next,
                src,
                dst,
            } => LayerView::Ipv6 {
                class: *class,
                label: *label,
                hop: *hop,
                next: *next,
                src,
                dst,
            },
        )
    }
}
