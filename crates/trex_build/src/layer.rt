// A layer of a packet over IPv4, and how it is lent to the writer of headers.

ghost use Rattle.trex_build.specs.Layer.{layer};

use trex_headers::{AsLayer, LayerView, lend};

/// A layer of a packet. Lengths, checksums and the numbers that name the layer behind are filled in where the packet is built.
#[derive(Debug, Drop)]
pub enum LayerSpec {
    /// An Ethernet header (IEEE 802.3, 3.1.1): destination, source, and the type that counts where what follows has no number here.
    Ethernet {
        dst: [u8; 6],
        src: [u8; 6],
        etype: u16,
    },
    /// A tag (IEEE 802.1Q, 9.6): its control information, and the type as in Ethernet's header.
    Vlan {
        tci: u16,
        etype: u16,
    },
    /// An IPv4 header without options (RFC 791, section 3.1): type of service, identification, flags and fragment offset, time to
    /// live, the protocol that counts where neither TCP nor UDP follows, and the two addresses.
    Ipv4 {
        tos: u8,
        id: u16,
        frag: u16,
        ttl: u8,
        proto: u8,
        src: u32,
        dst: u32,
    },
    /// A TCP header without options (RFC 793, section 3.1): ports, sequence and acknowledgment number, flags, and window.
    Tcp {
        sport: u16,
        dport: u16,
        seq: u32,
        ack: u32,
        flags: u8,
        window: u16,
    },
    /// A UDP header (RFC 768): its ports.
    Udp {
        sport: u16,
        dport: u16,
    },
    /// The payload.
    Raw {
        bytes: Vec<u8>,
    },
}

impl AsLayer for LayerSpec {
    ghost plain = { layer };

    fn as_layer(&self) -> LayerView<'_> {
        lend!(self, LayerSpec,
            LayerSpec::Ipv4 {
                tos,
                id,
                frag,
                ttl,
                proto,
                src,
                dst,
            } => LayerView::Ipv4 {
                tos: *tos,
                id: *id,
                frag: *frag,
                ttl: *ttl,
                proto: *proto,
                src: *src,
                dst: *dst,
            },
        )
    }
}
