// A packet that is cut at each header (RFC 791, section 3.1; RFC 793, section 3.1; RFC 768; IEEE 802.1Q, section 9.6).

use trex_layers::{Ipv4Place, L4Place, Layers, ipv4_at, parse};

/// The IPv4 header behind two tags.
const IP: Ipv4Place = Ipv4Place {
    at: 22,
    header: 20,
    protocol: 6,
};

/// How many bytes of the packet are there, and what stands in them behind Ethernet: the tags, IPv4, TCP, and the first byte behind them.
const CUTS: [(usize, u8, Option<Ipv4Place>, Option<L4Place>, usize); 5] = [
    (17, 0, None, None, 14),
    (21, 1, None, None, 18),
    (41, 2, None, None, 22),
    (61, 2, Some(IP), None, 42),
    (62, 2, Some(IP), Some(L4Place::Tcp { at: 42 }), 62),
];

/// The headers of a packet that begins with Ethernet.
fn behind_ethernet(tags: u8, ip: Option<Ipv4Place>, l4: Option<L4Place>, rest: usize) -> Layers {
    Layers {
        ethernet: true,
        tags,
        ip,
        l4,
        rest,
    }
}

#[test]
fn each_header_is_there_from_its_last_byte_on(rt: HostRuntime) {
    let mut packet = [0; 62];
    packet[12] = 0x81;
    packet[16] = 0x81;
    packet[20] = 0x08;
    packet[22] = 0x45;
    packet[31] = 6;
    for &(len, tags, ip, l4, rest) in &CUTS {
        assert!(rt; len <= 62);
        assert_eq!(rt; parse(&packet[..len]), behind_ethernet(tags, ip, l4, rest));
    }
    let none = Layers {
        ethernet: false,
        tags: 0,
        ip: None,
        l4: None,
        rest: 0,
    };
    assert_eq!(rt; parse(&packet[..13]), none);
}

#[test]
fn udp_stands_behind_the_options_of_ipv4(rt: HostRuntime) {
    let mut packet = [0; 46];
    packet[12] = 0x08;
    packet[14] = 0x46;
    packet[23] = 17;
    let ip = Some(Ipv4Place {
        at: 14,
        header: 24,
        protocol: 17,
    });
    let udp = Some(L4Place::Udp { at: 38 });
    assert_eq!(rt; parse(&packet), behind_ethernet(0, ip, udp, 46));
    assert_eq!(rt; parse(&packet[..45]), behind_ethernet(0, ip, None, 38));
    packet[14] = 0x44;
    assert_eq!(rt; ipv4_at(&packet, 14), None);
}
