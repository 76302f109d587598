// The place of each field, from the offsets of the standards (IEEE 802.3; IEEE 802.1Q; RFC 791; RFC 793; RFC 768), and numbers in either order.

use trex_fields::{Place, place_of, read_be, read_le, write_be, write_le};
use trex_layers::{Ipv4Place, L4Place, Layers};

/// The fields of a packet of Ethernet, two tags, an IPv4 header of 24 bytes and TCP, with their places and sizes.
const TCP_FIELDS: [(&str, usize, usize); 49] = [
    ("Ethernet.dst", 0, 6),
    ("Ethernet.src", 6, 6),
    ("Ethernet.type", 12, 2),
    ("Ethernet.dst.0", 0, 1),
    ("Ethernet.dst.1", 1, 1),
    ("Ethernet.dst.2", 2, 1),
    ("Ethernet.dst.3", 3, 1),
    ("Ethernet.dst.4", 4, 1),
    ("Ethernet.dst.5", 5, 1),
    ("Ethernet.src.0", 6, 1),
    ("Ethernet.src.1", 7, 1),
    ("Ethernet.src.2", 8, 1),
    ("Ethernet.src.3", 9, 1),
    ("Ethernet.src.4", 10, 1),
    ("Ethernet.src.5", 11, 1),
    ("Dot1Q.tci", 14, 2),
    ("Dot1Q.type", 16, 2),
    ("Dot1Q:1.tci", 18, 2),
    ("Dot1Q:1.type", 20, 2),
    ("IP.vihl", 22, 1),
    ("IP.tos", 23, 1),
    ("IP.len", 24, 2),
    ("IP.id", 26, 2),
    ("IP.frag", 28, 2),
    ("IP.ttl", 30, 1),
    ("IP.proto", 31, 1),
    ("IP.chksum", 32, 2),
    ("IP.src", 34, 4),
    ("IP.dst", 38, 4),
    ("IP.addrs", 34, 8),
    ("IP.src.0", 34, 1),
    ("IP.src.1", 35, 1),
    ("IP.src.2", 36, 1),
    ("IP.src.3", 37, 1),
    ("IP.dst.0", 38, 1),
    ("IP.dst.1", 39, 1),
    ("IP.dst.2", 40, 1),
    ("IP.dst.3", 41, 1),
    ("TCP.sport", 46, 2),
    ("TCP.dport", 48, 2),
    ("TCP.ports", 46, 4),
    ("TCP.seq", 50, 4),
    ("TCP.ack", 54, 4),
    ("TCP.seqack", 50, 8),
    ("TCP.dataofs", 58, 1),
    ("TCP.flags", 59, 1),
    ("TCP.window", 60, 2),
    ("TCP.chksum", 62, 2),
    ("TCP.urgptr", 64, 2),
];

/// The fields of a packet of Ethernet, a tag and UDP, with their places and sizes.
const UDP_FIELDS: [(&str, usize, usize); 7] = [
    ("UDP.sport", 46, 2),
    ("UDP.dport", 48, 2),
    ("UDP.ports", 46, 4),
    ("UDP.len", 50, 2),
    ("UDP.chksum", 52, 2),
    ("UDP.head", 46, 8),
    ("Dot1Q.tci", 14, 2),
];

/// Fields that such a packet doesn't have.
const UDP_LACKS: [&str; 3] = ["Dot1Q:1.tci", "IP.src", "TCP.sport"];

#[test]
fn each_field_lies_where_the_table_says(rt: HostRuntime) {
    let tcp = Layers {
        ethernet: true,
        tags: 2,
        ip: Some(Ipv4Place {
            at: 22,
            header: 24,
            protocol: 6,
        }),
        l4: Some(L4Place::Tcp { at: 46 }),
        rest: 66,
    };
    for &(name, at, size) in &TCP_FIELDS {
        assert_eq!(rt; place_of(&tcp, name), Some(Place { at, size }));
    }
    assert_eq!(rt; place_of(&tcp, "UDP.len"), None);
    assert_eq!(rt; place_of(&tcp, "IP.SRC"), None);
}

#[test]
fn udp_fields_lie_behind_the_udp_header(rt: HostRuntime) {
    let udp = Layers {
        ethernet: true,
        tags: 1,
        ip: None,
        l4: Some(L4Place::Udp { at: 46 }),
        rest: 54,
    };
    for &(name, at, size) in &UDP_FIELDS {
        assert_eq!(rt; place_of(&udp, name), Some(Place { at, size }));
    }
    for &name in &UDP_LACKS {
        assert_eq!(rt; place_of(&udp, name), None);
    }
}

#[test]
fn numbers_are_written_and_read_in_either_order(rt: HostRuntime) {
    let mut bytes = [9; 10];
    write_be::<4>(&mut bytes, 1, 0x1_0203_0405);
    assert_eq!(rt; bytes, [9, 2, 3, 4, 5, 9, 9, 9, 9, 9]);
    write_le::<2>(&mut bytes, 8, 0x1_0203);
    assert_eq!(rt; bytes, [9, 2, 3, 4, 5, 9, 9, 9, 3, 2]);
    assert_eq!(rt; read_be::<8>(&bytes, 2), 0x0304_0509_0909_0302);
    assert_eq!(rt; read_le::<1>(&bytes, 9), 2);
}
