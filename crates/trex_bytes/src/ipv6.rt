// Packets over IPv6 byte by byte, places of fields, and texts of addresses. Expected bytes of addresses are those of Python's ipaddress;
// checksums come from a second program, which adds by end-around carry.

use std::alloc::Global;
use std::test::Fail;
use trex_ipv6::{
    Build6Fault, Layer6, Place6, address6_of, build6, built6_headers_verify, ipv6_at, place6_of,
    written_addresses_are_read,
};

const TO: [u8; 6] = [2, 0, 0, 0, 0, 2];

const FROM: [u8; 6] = [2, 0, 0, 0, 0, 1];

/// 2001:db8::1.
const ONE: [u8; 16] = [0x20, 1, 0x0d, 0xb8, 0, 0, 0, 0, 0, 0, 0, 0, 0, 0, 0, 1];

/// 2001:db8::2.
const TWO: [u8; 16] = [0x20, 1, 0x0d, 0xb8, 0, 0, 0, 0, 0, 0, 0, 0, 0, 0, 0, 2];

/// A datagram from 2001:db8::1 port 1025 to 2001:db8::2 port 12 in an Ethernet frame.
fn datagram(alloc: Global, payload: &[u8]) -> Result<Vec<u8>, Fail> {
    let layers = [
        Layer6::Ethernet {
            dst: TO,
            src: FROM,
            etype: 0,
        },
        Layer6::Ipv6 {
            class: 0,
            label: 0,
            hop: 64,
            next: 59,
            src: ONE,
            dst: TWO,
        },
        Layer6::Udp {
            sport: 1025,
            dport: 12,
        },
        Layer6::Raw {
            bytes: Vec::from_slice(alloc, payload)?,
        },
    ];
    match build6(alloc, &layers) {
        Ok(packet) => Ok(packet),
        Err(_) => Err(Fail::from("refused")),
    }
}

#[test]
fn datagrams_have_their_lengths_and_checksums(rt: HostRuntime) -> Result<(), Fail> {
    let plain = datagram(rt.alloc(), &[0; 18])?;
    let wanted: [u8; 62] = [
        2, 0, 0, 0, 0, 2, 2, 0, 0, 0, 0, 1, 0x86, 0xdd, // Ethernet
        0x60, 0, 0, 0, 0, 0x1a, 17, 64, // IPv6
        0x20, 1, 0x0d, 0xb8, 0, 0, 0, 0, 0, 0, 0, 0, 0, 0, 0, 1, // source
        0x20, 1, 0x0d, 0xb8, 0, 0, 0, 0, 0, 0, 0, 0, 0, 0, 0, 2, // destination
        4, 1, 0, 12, 0, 0x1a, 0xa0, 0x38, // UDP
    ];
    assert_eq!(rt; plain.len(), 80);
    assert!(rt; plain.starts_with(&wanted));
    let odd = datagram(rt.alloc(), &[0, 0, 1])?;
    assert!(rt; odd.len() == 65);
    assert_eq!(rt; (odd[60], odd[61]), (0x9f, 0x56), "an odd length");
    let mut payload = [0; 18];
    payload[0] = 0xa0;
    payload[1] = 0x38;
    let zero = datagram(rt.alloc(), &payload)?;
    assert!(rt; zero.len() == 80);
    assert_eq!(rt;
        (zero[60], zero[61]),
        (0xff, 0xff),
        "the UDP checksum that comes out as zero"
    );
    built6_headers_verify();
    Ok(())
}

#[test]
fn headers_name_what_follows_and_verify(rt: HostRuntime) -> Result<(), Fail> {
    let alloc = rt.alloc();
    let layers = [
        Layer6::Ethernet {
            dst: TO,
            src: FROM,
            etype: 0,
        },
        Layer6::Vlan {
            tci: 0x2005,
            etype: 0,
        },
        Layer6::Vlan { tci: 7, etype: 0 },
        Layer6::Ipv6 {
            class: 0xab,
            label: 0xcdef1,
            hop: 9,
            next: 59,
            src: ONE,
            dst: TWO,
        },
        Layer6::Tcp {
            sport: 0x1234,
            dport: 80,
            seq: 0x0102_0304,
            ack: 0x0506_0708,
            flags: 0x18,
            window: 0x2000,
        },
        Layer6::Raw {
            bytes: Vec::from_slice(alloc, b"odd")?,
        },
    ];
    let wanted: [u8; 85] = [
        2, 0, 0, 0, 0, 2, 2, 0, 0, 0, 0, 1, 0x81, 0, // Ethernet
        0x20, 5, 0x81, 0, 0, 7, 0x86, 0xdd, // tags
        0x6a, 0xbc, 0xde, 0xf1, 0, 0x17, 6, 9, // IPv6
        0x20, 1, 0x0d, 0xb8, 0, 0, 0, 0, 0, 0, 0, 0, 0, 0, 0, 1, // source
        0x20, 1, 0x0d, 0xb8, 0, 0, 0, 0, 0, 0, 0, 0, 0, 0, 0, 2, // destination
        0x12, 0x34, 0, 80, 1, 2, 3, 4, 5, 6, 7, 8, 0x50, 0x18, 0x20, 0, 0x3e, 0x58, 0, 0, // TCP
        b'o', b'd', b'd',
    ];
    let Ok(packet) = build6(alloc, &layers) else {
        return Err(Fail::from("refused"));
    };
    assert_eq!(rt; packet.as_slice(), wanted.as_slice());
    Ok(())
}

#[test]
fn layers_that_end_before_ipv6_are_refused(rt: HostRuntime) {
    let alone = [Layer6::Ethernet {
        dst: TO,
        src: FROM,
        etype: 0,
    }];
    assert_eq!(rt;
        build6(rt.alloc(), &alone).err(),
        Some(Build6Fault::Order { at: 1 })
    );
    assert_eq!(rt;
        build6(rt.alloc(), &[]).err(),
        Some(Build6Fault::Order { at: 0 })
    );
}

/// Names of fields, their offset from the header's first byte, and their length (RFC 8200, section 3).
const NAMES: [(&str, usize, usize); 11] = [
    ("IPv6.len", 4, 2),
    ("IPv6.next", 6, 1),
    ("IPv6.hop", 7, 1),
    ("IPv6.src", 8, 16),
    ("IPv6.dst", 24, 16),
    ("IPv6.src.0", 8, 1),
    ("IPv6.src.9", 17, 1),
    ("IPv6.src.15", 23, 1),
    ("IPv6.dst.0", 24, 1),
    ("IPv6.dst.10", 34, 1),
    ("IPv6.dst.15", 39, 1),
];

/// Texts that name no field of IPv6.
const NO_NAMES: [&str; 4] = ["IPv6.SRC", "IPv6.src.16", "IP.src", ""];

#[test]
fn fields_lie_behind_two_tags_at_most(rt: HostRuntime) {
    for tags in 0..4 {
        let mut packet = [0; 66];
        for tag in 0..tags {
            packet[12 + 4 * tag] = 0x81;
        }
        packet[12 + 4 * tags] = 0x86;
        packet[13 + 4 * tags] = 0xdd;
        let header = 14 + 4 * tags;
        packet[header] = 0x60;
        assert_eq!(rt; ipv6_at(&packet, header), Some(header + 40));
        assert_eq!(rt; ipv6_at(&packet[..header + 39], header), None);
        for &(name, offset, size) in &NAMES {
            let wanted = Place6 {
                at: header + offset,
                size,
            };
            let found = place6_of(&packet, name);
            assert_eq!(rt;
                found,
                if tags < 3 { Some(wanted) } else { None },
                "{name} behind {tags} tags"
            );
            assert_eq!(rt; place6_of(&packet[..header + 39], name), None);
        }
        for &name in &NO_NAMES {
            assert_eq!(rt; place6_of(&packet, name), None);
        }
        packet[header] = 0x4f;
        assert_eq!(rt; ipv6_at(&packet, header), None);
        assert_eq!(rt; place6_of(&packet, "IPv6.len"), None);
    }
}

/// Texts of addresses and their bytes.
const ADDRESSES: [(&str, [u8; 16]); 10] = [
    ("2001:db8::1", ONE),
    ("::", [0; 16]),
    ("::1", [0, 0, 0, 0, 0, 0, 0, 0, 0, 0, 0, 0, 0, 0, 0, 1]),
    ("1::", [0, 1, 0, 0, 0, 0, 0, 0, 0, 0, 0, 0, 0, 0, 0, 0]),
    (
        "1:2:3:4:5:6:7:8",
        [0, 1, 0, 2, 0, 3, 0, 4, 0, 5, 0, 6, 0, 7, 0, 8],
    ),
    (
        "ABCD:EF01:2345:6789:abcd:ef01:2345:6789",
        [
            171, 205, 239, 1, 35, 69, 103, 137, 171, 205, 239, 1, 35, 69, 103, 137,
        ],
    ),
    (
        "1:2:3:4:5:6:7::",
        [0, 1, 0, 2, 0, 3, 0, 4, 0, 5, 0, 6, 0, 7, 0, 0],
    ),
    (
        "::2:3:4:5:6:7:8",
        [0, 0, 0, 2, 0, 3, 0, 4, 0, 5, 0, 6, 0, 7, 0, 8],
    ),
    (
        "0001:0::f",
        [0, 1, 0, 0, 0, 0, 0, 0, 0, 0, 0, 0, 0, 0, 0, 15],
    ),
    (
        "fe80::1:2",
        [254, 128, 0, 0, 0, 0, 0, 0, 0, 0, 0, 0, 0, 1, 0, 2],
    ),
];

/// Python's ipaddress refuses all of these but the address with a zone and the one that ends in an IPv4 address.
const NO_ADDRESSES: [&str; 21] = [
    "",
    ":",
    ":::",
    "1:::2",
    "1::2::3",
    "12345::",
    "1:2:3:4:5:6:7",
    "1:2:3:4:5:6:7:8:9",
    "1:2:3:4:5:6:7::8",
    "1:2:3:4:5:6:7:8::",
    " ::1",
    "::1 ",
    "fe80::1%eth0",
    "[::1]",
    "::ffff:1.2.3.4",
    "+1::",
    "g::",
    "1:",
    "::1:",
    ":1::",
    "0x1::",
];

#[test]
fn addresses_are_read_and_other_texts_are_not(rt: HostRuntime) {
    for &(text, bytes) in &ADDRESSES {
        assert_eq!(rt; address6_of(text), Some(bytes), "{text}");
    }
    for &text in &NO_ADDRESSES {
        assert_eq!(rt; address6_of(text), None, "{text}");
    }
    written_addresses_are_read();
}
