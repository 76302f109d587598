// Packets over IPv4, byte by byte. Expected bytes come from a second program, which adds by end-around carry.

use std::alloc::Global;
use std::test::Fail;
use trex_build::{BuildFault, LayerSpec, build, built_headers_verify};

/// An Ethernet header.
fn ethernet() -> LayerSpec {
    LayerSpec::Ethernet {
        dst: [2, 0, 0, 0, 0, 2],
        src: [2, 0, 0, 0, 0, 1],
        etype: 0,
    }
}

#[test]
fn layers_without_ethernet_and_packets_that_are_too_long_are_refused(
    rt: HostRuntime,
) -> Result<(), Fail> {
    assert_eq!(rt;
        build(rt.alloc(), &[]).err(),
        Some(BuildFault::Order { at: 0 })
    );
    let long = [
        ethernet(),
        LayerSpec::Raw {
            bytes: vec![in rt.alloc(); 0; 9203]?,
        },
    ];
    assert_eq!(rt; build(rt.alloc(), &long).err(), Some(BuildFault::TooLong));
    built_headers_verify();
    Ok(())
}

#[test]
fn headers_name_what_follows_and_verify(rt: HostRuntime) -> Result<(), Fail> {
    let alloc = rt.alloc();
    let mut payload = Vec::new(alloc);
    payload.extend_from_slice(b"odd")?;
    let layers = vec![in alloc;
        ethernet(),
        LayerSpec::Vlan {
            tci: 0x2005,
            etype: 0
        },
        LayerSpec::Vlan { tci: 7, etype: 0 },
        LayerSpec::Ipv4 {
            tos: 16,
            id: 0xabcd,
            frag: 0x4000,
            ttl: 17,
            proto: 0,
            src: 0x1000_0001,
            dst: 0x3000_0001
        },
        LayerSpec::Tcp {
            sport: 0x1234,
            dport: 80,
            seq: 0x0102_0304,
            ack: 0x0506_0708,
            flags: 0x18,
            window: 0x2000
        },
        LayerSpec::Raw { bytes: payload },
    ]?;
    let wanted: [u8; 65] = [
        2, 0, 0, 0, 0, 2, 2, 0, 0, 0, 0, 1, 0x81, 0, // Ethernet
        0x20, 5, 0x81, 0, 0, 7, 0x08, 0, // tags
        0x45, 0x10, 0, 0x2b, 0xab, 0xcd, 0x40, 0, 0x11, 6, 0x7d, 0xee, 16, 0, 0, 1, 48, 0, 0, 1, // IPv4
        0x12, 0x34, 0, 80, 1, 2, 3, 4, 5, 6, 7, 8, 0x50, 0x18, 0x20, 0, 0x59, 0xcb, 0, 0, // TCP
        b'o', b'd', b'd',
    ];
    let Ok(packet) = build(alloc, &layers) else {
        return Err(Fail::from("refused"));
    };
    assert_eq!(rt; packet.as_slice(), wanted.as_slice());
    Ok(())
}

/// A datagram from 16.0.0.1 port 1025 to 48.0.0.1 port 12 in an Ethernet frame.
fn datagram(alloc: Global, id: u16, payload: &[u8]) -> Result<Vec<u8>, Fail> {
    let mut bytes = Vec::new(alloc);
    bytes.extend_from_slice(payload)?;
    let layers = vec![in alloc;
        ethernet(),
        LayerSpec::Ipv4 {
            tos: 0,
            id,
            frag: 0,
            ttl: 64,
            proto: 253,
            src: 0x1000_0001,
            dst: 0x3000_0001
        },
        LayerSpec::Udp {
            sport: 1025,
            dport: 12
        },
        LayerSpec::Raw { bytes },
    ]?;
    match build(alloc, &layers) {
        Ok(packet) => Ok(packet),
        Err(_) => Err(Fail::from("refused")),
    }
}

#[test]
fn datagrams_have_their_lengths_and_checksums(rt: HostRuntime) -> Result<(), Fail> {
    let plain = datagram(rt.alloc(), 0, &[0; 20])?;
    let wanted: [u8; 42] = [
        2, 0, 0, 0, 0, 2, 2, 0, 0, 0, 0, 1, 0x08, 0, // Ethernet
        0x45, 0, 0, 0x30, 0, 0, 0, 0, 0x40, 17, 0x3a, 0xbc, 16, 0, 0, 1, 48, 0, 0, 1, // IPv4
        4, 1, 0, 12, 0, 28, 0xbb, 0xa7, // UDP
    ];
    assert_eq!(rt; plain.len(), 62);
    assert!(rt; plain.starts_with(&wanted));
    let mut payload = [0; 18];
    payload[0] = 0xbb;
    payload[1] = 0xab;
    let zero = datagram(rt.alloc(), 0x3abe, &payload)?;
    assert!(rt; zero.len() == 60);
    assert_eq!(rt;
        (zero[24], zero[25]),
        (0, 0),
        "the IPv4 checksum that comes out as zero"
    );
    assert_eq!(rt;
        (zero[40], zero[41]),
        (0xff, 0xff),
        "the UDP checksum that comes out as zero"
    );
    Ok(())
}
