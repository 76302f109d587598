// Which orders of layers are accepted. Lengths are sums of those of the headers (RFC 791, section 3.1; RFC 8200, section 3; RFC 793,
// section 3.1; RFC 768).

use std::alloc::{AllocError, Global};
use std::test::Fail;
use trex_headers::{BuildFault, LayerView, Version, build, headers_verify};

/// A layer of each kind by its letter: E, V, 4 and 6 for the headers of IP, T, U, and R for the payload.
fn layer_of<'a>(
    letter: u8,
    mac: &'a [u8; 6],
    address: &'a [u8; 16],
    payload: &'a [u8],
) -> LayerView<'a> {
    match letter {
        b'E' => LayerView::Ethernet {
            dst: mac,
            src: mac,
            etype: 0x88b5,
        },
        b'V' => LayerView::Vlan {
            tci: 7,
            etype: 0x88b5,
        },
        b'4' => LayerView::Ipv4 {
            tos: 0,
            id: 0,
            frag: 0,
            ttl: 64,
            proto: 253,
            src: 0x1000_0001,
            dst: 0x3000_0001,
        },
        b'6' => LayerView::Ipv6 {
            class: 0,
            label: 0,
            hop: 64,
            next: 59,
            src: address,
            dst: address,
        },
        b'T' => LayerView::Tcp {
            sport: 1025,
            dport: 12,
            seq: 0,
            ack: 0,
            flags: 2,
            window: 8192,
        },
        b'U' => LayerView::Udp {
            sport: 1025,
            dport: 12,
        },
        _ => LayerView::Raw { bytes: payload },
    }
}

/// What the layers of these letters give: the packet's length, or the fault.
fn answer_of(
    alloc: Global,
    version: Version,
    letters: &str,
    payload: &[u8],
) -> Result<Result<usize, BuildFault>, AllocError> {
    let mac = [2, 0, 0, 0, 0, 1];
    let address = [0; 16];
    let mut layers = Vec::new(alloc);
    for letter in letters.as_bytes() {
        layers.push(layer_of(*letter, &mac, &address, payload))?;
    }
    Ok(match build(alloc, version, &layers) {
        Ok(packet) => Ok(packet.len()),
        Err(fault) => Err(fault),
    })
}

/// A version of IP, the letters of layers, the bytes of the payload, and the answer: the length of the packet, or the fault.
const ROWS: [(Version, &str, usize, Result<usize, BuildFault>); 49] = [
    (Version::V4, "", 0, Err(BuildFault::Order { at: 0 })),
    (Version::V4, "V", 0, Err(BuildFault::Order { at: 0 })),
    (Version::V4, "4", 0, Err(BuildFault::Order { at: 0 })),
    (Version::V4, "U", 0, Err(BuildFault::Order { at: 0 })),
    (Version::V4, "R", 0, Err(BuildFault::Order { at: 0 })),
    (Version::V4, "EE", 0, Err(BuildFault::Order { at: 1 })),
    (Version::V4, "EU", 0, Err(BuildFault::Order { at: 1 })),
    (Version::V4, "EVT", 0, Err(BuildFault::Order { at: 2 })),
    (Version::V4, "EVVV", 0, Err(BuildFault::Order { at: 3 })),
    (Version::V4, "E4E", 0, Err(BuildFault::Order { at: 2 })),
    (Version::V4, "E4V", 0, Err(BuildFault::Order { at: 2 })),
    (Version::V4, "E44", 0, Err(BuildFault::Order { at: 2 })),
    (Version::V4, "E4TU", 0, Err(BuildFault::Order { at: 3 })),
    (Version::V4, "E4U4", 0, Err(BuildFault::Order { at: 3 })),
    (Version::V4, "ERR", 0, Err(BuildFault::Order { at: 2 })),
    (Version::V4, "ER4", 0, Err(BuildFault::Order { at: 2 })),
    (Version::V4, "E4RU", 0, Err(BuildFault::Order { at: 3 })),
    (Version::V4, "E6", 0, Err(BuildFault::Order { at: 1 })),
    (Version::V4, "E46", 0, Err(BuildFault::Order { at: 2 })),
    (Version::V4, "E4URR", 9300, Err(BuildFault::Order { at: 4 })),
    (Version::V4, "E", 0, Ok(14)),
    (Version::V4, "EVV", 0, Ok(22)),
    (Version::V4, "ER", 9202, Ok(9216)),
    (Version::V4, "ER", 9203, Err(BuildFault::TooLong)),
    (Version::V4, "EV4", 0, Ok(38)),
    (Version::V4, "EVV4TR", 3, Ok(65)),
    (Version::V4, "E4UR", 18, Ok(60)),
    (Version::V6, "", 0, Err(BuildFault::Order { at: 0 })),
    (Version::V6, "6", 0, Err(BuildFault::Order { at: 0 })),
    (Version::V6, "E", 0, Err(BuildFault::Order { at: 1 })),
    (Version::V6, "EVV", 0, Err(BuildFault::Order { at: 3 })),
    (Version::V6, "EVVV6", 0, Err(BuildFault::Order { at: 3 })),
    (Version::V6, "ER", 0, Err(BuildFault::Order { at: 1 })),
    (Version::V6, "EU", 0, Err(BuildFault::Order { at: 1 })),
    (Version::V6, "E4", 0, Err(BuildFault::Order { at: 1 })),
    (Version::V6, "E64", 0, Err(BuildFault::Order { at: 2 })),
    (Version::V6, "E66", 0, Err(BuildFault::Order { at: 2 })),
    (Version::V6, "E6V", 0, Err(BuildFault::Order { at: 2 })),
    (Version::V6, "E6TU", 0, Err(BuildFault::Order { at: 3 })),
    (Version::V6, "E6RR", 0, Err(BuildFault::Order { at: 3 })),
    (Version::V6, "E6RT", 0, Err(BuildFault::Order { at: 3 })),
    (Version::V6, "E6URR", 9300, Err(BuildFault::Order { at: 4 })),
    (Version::V6, "E6", 0, Ok(54)),
    (Version::V6, "EV6", 0, Ok(58)),
    (Version::V6, "EVV6TR", 3, Ok(85)),
    (Version::V6, "E6UR", 18, Ok(80)),
    (Version::V6, "E6U", 0, Ok(62)),
    (Version::V6, "E6R", 9162, Ok(9216)),
    (Version::V6, "E6R", 9163, Err(BuildFault::TooLong)),
];

#[test]
fn layers_stand_in_order_and_within_the_greatest_length(rt: HostRuntime) -> Result<(), Fail> {
    let zeros = vec![in rt.alloc(); 0; 9300]?;
    for &(version, letters, payload, wanted) in &ROWS {
        assert!(rt; payload <= zeros.len());
        let found = answer_of(rt.alloc(), version, letters, &zeros[..payload])?;
        assert_eq!(rt;
            found,
            wanted,
            "{letters} with {payload} bytes over {version:?}"
        );
    }
    headers_verify();
    Ok(())
}
