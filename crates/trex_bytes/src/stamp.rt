// Latency headers as bytes. The rows follow from the formats, by hand.

use trex_stamp::{Stamp, Version, find_stamp, write_stamp};

/// Packets, and the version, the flow, the sequence and the time of the headers that they end in.
const STAMPED: [(&[u8], Version, u32, u64, u64); 9] = [
    (
        b"\xab\x01\x00\x03\x00\x00\x00\x01\x00\x00\x00\x00\x13\xde\x43\x55",
        Version::One,
        3,
        1,
        333_333_333,
    ),
    (
        b"\x09\x09\xab\x01\x00\x03\x00\x00\x00\x01\x00\x00\x00\x00\x13\xde\x43\x55",
        Version::One,
        3,
        1,
        333_333_333,
    ),
    (
        b"\xab\x01\xff\xff\xff\xff\xff\xff\xff\xff\xff\xff\xff\xff\xff\xff",
        Version::One,
        65_535,
        4_294_967_295,
        18_446_744_073_709_551_615,
    ),
    (
        b"\xab\x02\x00\x00\x00\x01\x11\x70\x00\x00\x00\x00\x00\x00\x00\x01\x00\x00\x00\x00\x13\xde\x43\x55",
        Version::Two,
        70_000,
        1,
        333_333_333,
    ),
    (
        b"\x09\xab\x02\x00\x00\x00\x01\x11\x70\x00\x00\x00\x00\x00\x00\x00\x01\x00\x00\x00\x00\x13\xde\x43\x55",
        Version::Two,
        70_000,
        1,
        333_333_333,
    ),
    (
        b"\xab\x02\x00\x00\x00\x00\xff\xff\x00\x00\x00\x00\xff\xff\xff\xff\x00\x00\x00\x00\x00\x00\x00\x00",
        Version::Two,
        65_535,
        4_294_967_295,
        0,
    ),
    (
        b"\xab\x02\x00\x00\x00\x01\x00\x00\x00\x00\x00\x01\x00\x00\x00\x00\x00\x00\x00\x00\x00\x00\x00\x00",
        Version::Two,
        65_536,
        4_294_967_296,
        0,
    ),
    (
        b"\xab\x02\x00\x00\xff\xff\xff\xff\xff\xff\xff\xff\xff\xff\xff\xff\xff\xff\xff\xff\xff\xff\xff\xff",
        Version::Two,
        4_294_967_295,
        18_446_744_073_709_551_615,
        18_446_744_073_709_551_615,
    ),
    // the last 24 bytes are a header of version 2, the last 16 one of version 1
    (
        b"\xab\x02\x00\x00\x00\x01\x11\x70\xab\x01\x00\x03\x00\x00\x00\x01\x00\x00\x00\x00\x13\xde\x43\x55",
        Version::One,
        3,
        1,
        333_333_333,
    ),
];

/// Packets that end in no header: too short, a byte behind the header, another mark or version, and the zero bytes of version 2 not zero.
const UNSTAMPED: [&[u8]; 9] = [
    b"",
    b"\x01\x00\x03\x00\x00\x00\x01\x00\x00\x00\x00\x13\xde\x43\x55",
    b"\xab\x01\x00\x03\x00\x00\x00\x01\x00\x00\x00\x00\x13\xde\x43\x55\x09",
    b"\xaa\x01\x00\x03\x00\x00\x00\x01\x00\x00\x00\x00\x13\xde\x43\x55",
    b"\xab\x02\x00\x03\x00\x00\x00\x01\x00\x00\x00\x00\x13\xde\x43\x55",
    b"\x02\x00\x00\x00\x01\x11\x70\x00\x00\x00\x00\x00\x00\x00\x01\x00\x00\x00\x00\x13\xde\x43\x55",
    b"\xab\x03\x00\x00\x00\x01\x11\x70\x00\x00\x00\x00\x00\x00\x00\x01\x00\x00\x00\x00\x13\xde\x43\x55",
    b"\xab\x02\x01\x00\x00\x01\x11\x70\x00\x00\x00\x00\x00\x00\x00\x01\x00\x00\x00\x00\x13\xde\x43\x55",
    b"\xab\x02\x00\x01\x00\x01\x11\x70\x00\x00\x00\x00\x00\x00\x00\x01\x00\x00\x00\x00\x13\xde\x43\x55",
];

#[test]
fn headers_are_found_at_the_packets_end(rt: HostRuntime) {
    for &(packet, version, flow, sequence, time) in &STAMPED {
        let stamp = Stamp {
            version,
            flow,
            sequence,
            time,
        };
        assert_eq!(rt; find_stamp(packet), Some(stamp));
    }
    for &packet in &UNSTAMPED {
        assert_eq!(rt; find_stamp(packet), None);
    }
}

#[test]
fn headers_are_written_over_the_last_bytes(rt: HostRuntime) {
    let mut packet = [9; 18];
    let one = Stamp {
        version: Version::One,
        flow: 3,
        sequence: 1,
        time: 333_333_333,
    };
    write_stamp(&one, &mut packet);
    assert_eq!(rt;
        packet.as_slice(),
        b"\x09\x09\xab\x01\x00\x03\x00\x00\x00\x01\x00\x00\x00\x00\x13\xde\x43\x55".as_slice(),
    );
    let mut packet = [9; 26];
    let two = Stamp {
        version: Version::Two,
        flow: 70_000,
        sequence: 1,
        time: 333_333_333,
    };
    write_stamp(&two, &mut packet);
    assert_eq!(rt;
        packet.as_slice(),
        b"\x09\x09\xab\x02\x00\x00\x00\x01\x11\x70\x00\x00\x00\x00\x00\x00\x00\x01\x00\x00\x00\x00\x13\xde\x43\x55".as_slice(),
    );
}
