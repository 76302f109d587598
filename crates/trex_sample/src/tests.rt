// Samples against words, headers and streams that another program worked out.

use crate::sample_profile;
use crate::template::template;
use crate::word::word;
use std::test::Fail;
use trex_sched::{Mode, Period};
use trex_vars::VarSpec;

/// The words of PCG XSL RR 128/64 with these states and stream 0 were worked out by another program.
#[test]
fn the_words_are_those_of_the_generator(rt: HostRuntime) {
    for (seed, number, wanted) in [
        (0, 0, 0xd4feb4e5a4bcfe09),
        (0, 1, 0xe85a7fe071b026e6),
        (1, 0, 0x71564ba1920863f1),
        (1, 3, 0xa3d0bb4a02495b7f),
        (1, 1023, 0xe351205d5fa68607),
        (u64::MAX, 0, 0xfb5fd3d9b3d0cca6),
        (u64::MAX, 1023, 0x18f02df4b816e481),
    ] {
        assert_eq!(rt; word(seed, number), wanted, "word {number} of {seed}");
    }
}

/// The IPv4 checksum of a total length of 48 is 3abc, and the UDP checksum of a segment of 28 bytes is bba7.
#[test]
fn a_template_has_its_lengths_and_checksums(rt: HostRuntime) -> Result<(), Fail> {
    let rows: [(u16, [u8; 2], [u8; 2], [u8; 2], [u8; 2]); 3] = [
        (18, [0, 0x2e], [0x3a, 0xbe], [0, 0x1a], [0xbb, 0xab]),
        (20, [0, 0x30], [0x3a, 0xbc], [0, 0x1c], [0xbb, 0xa7]),
        (1018, [4, 0x16], [0x36, 0xd6], [4, 2], [0xb3, 0xdb]),
    ];
    for (pad, total, header_sum, segment, segment_sum) in rows {
        assert!(rt; pad <= 1018);
        let Ok(bytes) = template(rt.alloc(), pad) else {
            return Err(Fail::from("memory"));
        };
        let wanted = [
            2,
            0,
            0,
            0,
            0,
            2,
            2,
            0,
            0,
            0,
            0,
            1,
            8,
            0,
            0x45,
            0,
            total[0],
            total[1],
            0,
            0,
            0,
            0,
            64,
            17,
            header_sum[0],
            header_sum[1],
            16,
            0,
            0,
            1,
            48,
            0,
            0,
            1,
            4,
            1,
            0,
            12,
            segment[0],
            segment[1],
            segment_sum[0],
            segment_sum[1],
        ];
        assert_eq!(rt; bytes.len(), 42 + usize::from(pad));
        assert!(rt;
            bytes.starts_with(&wanted),
            "the headers in front of {pad} zeros"
        );
    }
    Ok(())
}

/// Pads, rates and modes by the words of seed 1 were worked out by another program.
#[test]
fn a_seed_gives_its_streams(rt: HostRuntime) -> Result<(), Fail> {
    let rows = [
        (756, 406_016, Mode::SingleBurst { total: 226 }),
        (563, 434_371, Mode::SingleBurst { total: 570 }),
        (
            464,
            649_983,
            Mode::MultiBurst {
                per_burst: 49,
                ibg: 1000,
                count: 9,
            },
        ),
        (703, 647_272, Mode::Continuous),
    ];
    let Ok(profile) = sample_profile(rt.alloc(), 1, 16) else {
        return Err(Fail::from("memory"));
    };
    assert_eq!(rt; profile.len(), 16);
    let chains = profile.chains();
    assert_eq!(rt; chains.len(), 16);
    for (at, (pad, rate, mode)) in rows.into_iter().enumerate() {
        assert!(rt; at < 4);
        let spec = profile.stream(at);
        assert_eq!(rt; spec.id, at as u32 + 1);
        assert_eq!(rt; spec.template.len(), 42 + pad);
        let legs = &chains[at].legs;
        assert_eq!(rt; legs.len(), 1);
        assert_eq!(rt; legs[0].isg, at as u64 * 1000);
        assert_eq!(rt;
            Some(legs[0].period),
            Period::new(1_000_000_000_000_000, rate * 1_000_000)
        );
        assert_eq!(rt; legs[0].mode, mode);
    }
    Ok(())
}

#[test]
fn the_least_and_the_greatest_sample_keep_the_rules(rt: HostRuntime) -> Result<(), Fail> {
    for (seed, streams, pad) in [(0, 1, 797), (u64::MAX, 256, 768)] {
        assert!(rt; 1 <= streams && streams <= 256);
        let Ok(profile) = sample_profile(rt.alloc(), seed, streams) else {
            return Err(Fail::from("memory"));
        };
        assert_eq!(rt; profile.len(), streams as usize);
        let last = profile.stream(streams as usize - 1);
        assert_eq!(rt; last.id, streams);
        assert_eq!(rt; last.template.len(), 42 + pad);
        assert_eq!(rt; last.vars.len(), 2);
        let VarSpec::Counter { seed, position, .. } = &last.vars[1] else {
            return Err(Fail::from("no counter"));
        };
        assert_eq!(rt; *seed, u64::from(streams) - 1);
        assert_eq!(rt; *position, 2);
    }
    Ok(())
}
