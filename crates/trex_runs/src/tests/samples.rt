//! A sample of a million packets, and the first packets of a sample.

ghost use Rattle.trex_words.specs.Asked.{IsRunAsk};

use super::{assert_left, run_open};
use crate::memory::Ends;
use std::test::Fail;
use trex_core::Plan;
use trex_crew::Open;
use trex_sample::sample_profile;
use trex_top::{Status, prepare};
use trex_words::RunAsk;

/// The numbers were worked out by a second program.
#[test]
fn a_sample_of_a_million_packets_is_one_line(rt: HostRuntime) -> Result<(), Fail> {
    let ends = Ends {
        failing_read: 1,
        ..Ends::WIDE
    };
    for line in [
        "sample --seed 1 --streams 256 --limit 1000000 --cores 1",
        "sample --seed 1 --streams 256 --limit 1000000 --cores 8",
    ] {
        let ran = run_open(&rt, rt.alloc(), line, b"", &ends)?;
        let text = b"sample seed 1 streams 256 packets 1000000 bytes 602447537 sum 4a13\n";
        assert_left(&rt, &ran, Status::Done, text, b"");
    }
    Ok(())
}

/// The times of the first packets of the sample of seed 1, and their IPv4 and UDP headers, as another program worked them out.
const PACKETS: [(u64, &[u8; 28]); 3] = [
    (
        0,
        b"\x45\0\x03\x10\0\0\0\0\x40\x11\x37\xdc\x10\0\0\x01\x30\0\0\x01\xa5\x90\0\x0c\x02\xfc\x14\x58",
    ),
    (
        2_462,
        b"\x45\0\x03\x10\0\0\0\0\x40\x11\x37\xdb\x10\0\0\x02\x30\0\0\x01\x1a\xb1\0\x0c\x02\xfc\x9f\x36",
    ),
    (
        4_925,
        b"\x45\0\x03\x10\0\0\0\0\x40\x11\x37\xda\x10\0\0\x03\x30\0\0\x01\x83\xc3\0\x0c\x02\xfc\x36\x23",
    ),
];

/// A run of three packets.
fn three() -> RunAsk
    ensures { IsRunAsk result }
{
    RunAsk {
        duration: 1_000_000_000,
        limit: 3,
        cores: 2,
        base: 0,
    }
}

#[test]
fn the_packets_of_a_sample_have_their_addresses_and_ports(rt: HostRuntime) -> Result<(), Fail> {
    let alloc = rt.alloc();
    let Ok(profile) = sample_profile(alloc, 1, 1) else {
        return Err("no profile".into());
    };
    let ask = three();
    let plan = Plan::new(&profile, ask.duration, ask.base);
    let Ok(mut ready) = prepare(alloc, &profile, &plan, &ask) else {
        return Err("no run".into());
    };
    for &(time, headers) in &PACKETS {
        let more = ready.step(&rt, &mut [Open; 2]);
        assert!(rt; more);
        let head = ready.current();
        assert_eq!(rt; head.time, time);
        assert_eq!(rt; head.bytes.len(), 798);
        assert_eq!(rt; head.bytes.get(14..42), Some(headers.as_slice()));
        assert!(rt; head.bytes.iter().skip(42).all(|byte| *byte == 0));
    }
    Ok(())
}
