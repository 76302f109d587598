// Lines with their numbers, and sinks that fail.

use super::*;
use std::alloc::Global;
use std::test::Fail;
use trex_io::MemSink;
use trex_pcap::{CaptureFault, Unfit};
use trex_stats::Stats;
use trex_words::{OptionName, Usage};

/// A sink whose call of this number fails.
fn sink(alloc: Global, failing: u64) -> Result<MemSink, Fail> {
    let failing = Vec::from_slice(alloc, &[failing])?;
    Ok(MemSink::new(alloc, 400, 400, failing)?)
}

#[test]
fn a_line_ends_with_its_numbers(rt: HostRuntime) -> Result<(), Fail> {
    let torn = CaptureFault::Torn { number: 0 };
    let long = CaptureFault::BadLength { number: 7 };
    let missing = Usage::Missing {
        option: OptionName::Seed,
    };
    let sample = Line::Sample {
        seed: u64::MAX,
        streams: 256,
        packets: 3,
        bytes: 42,
        sum: 0x0fa9,
    };
    for (line, text) in [
        (Line::Accepted { streams: 4096 }, "accepted streams 4096\n"),
        (Line::BadCapture(torn), "bad capture: Torn record 0\n"),
        (Line::BadCapture(long), "bad capture: BadLength record 7\n"),
        (
            Line::BadCapture(CaptureFault::TooMany),
            "bad capture: TooMany\n",
        ),
        (
            Line::Unfit(Unfit::Backwards { number: 2 }),
            "unfit capture: Backwards record 2\n",
        ),
        (Line::Unfit(Unfit::TooLarge), "unfit capture: TooLarge\n"),
        (Line::Usage(missing), "usage: Missing option --seed\n"),
        (
            sample,
            "sample seed 18446744073709551615 streams 256 packets 3 bytes 42 sum 0fa9\n",
        ),
    ] {
        let mut to = sink(rt.alloc(), 0)?;
        assert_eq!(rt; write_line(&mut to, line), Ok(()));
        assert_eq!(rt; to.bytes(), text.as_bytes());
    }
    Ok(())
}

#[test]
fn the_lines_of_a_capture_are_a_call_each(rt: HostRuntime) -> Result<(), Fail> {
    let stamp = b"\xab\x01\xff\xff\xff\xff\xff\xff\0\0\0\0\0\0\0\0";
    let mut stats = Stats::new(rt.alloc());
    stats.add(u64::MAX, stamp, 16)?;
    stats.add(0, stamp, 17)?;
    let mut to = sink(rt.alloc(), 3)?;
    assert_eq!(rt; write_flows(&mut to, &stats), Ok(()));
    let text = b"flow 65535 received 1 duplicates 0 lost 4294967295 reordered 0 early 0 \
least 18446744073709551615 greatest 18446744073709551615 sum 18446744073709551615\n\
records 2 bytes 32 stamped 1\n";
    assert_eq!(rt; to.bytes(), text.as_slice());
    Ok(())
}
