// The counts of packets, flow by flow. Expected lines come from a second program, which counts by the definitions over the whole list.

ghost use Rattle.std.specs.Prelude.{◌≤◌, length};

use std::alloc::Global;
use std::test::Fail;
use trex_io::Memory;
use trex_stamp::{Stamp, Version, write_stamp};
use trex_stats::{FlowLine, SeqRanges, Stats, Totals};

/// A packet of a flow: its sequence number, when it was due and when it came, in ns.
#[derive(Clone, Copy, Drop)]
struct Came(u32, u64, u64, u64);

/// The counts of packets of 24 bytes that are their latency headers, of version 2.
fn counts_of(alloc: Global, packets: &[Came]) -> Result<Stats, Memory>
    requires { length packets.now ≤ 100 }
{
    let mut stats = Stats::new(alloc);
    for Came(flow, sequence, time, came) in packets {
        let mut bytes = [0; 24];
        let stamp = Stamp {
            version: Version::Two,
            flow: *flow,
            sequence: *sequence,
            time: *time,
        };
        write_stamp(&stamp, &mut bytes);
        stats.add(*came, &bytes, 24)?;
    }
    Ok(stats)
}

/// A line of flow 0 with no early packet.
fn line(received: u64, duplicates: u64, lost: u64, reordered: u64) -> FlowLine {
    FlowLine {
        flow: 0,
        received,
        duplicates,
        lost,
        reordered,
        early: 0,
        least: 0,
        greatest: 0,
        sum: 0,
    }
}

/// The only line of some packets of flow 0.
fn line_of(alloc: Global, packets: &[Came]) -> Result<Option<FlowLine>, Memory>
    requires { length packets.now ≤ 100 }
{
    Ok(counts_of(alloc, packets)?.flows().next())
}

#[test]
fn a_late_packet_is_reordered_and_a_repeat_is_a_duplicate(rt: HostRuntime) -> Result<(), Fail> {
    let due = 1_000_000_000;
    let packets = [
        Came(7, 0, due, due + 1_000),
        Came(7, 2, due, due + 2_000),
        Came(7, 1, due, due + 3_000),
        Came(7, 2, due, due + 4_000),
        Came(7, 5, due, due + 5_000),
    ];
    let stats = counts_of(rt.alloc(), &packets)?;
    assert_eq!(rt; stats.len(), 1);
    let wanted = FlowLine {
        flow: 7,
        least: 1_000,
        greatest: 5_000,
        sum: 15_000,
        ..line(5, 1, 2, 1)
    };
    assert_eq!(rt; stats.flow(0), wanted);
    let totals = Totals {
        records: 5,
        bytes: 120,
        stamped: 5,
    };
    assert_eq!(rt; stats.totals(), totals);
    Ok(())
}

#[test]
fn numbers_are_counted_in_whatever_order_they_come(rt: HostRuntime) -> Result<(), Fail> {
    let reverse = [
        Came(0, 4, 0, 7),
        Came(0, 3, 0, 7),
        Came(0, 2, 0, 7),
        Came(0, 1, 0, 7),
        Came(0, 0, 0, 7),
    ];
    let wanted = FlowLine {
        least: 7,
        greatest: 7,
        sum: 35,
        ..line(5, 0, 0, 4)
    };
    assert_eq!(rt; line_of(rt.alloc(), &reverse)?, Some(wanted));
    let repeats = [
        Came(0, 3, 0, 0),
        Came(0, 3, 0, 1),
        Came(0, 3, 0, 2),
        Came(0, 0, 0, 3),
        Came(0, 0, 0, 4),
    ];
    let wanted = FlowLine {
        greatest: 4,
        sum: 10,
        ..line(5, 3, 2, 1)
    };
    assert_eq!(rt; line_of(rt.alloc(), &repeats)?, Some(wanted));
    let last = [Came(0, u64::MAX, 0, 0)];
    assert_eq!(rt; line_of(rt.alloc(), &last)?, Some(line(1, 0, u64::MAX, 0)));
    Ok(())
}

#[test]
fn an_early_packet_has_no_latency(rt: HostRuntime) -> Result<(), Fail> {
    let only = [Came(0, 0, u64::MAX, 0)];
    let wanted = FlowLine {
        early: 1,
        ..line(1, 0, 0, 0)
    };
    assert_eq!(rt; line_of(rt.alloc(), &only)?, Some(wanted));
    let between = [
        Came(0, 0, 10, 4),
        Came(0, 1, 10, 30),
        Came(0, 2, 10, 9),
        Came(0, 3, 10, 12),
        Came(0, 4, 10, 10),
    ];
    let wanted = FlowLine {
        early: 2,
        greatest: 20,
        sum: 22,
        ..line(5, 0, 0, 0)
    };
    assert_eq!(rt; line_of(rt.alloc(), &between)?, Some(wanted));
    Ok(())
}

#[test]
fn flows_come_in_rising_order_of_number(rt: HostRuntime) -> Result<(), Fail> {
    let packets = [
        Came(4_294_967_295, 0, 0, 0),
        Came(0, 0, 0, 0),
        Came(4_294_967_295, 1, 0, 0),
    ];
    let stats = counts_of(rt.alloc(), &packets)?;
    let mut flows = stats.flows();
    assert_eq!(rt; flows.next(), Some(line(1, 0, 0, 0)));
    let last = FlowLine {
        flow: 4_294_967_295,
        ..line(2, 0, 0, 0)
    };
    assert_eq!(rt; flows.next(), Some(last));
    assert_eq!(rt; flows.next(), None);
    assert_eq!(rt; stats.len(), 2);
    assert_eq!(rt; stats.flow(1), last);
    Ok(())
}

/// A latency header of version 1 and one of version 2, both of packet 2 of flow 7, due at 10 ns.
const ONE: &[u8] = b"\xab\x01\0\x07\0\0\0\x02\0\0\0\0\0\0\0\x0a";

const TWO: &[u8] = b"\xab\x02\0\0\0\0\0\x07\0\0\0\0\0\0\0\x02\0\0\0\0\0\0\0\x0a";

#[test]
fn both_headers_count_for_one_flow(rt: HostRuntime) -> Result<(), Fail> {
    let mut stats = Stats::new(rt.alloc());
    stats.add(15, ONE, 16)?;
    stats.add(20, TWO, 24)?;
    assert_eq!(rt; stats.len(), 1);
    let wanted = FlowLine {
        flow: 7,
        least: 5,
        greatest: 10,
        sum: 15,
        ..line(2, 1, 2, 0)
    };
    assert_eq!(rt; stats.flow(0), wanted);
    Ok(())
}

#[test]
fn only_a_whole_packet_counts_for_a_flow(rt: HostRuntime) -> Result<(), Fail> {
    let mut stats = Stats::new(rt.alloc());
    stats.add(0, ONE, 15)?;
    stats.add(0, ONE, 17)?;
    stats.add(0, &ONE[1..], 15)?;
    stats.add(0, TWO, 23)?;
    stats.add(0, TWO, 25)?;
    stats.add(0, &TWO[1..], 23)?;
    stats.add(0, &[], 0)?;
    assert_eq!(rt; stats.len(), 0);
    let totals = Totals {
        records: 7,
        bytes: 118,
        stamped: 0,
    };
    assert_eq!(rt; stats.totals(), totals);
    Ok(())
}

/// A number that goes into a set, whether it is new, and how many numbers the set has then, and its greatest.
#[derive(Clone, Copy, Drop)]
struct Taken(u64, bool, u64, u64);

/// Numbers that make the last range longer, repeat it, touch it from below, leave a gap behind it, or go backwards.
const TAKEN: [Taken; 20] = [
    Taken(5, true, 1, 5),
    Taken(6, true, 2, 6),
    Taken(6, false, 2, 6),
    Taken(5, false, 2, 6),
    Taken(4, true, 3, 6),
    Taken(9, true, 4, 9),
    Taken(9, false, 4, 9),
    Taken(6, false, 4, 9),
    Taken(8, true, 5, 9),
    Taken(7, true, 6, 9),
    Taken(2, true, 7, 9),
    Taken(3, true, 8, 9),
    Taken(0, true, 9, 9),
    Taken(10, true, 10, 10),
    Taken(12, true, 11, 12),
    Taken(u64::MAX, true, 12, u64::MAX),
    Taken(u64::MAX, false, 12, u64::MAX),
    Taken(u64::MAX - 1, true, 13, u64::MAX),
    Taken(13, true, 14, u64::MAX),
    Taken(12, false, 14, u64::MAX),
];

/// Numbers, and whether they are in the set then.
const THERE: [(u64, bool); 9] = [
    (0, true),
    (1, false),
    (2, true),
    (10, true),
    (11, false),
    (13, true),
    (14, false),
    (u64::MAX - 2, false),
    (u64::MAX - 1, true),
];

#[test]
fn a_set_of_numbers_joins_its_ranges(rt: HostRuntime) -> Result<(), Fail> {
    let mut set = SeqRanges::new(rt.alloc());
    assert_eq!(rt; set.greatest(), None);
    for &Taken(number, new, count, greatest) in &TAKEN {
        assert!(rt; set.count() < 100);
        assert_eq!(rt; set.insert(number)?, new, "{number}");
        assert_eq!(rt; set.count(), count, "{number}");
        assert_eq!(rt; set.greatest(), Some(greatest), "{number}");
    }
    for &(number, there) in &THERE {
        assert_eq!(rt; set.contains(number), there, "{number}");
    }
    Ok(())
}
