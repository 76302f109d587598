// What is measured behind a wire. The numbers of delayed records come from a second program (in Python, by the definition): it draws all words,
// sorts all arrivals and counts over the whole list. The others are worked by hand.

use std::alloc::{AllocError, Global};
use std::fmt::Write;
use std::process::Abort;
use std::test::Fail;
use trex_io::MemSource;
use trex_measure::measure;
use trex_pcap::{header, record_header};
use trex_stats::Stats;
use trex_wire::{WireSpec, measure_behind, nothing_vanishes};

const LONGEST: u64 = 1_000_000_000_000_000_000;

const NONE: &str =
    "WireCounts { sent: 5, lost: 5, copied: 0, arrived: 0 } Totals { records: 0, bytes: 0, stamped: 0 }";

const TWICE: &str =
    "WireCounts { sent: 5, lost: 0, copied: 5, arrived: 10 } Totals { records: 10, bytes: 160, stamped: 10 } \
    FlowLine { flow: 7, received: 10, duplicates: 6, lost: 2, reordered: 1, early: 0, least: 1000, greatest: 5000, sum: 30000 }";

const LATE: &str =
    "WireCounts { sent: 5, lost: 0, copied: 5, arrived: 10 } Totals { records: 10, bytes: 160, stamped: 10 } \
    FlowLine { flow: 7, received: 10, duplicates: 6, lost: 2, reordered: 3, early: 0, \
    least: 128027880598129358, greatest: 891863695370880785, sum: 4728476902984403451 }";

const SOME: &str =
    "WireCounts { sent: 1000, lost: 93, copied: 44, arrived: 951 } Totals { records: 951, bytes: 15216, stamped: 815 } \
    FlowLine { flow: 0, received: 275, duplicates: 12, lost: 71, reordered: 249, early: 0, least: 71955, greatest: 2976035, sum: 418238705 } \
    FlowLine { flow: 1, received: 270, duplicates: 12, lost: 75, reordered: 240, early: 0, least: 194015, greatest: 2847065, sum: 413112357 } \
    FlowLine { flow: 2, received: 270, duplicates: 12, lost: 75, reordered: 243, early: 0, least: 45549, greatest: 2923479, sum: 412187950 }";

const MANY: &str =
    "WireCounts { sent: 1000, lost: 299, copied: 345, arrived: 1046 } Totals { records: 1046, bytes: 16736, stamped: 885 } \
    FlowLine { flow: 0, received: 301, duplicates: 100, lost: 133, reordered: 84, early: 0, least: 19788, greatest: 1020293, sum: 156869805 } \
    FlowLine { flow: 1, received: 286, duplicates: 95, lost: 139, reordered: 80, early: 0, least: 11988, greatest: 995690, sum: 142884554 } \
    FlowLine { flow: 2, received: 298, duplicates: 96, lost: 131, reordered: 98, early: 0, least: 3445, greatest: 1015077, sum: 145057624 }";

const UNSTAMPED: &str =
    "WireCounts { sent: 3, lost: 0, copied: 3, arrived: 6 } Totals { records: 6, bytes: 96, stamped: 0 }";

/// What is asked (seed, loss, copy, delay), and what is measured.
type Row<'a> = (u64, u32, u32, u64, &'a str);

const FIVE: [Row<'static>; 4] = [
    (1, 0, 1_000_000, 0, TWICE),
    (1, 1_000_000, 0, 0, NONE),
    (1, 1_000_000, 1_000_000, LONGEST, NONE),
    (u64::MAX, 0, 1_000_000, LONGEST, LATE),
];

/// Puts a packet of 16 bytes, its latency header: due at the last millisecond, and cut by a byte where it came at a seventh microsecond.
fn put(capture: &mut Vec<u8>, micros: u32, flow: u8, number: u16) -> Result<(), AllocError> {
    let came = u64::from(micros) * 1_000;
    let mut head = record_header(came, 16);
    head[12] = if micros % 7 == 0 { 17 } else { 16 };
    capture.extend_from_slice(&head)?;
    capture.extend_from_slice(&[0xab, 1, 0, flow, 0, 0])?;
    capture.extend_from_slice(&number.to_be_bytes())?;
    capture.extend_from_slice(&(came - came % 1_000_000).to_be_bytes())
}

/// Each row is what is measured of a capture behind a wire.
fn look(rt: &impl Abort, alloc: Global, capture: &Vec<u8>, rows: &[Row<'_>]) -> Result<(), Fail> {
    for &(seed, loss, copy, delay, wanted) in rows {
        assert!(rt; loss <= 1_000_000 && copy <= 1_000_000 && delay <= LONGEST);
        let mut input = MemSource::new(capture.clone()?, 1_000, Vec::new(alloc));
        let ask = WireSpec {
            seed,
            loss,
            copy,
            delay,
        };
        let (stats, counts) = measure_behind(alloc, &mut input, ask)?;
        let lines = text_of(alloc, &stats)?;
        assert_eq!(rt; format!(in alloc; "{counts:?} {lines}")?.as_str(), wanted);
    }
    Ok(())
}

fn text_of(alloc: Global, stats: &Stats) -> Result<String, Fail> {
    let mut text = format!(in alloc; "{:?}", stats.totals())?;
    for line in stats.flows() {
        write!(text, " {line:?}")?;
    }
    Ok(text)
}

/// When each of five packets came, in microseconds, and its number.
const CAME: [(u32, u16); 5] = [
    (1_000_001, 0),
    (1_000_002, 2),
    (1_000_003, 1),
    (1_000_004, 2),
    (1_000_005, 5),
];

#[test]
fn what_a_wire_gives_is_measured(rt: HostRuntime) -> Result<(), Fail> {
    nothing_vanishes();
    let mut capture = Vec::from_slice(rt.alloc(), &header())?;
    let empty =
        "WireCounts { sent: 0, lost: 0, copied: 0, arrived: 0 } Totals { records: 0, bytes: 0, stamped: 0 }";
    look(&rt, rt.alloc(), &capture, &[(1, 0, 1_000_000, 5, empty)])?;
    for &(micros, number) in &CAME {
        put(&mut capture, micros, 7, number)?;
    }
    look(&rt, rt.alloc(), &capture, &FIVE)
}

#[test]
fn records_that_count_for_no_flow_are_only_counted(rt: HostRuntime) -> Result<(), Fail> {
    let mut capture = Vec::from_slice(rt.alloc(), &header())?;
    for micros in [7, 14, 21] {
        put(&mut capture, micros, 1, 0)?;
    }
    look(
        &rt,
        rt.alloc(),
        &capture,
        &[(3, 0, 1_000_000, 1_000_000, UNSTAMPED)],
    )
}

#[test]
fn a_thousand_records_are_measured(rt: HostRuntime) -> Result<(), Fail> {
    let mut capture = Vec::from_slice(rt.alloc(), &header())?;
    for number in 0..1_000u16 {
        put(
            &mut capture,
            u32::from(number),
            (number % 3) as u8,
            number / 3,
        )?;
    }
    let mut input = MemSource::new(capture.clone()?, 1_000, Vec::new(rt.alloc()));
    let plain = text_of(rt.alloc(), &measure(rt.alloc(), &mut input)?)?;
    // A wire that does nothing gives what it is sent.
    let same = format!(in rt.alloc();
        "WireCounts {{ sent: 1000, lost: 0, copied: 0, arrived: 1000 }} {plain}"
    )?;
    let rows = [
        (5, 100_000, 50_000, 2_000_000, SOME),
        (11, 300_000, 500_000, 30_000, MANY),
        (9, 0, 0, 0, same.as_str()),
    ];
    look(&rt, rt.alloc(), &capture, &rows)
}
