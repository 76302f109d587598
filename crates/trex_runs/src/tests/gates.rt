//! What the gates of a run are told, and when they are entered.

use super::{CAPTURE, REPORT, THIRDS, assert_left};
use crate::memory::{Ends, Ran, run};
use std::alloc::{AllocError, Global};
use std::process::Abort;
use std::sync::Arc;
use std::sync::atomic::AtomicU64;
use std::sync::atomic::Ordering::SeqCst;
use std::test::Fail;
use std::thread::{Threads, yield_now};
use trex_crew::{Gate, ListGate};
use trex_top::Status;

/// How often a gate looks for the other.
const LOOKS: u32 = 10_000_000;

/// What two gates know of each other.
#[derive(Drop)]
struct Room {
    // how many of them wait at their first entry, and for how many entries of the other
    waiting: u64,
    wanted: u64,
    // how often each was entered
    first: AtomicU64,
    second: AtomicU64,
    // how many came for the first time, and how many saw in time what they waited for
    came: AtomicU64,
    saw: AtomicU64,
}

/// One of two gates, of which those that are entered first wait for the other.
#[derive(Drop)]
struct Guest {
    is_first: bool,
    was_here: bool,
    room: Arc<Room, Global>,
}

/// A gate waits until the other was entered as often as wanted, or up to the stated number of looks.
fn wait(room: &Room, other: &AtomicU64) {
    for _ in 0..LOOKS {
        if other.load(SeqCst) >= room.wanted {
            room.saw.fetch_add(1, SeqCst);
            return;
        }
        yield_now();
    }
}

impl Gate for Guest {
    ghost use Rattle.std.specs.Prelude.{None};

    ghost entries = { λ _. None };

    fn enter(&mut self, _round: u64, _core: u32) {
        let room: &Room = &self.room;
        let (mine, other) = if self.is_first {
            (&room.first, &room.second)
        } else {
            (&room.second, &room.first)
        };
        mine.fetch_add(1, SeqCst);
        if !self.was_here && room.came.fetch_add(1, SeqCst) < room.waiting {
            wait(room, other);
        }
        self.was_here = true;
    }
}

/// A gate of a room.
fn gate_of(room: &Arc<Room, Global>, is_first: bool) -> Result<Guest, AllocError> {
    Ok(Guest {
        is_first,
        was_here: false,
        room: Arc::try_clone(room)?,
    })
}

/// How many gates wait, and for how many entries of the other.
const WAITS: [(&str, u64, u64); 2] = [("run --cores 2", 2, 1), ("run --cores 4", 1, 3)];

#[test]
fn gates_are_entered_at_the_same_time(rt: HostRuntime) -> Result<(), Fail> {
    let alloc = rt.alloc();
    for &(line, waiting, wanted) in &WAITS {
        let room = Room {
            waiting,
            wanted,
            first: AtomicU64::new(0),
            second: AtomicU64::new(0),
            came: AtomicU64::new(0),
            saw: AtomicU64::new(0),
        };
        let room = Arc::new(alloc, room)?;
        let mut gates = [gate_of(&room, true)?, gate_of(&room, false)?];
        let ran = run(&rt, alloc, line, THIRDS, &Ends::WIDE, &mut gates)?;
        assert_left(&rt, &ran, Status::Done, CAPTURE, REPORT);
        assert_eq!(rt; room.saw.load(SeqCst), waiting);
    }
    Ok(())
}

/// How often some gates were entered in a round for a core.
fn times(gates: &[ListGate], round: u64, core: u32) -> usize {
    let mut all: usize = 0;
    for gate in gates {
        let entries = gate.entries().iter();
        let here = entries.filter(|entry| **entry == (round, core)).count();
        all = all.saturating_add(here);
    }
    all
}

/// Runs with two gates, and looks at their entries: each core once in each round, and no more.
fn assert_rounds<R: Abort + Threads + Sync>(
    rt: &R,
    alloc: Global,
    line: &str,
    input: &[u8],
    rounds: u64,
    cores: u32,
) -> Result<Ran, Fail> {
    let mut gates = [ListGate::new(alloc, 100)?, ListGate::new(alloc, 100)?];
    let ran = run(rt, alloc, line, input, &Ends::WIDE, &mut gates)?;
    assert_eq!(rt; ran.status, Status::Done);
    for round in 0..rounds {
        for core in 0..cores {
            assert_eq!(rt; times(&gates, round, core), 1);
        }
    }
    let [one, other] = &gates;
    let entries = one.entries().len().saturating_add(other.entries().len());
    assert_eq!(rt; entries as u64, rounds.saturating_mul(u64::from(cores)));
    Ok(ran)
}

/// An endless stream of 14-byte packets, a nanosecond each.
const FASTEST: &[u8] =
    br#"[{"stream_id":1,"stream":{"packet":{"binary":"AgAAAAACAgAAAAABiLU="},"mode":{"type":"continuous","rate":{"type":"pps","value":1000000000}}}}]"#;

/// The record header of its last packet, by pcap 2.4: 19,999 ns, 14 bytes.
const LAST: &[u8] = b"\0\0\0\0\x1f\x4e\0\0\x0e\0\0\0\x0e\0\0\0";

#[test]
fn each_core_is_entered_once_a_round(rt: HostRuntime) -> Result<(), Fail> {
    let alloc = rt.alloc();
    assert_rounds(&rt, alloc, "run --cores 2", THIRDS, 1, 2)?;
    let ran = assert_rounds(&rt, alloc, "run --cores 3 --limit 20000", FASTEST, 2, 3)?;
    assert_eq!(rt; ran.out.bytes().len(), 600_024);
    assert_eq!(rt; ran.out.bytes().get(599_994..600_010), Some(LAST));
    Ok(())
}
