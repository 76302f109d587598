//! What a run sends is counted as it goes by.

ghost use Rattle.std.specs.Prelude.{◌≡◌, ℕ, ◌+◌, ◌*◌, ◌≤◌, ◌<◌, ◌^◌, ◌++◌, List, length};
ghost use Rattle.trex_pcap.specs.Writing.{record_of};
ghost use Rattle.trex_sum.specs.Running.{running};
ghost use Rattle.trex_run.specs.Counts.{counts_of};
ghost use Rattle.trex_run.specs.State.{AreSteps, IsThrough, all_of};
ghost use Rattle.trex_run.specs.Step.{reached};

use crate::ready::Ready;
use std::thread::Threads;
use trex_crew::Gate;
use trex_pcap::{header, record_header};
use trex_sum::{RunningSum, fold};

/// What is counted of a run's packets.
#[derive(Clone, Copy)]
pub struct Counts {
    pub packets: u64,
    /// The bytes of all packets, without the headers of a capture.
    pub bytes: u64,
    /// The folded sum of the whole capture, whose times count from 1970 (RFC 1071, section 1).
    pub sum: u16,
}

/// Adds the record of a packet, whose absolute time is in nanoseconds, to a sum.
fn add_record(sum: &mut RunningSum, time: u64, bytes: &[u8])
    requires time { time < 2 ^ 32 * 10 ^ 9 }
    requires short { length bytes.now ≤ 9216 }
    requires room { sum.old.sum + 65536 * (16 + length bytes.now) < 2 ^ 64 }
    ensures value { (front : List ℕ) → sum.old ≡ running front
        → sum.new ≡ running (front ++ record_of (record { time = time; bytes = bytes.now })) }
    ensures bound { sum.new.sum ≤ sum.old.sum + 65536 * (16 + length bytes.now) }
{
    sum.add(&record_header(time, bytes.len() as u32));
    sum.add(bytes);
}

/// Goes through all packets of a run of which no step was taken, and counts them; then the run stands at its end. Nothing is held of the
/// packets, and no memory is taken. The gates are entered once for each core in each round.
pub fn count_run<R: Threads + Sync, G: Gate>(
    rt: &R,
    ready: &mut Ready<'_>,
    gates: &mut [G],
) -> Counts
    requires none { reached ready.old.state ≡ 0 }
    requires limit { ready.old.state.limit ≤ 100000000 }
    ensures counts { result ≡ counts_of (all_of ready.old) }
    ensures steps { AreSteps G.entries ready.old ready.new gates.old gates.new }
    ensures through { IsThrough ready.old ready.new }
{
    let mut sum = RunningSum::new();
    sum.add(&header());
    let mut packets = 0;
    let mut bytes = 0;
    'packets: while ready.step(rt, gates) {
        let head = ready.current();
        add_record(&mut sum, head.time, head.bytes);
        packets += 1;
        bytes += head.bytes.len() as u64;
    }
    Counts {
        packets,
        bytes,
        sum: fold(sum.sum()),
    }
}
