//! A run of the top call over memory.

use std::alloc::Global;
use std::test::Fail;
use std::thread::Threads;
use trex_crew::Gate;
use trex_io::{MemSink, MemSource};
use trex_top::{Status, trex_main};

/// The ends of a run: the most bytes of a call (0 counts as 1), the most that the output holds, and the calls that fail, by their numbers from 1 on
/// (0: none).
#[derive(Clone, Copy)]
pub(crate) struct Ends {
    pub per_call: usize,
    pub room: usize,
    pub failing_read: u64,
    pub failing_write: u64,
    pub failing_note: u64,
}

impl Ends {
    /// Room for the longest output of the cases, ten bytes a call, and nothing fails.
    pub(crate) const WIDE: Ends = Ends {
        per_call: 10,
        room: 2_400_000,
        failing_read: 0,
        failing_write: 0,
        failing_note: 0,
    };
}

/// What a run leaves.
#[derive(Drop)]
pub(crate) struct Ran {
    pub status: Status,
    pub out: MemSink,
    pub notes: MemSink,
}

/// Runs the words of a line on an input, with these gates.
pub(crate) fn run<R: Threads + Sync, G: Gate>(
    rt: &R,
    alloc: Global,
    line: &str,
    input: &[u8],
    ends: &Ends,
    gates: &mut [G],
) -> Result<Ran, Fail> {
    let mut words = Vec::new(alloc);
    for word in line.split_ascii_whitespace() {
        words.push(String::from_str(alloc, word)?)?;
    }
    let per_call = ends.per_call.max(1);
    let input = Vec::from_slice(alloc, input)?;
    let mut input = MemSource::new(input, per_call, numbers(alloc, ends.failing_read)?);
    let mut out = MemSink::new(
        alloc,
        ends.room,
        per_call,
        numbers(alloc, ends.failing_write)?,
    )?;
    let mut notes = MemSink::new(alloc, 20_000, per_call, numbers(alloc, ends.failing_note)?)?;
    let status = trex_main(rt, alloc, &words, &mut input, &mut out, &mut notes, gates);
    Ok(Ran { status, out, notes })
}

/// The number of one call.
fn numbers(alloc: Global, call: u64) -> Result<Vec<u64>, Fail> {
    Ok(Vec::from_slice(alloc, &[call])?)
}
