//! An import over memory.

use std::alloc::Global;
use std::test::Fail;
use trex_import::{ImportFault, import};
use trex_io::{MemSink, MemSource};

/// The ends of an import: the most bytes of a call (0 counts as 1), the most that the output holds, and the calls that fail, by their numbers from 1
/// on (0: none).
#[derive(Clone, Copy)]
pub(crate) struct Ends {
    pub per_call: usize,
    pub room: usize,
    pub failing_read: u64,
    pub failing_write: u64,
}

impl Ends {
    /// Room for the longest text of the cases, ten bytes a call, and nothing fails.
    pub(crate) const WIDE: Ends = Ends {
        per_call: 10,
        room: 1_000_000,
        failing_read: 0,
        failing_write: 0,
    };
}

/// What an import answers, and what it writes.
#[derive(Drop)]
pub(crate) struct Imported {
    pub answer: Result<(), ImportFault>,
    pub out: MemSink,
}

/// Imports a capture.
pub(crate) fn run_import(alloc: Global, capture: &[u8], ends: &Ends) -> Result<Imported, Fail> {
    let per_call = ends.per_call.max(1);
    let failing_read = Vec::from_slice(alloc, &[ends.failing_read])?;
    let failing_write = Vec::from_slice(alloc, &[ends.failing_write])?;
    let mut input = MemSource::new(Vec::from_slice(alloc, capture)?, per_call, failing_read);
    let mut out = MemSink::new(alloc, ends.room, per_call, failing_write)?;
    let answer = import(alloc, &mut input, &mut out);
    Ok(Imported { answer, out })
}
