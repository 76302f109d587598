// The bytes that a source gave and that aren't taken yet, in a buffer that is read into behind them.

ghost use Rattle.std.specs.Prelude.{◌≡◌, ℕ, ◌+◌, ◌-◌, ◌<◌, ◌≤◌, ◌==◌, [], length, take, drop, IfOk};
ghost use Rattle.trex_io.specs.Faults.{HasCause};
ghost use Rattle.trex_measure.specs.Refills.{Refills};

use std::alloc::Global;
use std::marker::Model;
use trex_io::{Failed, Memory, Source};

/// How many bytes a read asks for.
const READ_SIZE: usize = 65_536;

/// The most bytes that a record takes, its header among them.
const LONGEST_RECORD: usize = 262_160;

/// The bytes that came and aren't taken yet.
#[derive(Drop)]
pub(crate) struct Window {
    buffer: Vec<u8>,
    from: usize,
    to: usize,
}

impl Model for Window {
    ghost use Rattle.std.specs.Prelude.{◌≡◌, ℕ, ◌-◌, ◌≤◌, List, take, drop, vec_len};

    ghost Value = { List ℕ };

    ghost view = { λ w. take (w.to - w.from) (drop w.from w.buffer.items) };

    ghost invariant = { λ w. (w.from ≤ w.to) × (w.to ≤ vec_len w.buffer) × (vec_len w.buffer ≡ 327696) };
}

impl Window {
    /// No bytes, with room for the longest record and a read behind it.
    pub(crate) fn new(alloc: Global) -> Result<Window, Memory>
        ensures { IfOk result (λ w. w ≡ []) }
    {
        let mut buffer = Vec::new(alloc);
        buffer.resize(LONGEST_RECORD + READ_SIZE, 0)?;
        Ok(Window {
            buffer,
            from: 0,
            to: 0,
        })
    }

    /// The bytes.
    pub(crate) fn bytes(&self) -> &[u8]
        ensures { result.now ≡ self.now }
    {
        &self.buffer[self.from..self.to]
    }

    /// Whether there are none.
    pub(crate) fn is_empty(&self) -> bool
        ensures { result ≡ (length self.now == 0) }
    {
        self.bytes().is_empty()
    }

    /// Takes so many bytes away at the front.
    pub(crate) fn skip(&mut self, count: usize)
        requires { count ≤ length self.old }
        ensures { self.new ≡ drop count self.old }
    {
        self.from += count;
    }

    /// Moves the bytes, fewer than a record may take, to the front of the buffer, and reads once behind them.
    pub(crate) fn refill<S: Source>(&mut self, source: &mut S) -> Result<usize, Failed>
        requires { length self.old < 262160 }
        ensures more { IfOk result (λ n. Refills (S.left source.old) (S.left source.new) self.old self.new n) }
        ensures cause { HasCause S.faults source.old source.new result }
    {
        let left = self.to - self.from;
        move_front(&mut self.buffer, self.from, self.to);
        self.from = 0;
        self.to = left;
        let count = read_behind(source, &mut self.buffer, left)?;
        self.to += count;
        Ok(count)
    }
}

/// Moves the bytes between two places to the front.
fn move_front(buffer: &mut [u8], from: usize, to: usize)
    requires { (from ≤ to) × (to ≤ length buffer.old) }
    ensures { take (to - from) buffer.new ≡ take (to - from) (drop from buffer.old) }
{
    if from > 0 {
        buffer.copy_within(from..to, 0);
    }
}

/// Reads once behind the bytes before a place.
fn read_behind<S: Source>(source: &mut S, buffer: &mut [u8], at: usize) -> Result<usize, Failed>
    requires { at + 65536 ≤ length buffer.old }
    ensures more { IfOk result (λ n. Refills (S.left source.old) (S.left source.new) (take at buffer.old) (take (at + n) buffer.new) n) }
    ensures bound { IfOk result (λ n. n ≤ 65536) }
    ensures cause { HasCause S.faults source.old source.new result }
{
    let count = source.read(&mut buffer[at..at + READ_SIZE])?;
    Ok(count)
}
