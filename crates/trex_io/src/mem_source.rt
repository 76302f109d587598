// A source in memory, whose failing calls are chosen beforehand, so that a test can fail any read.

ghost use Rattle.std.specs.Prelude.{◌≡◌, ◌≤◌, ◌↔◌, drop, take, length, Contains, IfOk, IsErr, OnOk, Some};
ghost use Rattle.std.specs.Io.{ReadsAtMost};
ghost use Rattle.std.specs.Io.KnownBytes.{ReadConsumes};
ghost use Rattle.std.specs.Vec.{vec_len};
ghost use Rattle.trex_io.specs.Faults.{HasCause};
ghost use Rattle.trex_io.specs.Memory.{MemReads, counted, least};

use crate::fault::Failed;
use crate::source::Source;
use std::marker::Model;

/// A source in memory. It gives at most `per_call` bytes a call, and fails at the calls whose numbers it is given.
#[derive(Drop)]
pub struct MemSource {
    bytes: Vec<u8>,
    at: usize,
    per_call: usize,
    failing: Vec<u64>,
    calls: u64,
    faults: u64,
}

impl Model for MemSource {
    ghost Value = { MemReads };

    ghost view = { λ s. record {
      left = drop s.at s.bytes.items;
      per_call = s.per_call;
      failing = s.failing.items;
      calls = s.calls;
      faults = s.faults;
    } };

    ghost invariant = { λ s. (s.at ≤ vec_len s.bytes) × (1 ≤ s.per_call) };
}

impl MemSource {
    /// A source of these bytes. The calls are counted from 1, and `failing` has the numbers of those that fail.
    pub fn new(bytes: Vec<u8>, per_call: usize, failing: Vec<u64>) -> MemSource
        requires { 1 ≤ per_call }
        ensures { result ≡ record {
          left = bytes.items;
          per_call = per_call;
          failing = failing.items;
          calls = 0;
          faults = 0;
        } }
    {
        MemSource {
            bytes,
            at: 0,
            per_call,
            failing,
            calls: 0,
            faults: 0,
        }
    }
}

/// Copies a piece into the front of a buffer.
fn copy_front(into: &mut [u8], piece: &[u8])
    requires { length piece.now ≤ length into.old }
    ensures { take (length piece.now) into.new ≡ piece.now }
{
    into[..piece.len()].copy_from_slice(piece);
}

impl Source for MemSource {
    ghost left = { λ s. Some s.left };

    ghost faults = { λ s. s.faults };

    /// Fails exactly at the calls whose numbers stand in `failing`. Every other call gives as many bytes as there are, as
    /// there is room for and as a call may give. The count of calls and that of faults stand still at their last value.
    fn read(&mut self, into: &mut [u8]) -> Result<usize, Failed>
        ensures bound { ReadsAtMost result into.new }
        ensures bytes { ReadConsumes (Some self.old.left) (Some self.new.left) result into.new }
        ensures cause { HasCause (λ (s : MemReads). s.faults) self.old self.new result }
        ensures calls { self.new.calls ≡ counted self.old.calls }
        ensures fails { IsErr result ↔ Contains self.old.failing self.new.calls }
        ensures gives { IfOk result (λ n. n ≡ least self.old.per_call (length into.old) (length self.old.left)) }
        ensures faultless { OnOk result (self.new.faults ≡ self.old.faults) }
        ensures same { (self.new.per_call ≡ self.old.per_call) × (self.new.failing ≡ self.old.failing) }
    {
        self.calls = self.calls.saturating_add(1);
        if self.failing.contains(&self.calls) {
            self.faults = self.faults.saturating_add(1);
            return Err(Failed);
        }
        let rest = &self.bytes[self.at..];
        let count = self.per_call.min(into.len()).min(rest.len());
        copy_front(into, &rest[..count]);
        self.at += count;
        Ok(count)
    }
}
