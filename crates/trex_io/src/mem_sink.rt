// A sink in memory, whose failing calls are chosen beforehand, so that a test can fail any write.

ghost use Rattle.std.specs.Prelude.{◌≡◌, ◌≤◌, ◌-◌, ◌<◌, ◌⊎◌, ◌↔◌, [], length, Contains, IfOk, IsErr, OnOk, Some};
ghost use Rattle.std.specs.Io.{WritesAtMost};
ghost use Rattle.std.specs.Io.KnownBytes.{WriteAppends};
ghost use Rattle.std.specs.Vec.{vec_len, vec_capacity};
ghost use Rattle.trex_io.specs.Faults.{HasCause};
ghost use Rattle.trex_io.specs.Memory.{MemWrites, counted, least};

use crate::fault::{Failed, Memory};
use crate::sink::Sink;
use std::alloc::Global;
use std::marker::Model;

/// A sink in memory. It takes at most `per_call` bytes a call, holds at most `room` bytes in all, and fails at the calls whose
/// numbers it is given.
#[derive(Drop)]
pub struct MemSink {
    held: Vec<u8>,
    room: usize,
    per_call: usize,
    failing: Vec<u64>,
    calls: u64,
    faults: u64,
}

impl Model for MemSink {
    ghost Value = { MemWrites };

    ghost view = { λ s. record {
      held = s.held.items;
      room = s.room;
      per_call = s.per_call;
      failing = s.failing.items;
      calls = s.calls;
      faults = s.faults;
    } };

    ghost invariant = { λ s. (vec_len s.held ≤ s.room) × (s.room ≤ vec_capacity s.held) × (1 ≤ s.per_call) };
}

impl MemSink {
    /// A sink with room for `room` bytes, which are reserved here. The calls are counted from 1, and `failing` has the numbers
    /// of those that fail.
    pub fn new(
        alloc: Global,
        room: usize,
        per_call: usize,
        failing: Vec<u64>,
    ) -> Result<MemSink, Memory>
        requires { 1 ≤ per_call }
        ensures { IfOk result (λ s. s ≡ record {
          held = [];
          room = room;
          per_call = per_call;
          failing = failing.items;
          calls = 0;
          faults = 0;
        }) }
    {
        let held = Vec::with_capacity(alloc, room)?;
        Ok(MemSink {
            held,
            room,
            per_call,
            failing,
            calls: 0,
            faults: 0,
        })
    }

    /// The bytes that it holds.
    pub fn bytes(&self) -> &[u8]
        ensures { result.now ≡ self.now.held }
    {
        &self.held
    }
}

impl Sink for MemSink {
    ghost held = { λ s. Some s.held };

    ghost faults = { λ s. s.faults };

    /// Fails exactly at the calls whose numbers stand in `failing`, and where the sink is full and the piece isn't empty.
    /// Every other call takes as many bytes as there are, as there is room for and as a call may take. The count of calls
    /// and that of faults stand still at their last value.
    fn write(&mut self, piece: &[u8]) -> Result<usize, Failed>
        ensures bound { WritesAtMost result piece.now }
        ensures some { IfOk result (λ n. 0 < length piece.now → 0 < n) }
        ensures bytes { WriteAppends (Some self.old.held) (Some self.new.held) result piece.now }
        ensures cause { HasCause (λ (s : MemWrites). s.faults) self.old self.new result }
        ensures calls { self.new.calls ≡ counted self.old.calls }
        ensures fails { IsErr result ↔ (Contains self.old.failing self.new.calls
            ⊎ (0 < length piece.now × self.old.room ≤ length self.old.held)) }
        ensures takes { IfOk result (λ n. n
            ≡ least self.old.per_call (length piece.now) (self.old.room - length self.old.held)) }
        ensures faultless { OnOk result (self.new.faults ≡ self.old.faults) }
        ensures same { (self.new.room ≡ self.old.room) × (self.new.per_call ≡ self.old.per_call)
            × (self.new.failing ≡ self.old.failing) }
    {
        self.calls = self.calls.saturating_add(1);
        let full = self.held.len() == self.room && !piece.is_empty();
        if full || self.failing.contains(&self.calls) {
            self.faults = self.faults.saturating_add(1);
            return Err(Failed);
        }
        let count = self
            .per_call
            .min(piece.len())
            .min(self.room - self.held.len());
        self.held.extend_from_slice(&piece[..count]).unwrap();
        Ok(count)
    }
}
