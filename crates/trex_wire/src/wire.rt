// A wire: `Wire::new`, `Wire::send` for each record in order, and then `Wire::measure`.

ghost use Rattle.std.specs.Prelude.{◌≡◌, ◌+◌, ◌^◌, ◌<◌, ◌≤◌, [], ◌∷◌, ◌++◌, List, length, IfOk, OnOk, OnErr};
ghost use Rattle.trex_io.specs.Seen.{Seen};
ghost use Rattle.trex_stats.specs.Counts.{StandsFor};
ghost use Rattle.trex_wire.specs.Sent.{Carries};
ghost use Rattle.trex_wire.specs.Wired.{IsAsk, wire_counts, wired};

use crate::lanes::{Lanes, sort_lane};
use crate::merge::merge;
use crate::spec::{WireCounts, WireSpec};
use crate::words::{draw_three, generator_of};
use rand_pcg::Lcg128Xsl64;
use std::alloc::Global;
use std::marker::Model;
use trex_io::Memory;
use trex_stats::{Glimpse, Stats};

/// A wire, to which records are sent one after another: `new`, `send` for each record, and at last `measure`. It keeps, of each copy of
/// a record that counts for a flow, when it arrives and what the counts take of it. Of other records it keeps how many copies arrive,
/// and of all copies the captured bytes, each in one number.
#[derive(Drop)]
pub struct Wire {
    alloc: Global,
    ask: WireSpec,
    generator: Lcg128Xsl64,
    sent: u32,
    lanes: Lanes,
}

impl Model for Wire {
    ghost use Rattle.std.specs.Prelude.{◌+◌, ◌*◌, ◌≤◌, length};
    ghost use Rattle.trex_wire.specs.Sent.{IsCarried, Sent};
    ghost use Rattle.trex_wire.specs.Wired.{IsAsk};

    ghost Value = { Sent };

    ghost view = { λ w. record {
      ask = w.ask;
      generator = w.generator;
      sent = w.sent;
      first = w.lanes.first.items;
      second = w.lanes.second.items;
      plain = w.lanes.plain;
      lost = w.lanes.lost;
      copied = w.lanes.copied;
      bytes = w.lanes.bytes;
    } };

    ghost invariant = { λ w. IsAsk w.ask × (w.sent ≤ 100000000)
        × (w.lanes.bytes ≤ (length w.lanes.first.items + length w.lanes.second.items + w.lanes.plain) * 262144)
        × IsCarried (record {
          ask = w.ask;
          generator = w.generator;
          sent = w.sent;
          first = w.lanes.first.items;
          second = w.lanes.second.items;
          plain = w.lanes.plain;
          lost = w.lanes.lost;
          copied = w.lanes.copied;
          bytes = w.lanes.bytes;
        }) };
}

impl Wire {
    /// A wire to which nothing was sent.
    pub fn new(alloc: Global, ask: WireSpec) -> Wire
        requires { IsAsk ask }
        ensures asked { result.ask ≡ ask }
        ensures carries { Carries result [] }
    {
        Wire {
            alloc,
            ask,
            generator: generator_of(ask.seed),
            sent: 0,
            lanes: Lanes::new(alloc),
        }
    }

    /// Sends one more record, of this time in ns, these captured bytes and this original length. All words of the record are drawn, also
    /// those that it doesn't need. Out of memory, the wire is as before.
    pub fn send(&mut self, time: u64, bytes: &[u8], original: u32) -> Result<(), Memory>
        requires few { self.old.sent < 100000000 }
        requires early { time < 2 ^ 63 }
        requires short { length bytes.now ≤ 262144 }
        ensures sent { OnOk result ((rs : List Seen) → Carries self.old rs
            → Carries self.new (rs ++ record { time = time; bytes = bytes.now; original = original } ∷ [])) }
        ensures asked { OnOk result (self.new.ask ≡ self.old.ask) }
        ensures kept { OnOk result (self.new.sent ≡ self.old.sent + 1) }
        ensures err { OnErr result (self.new ≡ self.old) }
    {
        let glimpse = Glimpse::of(bytes, original);
        self.lanes.make_room(glimpse)?;
        let words = draw_three(&mut self.generator);
        let captured = bytes.len() as u64;
        self.lanes
            .put(self.ask, time, self.sent, glimpse, captured, words);
        self.sent += 1;
        Ok(())
    }

    /// What is measured of the records that arrive, and the wire's own numbers.
    pub fn measure(self) -> Result<(Stats, WireCounts), Memory>
        ensures stands { IfOk result (λ p. (rs : List Seen) → Carries self rs → StandsFor p.0 (wired rs self.ask)) }
        ensures counts { IfOk result (λ p. (rs : List Seen) → Carries self rs → p.1 ≡ wire_counts rs self.ask) }
        // What arrives and what is lost make up what was sent and what was copied.
        ensures conserved { IfOk result (λ p. p.1.arrived + p.1.lost ≡ p.1.sent + p.1.copied) }
    {
        let Wire {
            alloc,
            sent,
            mut lanes,
            ..
        } = self;
        sort_lane(&mut lanes.first);
        sort_lane(&mut lanes.second);
        let stamped = lanes.first.len() + lanes.second.len();
        let counts = WireCounts {
            sent: u64::from(sent),
            lost: lanes.lost,
            copied: lanes.copied,
            arrived: stamped as u64 + lanes.plain,
        };
        let mut stats = merge(alloc, &lanes.first, &lanes.second)?;
        stats.add_plain(lanes.plain);
        stats.add_bytes(lanes.bytes);
        Ok((stats, counts))
    }
}
