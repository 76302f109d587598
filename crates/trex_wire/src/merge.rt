// The merge of the two lanes, and the counts of what arrives.

ghost use Rattle.std.specs.Prelude.{◌≡◌, ◌+◌, ◌-◌, ◌<◌, ◌≤◌, [], ◌∷◌, ◌++◌, List, length, map, take, IfOk, OnOk};
ghost use Rattle.trex_io.specs.Seen.{Seen};
ghost use Rattle.trex_merge.specs.Order.{AreDistinct, IsRising, ordered};
ghost use Rattle.trex_merge.specs.Queues.{at_place, next_of, popped, waiting_at};
ghost use Rattle.trex_stats.specs.Counts.{CountsFor};
ghost use Rattle.trex_wire.specs.Lanes.{AreOf, LanesAreOf, both, key_in, queue_of, seen_of};
ghost use Rattle.trex_wire.specs.Wired.{seen_at};

use crate::lanes::Due;
use std::alloc::Global;
use trex_io::Memory;
use trex_merge::{Feed, Head, Mill, Next};
use trex_stats::{Glimpse, Stats};

/// The copies of a lane that are still to arrive.
#[derive(Drop)]
pub(crate) struct Lane<'a> {
    pub(crate) copy: u32,
    pub(crate) rest: &'a [Due],
}

impl<'a> Feed for Lane<'a> {
    ghost queue = { queue_of };

    ghost mark = { λ lane. [] };

    fn head(&self) -> Option<Head<'_>> {
        let due = self.rest.first()?;
        Some(Head {
            time: due.time,
            stream: self.copy,
            number: u64::from(due.place),
            bytes: &[],
        })
    }

    fn pop(&mut self) {
        let _taken = self.take_first();
    }

    fn finished(&self) -> bool {
        self.rest.is_empty()
    }
}

impl<'a> Lane<'a> {
    /// Takes the copy that comes next.
    fn take_first(&mut self) -> Due
        requires { 0 < length self.old.rest.now }
        ensures rest { self.old.rest.now ≡ result ∷ self.new.rest.now }
        ensures copy { self.new.copy ≡ self.old.copy }
    {
        let due = self.rest[0];
        self.rest = &self.rest[1..];
        due
    }
}

/// Counts the record that comes next, and takes it from its lane.
fn pass(
    stats: &mut Stats,
    mill: &mut Mill,
    lanes: &mut [Lane<'_>],
    feed: usize,
) -> Result<(), Memory>
    requires next { next_of (mill.old.limit - mill.old.sent) (map queue_of lanes.old) ≡ Next.Packet feed }
    requires few { stats.old.records < 200000000 }
    requires two { length lanes.old ≡ 2 }
    ensures counts { OnOk result ((rs ss : List Seen) → LanesAreOf rs lanes.old → CountsFor stats.old ss
        → CountsFor stats.new (ss ++ map (seen_of rs) (take 1 (waiting_at feed (map queue_of lanes.old))))) }
    ensures records { OnOk result (stats.new.records ≡ stats.old.records + 1) }
    ensures bytes { OnOk result (stats.new.bytes ≡ stats.old.bytes) }
    ensures limit { OnOk result (mill.new.limit ≡ mill.old.limit) }
    ensures sent { OnOk result (mill.new.sent ≡ mill.old.sent + 1) }
    ensures queues { OnOk result (map queue_of lanes.new ≡ at_place popped feed (map queue_of lanes.old)) }
    ensures kept { OnOk result ((rs : List Seen) → LanesAreOf rs lanes.old → LanesAreOf rs lanes.new) }
{
    let Due {
        time,
        flow,
        sequence,
        sent,
        ..
    } = lanes[feed].take_first();
    let glimpse = Glimpse::Stamped {
        flow,
        sequence,
        sent,
    };
    stats.count(time, glimpse)?;
    mill.pass(1);
    Ok(())
}

/// The counts of what arrives in two lanes that are in order, the first copies and the second ones, but not its bytes.
pub(crate) fn merge(alloc: Global, first: &[Due], second: &[Due]) -> Result<Stats, Memory>
    requires few { length first.now + length second.now ≤ 200000000 }
    requires distinct { AreDistinct (λ k. k) (both first.now second.now) }
    requires first { IsRising (λ k. k) (map (key_in 0) first.now) }
    requires second { IsRising (λ k. k) (map (key_in 1) second.now) }
    ensures counts { IfOk result (λ c. (rs : List Seen) → AreOf rs first.now → AreOf rs second.now
        → CountsFor c (map (seen_at rs) (ordered (λ k. k) (both first.now second.now)))) }
    ensures records { IfOk result (λ c. c.records ≡ length first.now + length second.now) }
    ensures bytes { IfOk result (λ c. c.bytes ≡ 0) }
{
    let limit = first.len() + second.len();
    let mut mill = Mill::new(limit as u64);
    let mut lanes = [
        Lane {
            copy: 0,
            rest: first,
        },
        Lane {
            copy: 1,
            rest: second,
        },
    ];
    let mut stats = Stats::new(alloc);
    'sent: loop {
        match mill.peek(&lanes) {
            Next::Packet { feed } => pass(&mut stats, &mut mill, &mut lanes, feed)?,
            // Nothing is to come at a lane, so none is waited for.
            Next::Need { .. } => return Ok(stats),
            Next::End => return Ok(stats),
        }
    }
}
