// What arrives, copy by copy: one lane for the first copies, one for the second ones.

ghost use Rattle.std.specs.Prelude.{◌≡◌, ℕ, ◌+◌, ◌^◌, ◌<◌, ◌≤◌, [], ◌++◌, map, OnOk};
ghost use Rattle.std.specs.List.Sorted.{IsPermutation};
ghost use Rattle.trex_merge.specs.Order.{AreDistinct, IsRising};
ghost use Rattle.trex_wire.specs.Lanes.{HasRoomFor, came_by, due_of, key_in, one_plain, one_with, plain_by};
ghost use Rattle.trex_wire.specs.Wired.{IsAsk, bytes_by, comes_by, copies_by};

use crate::spec::WireSpec;
use crate::words::Words;
use std::alloc::Global;
use trex_io::Memory;
use trex_stats::{FlowNumber, Glimpse};

/// A million, of which records are lost or copied.
const MILLION: u64 = 1_000_000;

/// A copy that arrives of a record that counts for a flow: when, of which record, and what the counts take of that record (as
/// `Glimpse::Stamped` has it). Copies are in order of time, then of record: no two of a lane are of one record.
#[derive(Clone, Copy, PartialEq, Eq, PartialOrd, Ord, Drop)]
pub(crate) struct Due {
    pub(crate) time: u64,
    pub(crate) place: u32,
    pub(crate) flow: FlowNumber,
    pub(crate) sequence: u64,
    pub(crate) sent: u64,
}

/// The copies of all records that count for a flow, how many copies the others have, how many records have no copy and two, and the
/// captured bytes of all copies.
#[derive(Drop)]
pub(crate) struct Lanes {
    pub(crate) first: Vec<Due>,
    pub(crate) second: Vec<Due>,
    pub(crate) plain: u64,
    pub(crate) lost: u64,
    pub(crate) copied: u64,
    pub(crate) bytes: u64,
}

/// How many copies of a record arrive, by its word.
fn copies_of(ask: WireSpec, word: u64) -> u8
    ensures { result ≡ copies_by ask word }
{
    if word % MILLION < u64::from(ask.loss) {
        0
    } else if word / MILLION % MILLION < u64::from(ask.copy) {
        2
    } else {
        1
    }
}

/// When a copy of a record of this time arrives, by the copy's word.
fn arrives(ask: WireSpec, time: u64, word: u64) -> u64
    requires ask { IsAsk ask }
    requires early { time < 2 ^ 63 }
    ensures { result ≡ comes_by ask time word }
{
    // Nothing is late, and nothing is to divide.
    if ask.delay == 0 {
        return time;
    }
    time + word % (ask.delay + 1)
}

impl Lanes {
    /// Lanes of no records.
    pub(crate) fn new(alloc: Global) -> Lanes
        ensures first { result.first.items ≡ [] }
        ensures second { result.second.items ≡ [] }
        ensures plain { result.plain ≡ 0 }
        ensures lost { result.lost ≡ 0 }
        ensures copied { result.copied ≡ 0 }
        ensures bytes { result.bytes ≡ 0 }
    {
        Lanes {
            first: Vec::new(alloc),
            second: Vec::new(alloc),
            plain: 0,
            lost: 0,
            copied: 0,
            bytes: 0,
        }
    }

    /// Makes room for the copies of a record of which the counts take this. One that counts for no flow needs none.
    pub(crate) fn make_room(&mut self, glimpse: Glimpse) -> Result<(), Memory>
        ensures first { self.new.first.items ≡ self.old.first.items }
        ensures second { self.new.second.items ≡ self.old.second.items }
        ensures plain { self.new.plain ≡ self.old.plain }
        ensures lost { self.new.lost ≡ self.old.lost }
        ensures copied { self.new.copied ≡ self.old.copied }
        ensures bytes { self.new.bytes ≡ self.old.bytes }
        ensures room { OnOk result (HasRoomFor glimpse self.new.first × HasRoomFor glimpse self.new.second) }
    {
        match glimpse {
            Glimpse::Plain => Ok(()),
            Glimpse::Stamped { .. } => {
                self.first.reserve(1)?;
                self.second.reserve(1)?;
                Ok(())
            }
        }
    }

    /// Puts the copies of a record of so many captured bytes, of which the counts take this, where they belong.
    pub(crate) fn put(
        &mut self,
        ask: WireSpec,
        time: u64,
        place: u32,
        glimpse: Glimpse,
        captured: u64,
        words: Words,
    )
        requires ask { IsAsk ask }
        requires early { time < 2 ^ 63 }
        requires first { HasRoomFor glimpse self.old.first }
        requires second { HasRoomFor glimpse self.old.second }
        requires plain { self.old.plain < 200000000 }
        requires lost { self.old.lost < 100000000 }
        requires copied { self.old.copied < 100000000 }
        requires bytes { self.old.bytes ≤ 2 ^ 60 }
        requires short { captured ≤ 262144 }
        ensures first { self.new.first.items ≡ self.old.first.items ++ came_by ask 0 place time glimpse words.copies words.first }
        ensures second { self.new.second.items ≡ self.old.second.items ++ came_by ask 1 place time glimpse words.copies words.second }
        ensures plain { self.new.plain ≡ self.old.plain + plain_by 0 ask words.copies glimpse + plain_by 1 ask words.copies glimpse }
        ensures lost { self.new.lost ≡ self.old.lost + one_with 0 ask words.copies }
        ensures copied { self.new.copied ≡ self.old.copied + one_with 2 ask words.copies }
        ensures bytes { self.new.bytes ≡ self.old.bytes + bytes_by 0 ask words.copies captured + bytes_by 1 ask words.copies captured }
    {
        let copies = copies_of(ask, words.copies);
        if copies == 0 {
            self.lost += 1;
            return;
        }
        let first = arrives(ask, time, words.first);
        leave(&mut self.first, &mut self.plain, first, place, glimpse);
        self.bytes += captured;
        if copies == 2 {
            let second = arrives(ask, time, words.second);
            leave(&mut self.second, &mut self.plain, second, place, glimpse);
            self.bytes += captured;
            self.copied += 1;
        }
    }
}

/// Leaves a copy that arrives at this time: at the end of its lane, or, where its record counts for no flow, in a number alone.
fn leave(lane: &mut Vec<Due>, plain: &mut u64, time: u64, place: u32, glimpse: Glimpse)
    requires room { HasRoomFor glimpse lane.old }
    requires few { plain.old < 2 ^ 60 }
    ensures items { lane.new.items ≡ lane.old.items ++ due_of time place glimpse }
    ensures plain { plain.new ≡ plain.old + one_plain glimpse }
{
    match glimpse {
        Glimpse::Plain => *plain += 1,
        Glimpse::Stamped {
            flow,
            sequence,
            sent,
        } => {
            let due = Due {
                time,
                place,
                flow,
                sequence,
                sent,
            };
            // It has room, so this never fails.
            let _pushed = lane.push(due);
        }
    }
}

/// Puts the copies of a lane in rising order of time, then of record.
pub(crate) fn sort_lane(lane: &mut Vec<Due>)
    ensures permutation { IsPermutation lane.old.items lane.new.items }
    ensures rising { (copy : ℕ) → AreDistinct (λ k. k) (map (key_in copy) lane.old.items)
        → IsRising (λ k. k) (map (key_in copy) lane.new.items) }
{
    lane.sort_unstable();
}
