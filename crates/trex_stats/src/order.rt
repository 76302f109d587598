// What is kept of the sequence numbers of a flow: which came, and how many of them again or late.

ghost use Rattle.std.specs.Prelude.{◌≡◌, ◌+◌, ◌^◌, ◌<◌, ◌≤◌, [], ◌∷◌, ◌++◌, List, length, nat_lt, OnOk, OnErr};
ghost use Rattle.std.specs.List.{list_any};
ghost use Rattle.trex_stats.specs.Arrivals.{missing_of};
ghost use Rattle.trex_stats.specs.Kept.{AreOrder};
ghost use Rattle.trex_stats.specs.declared.arrival.Arrival.{Arrival};

use crate::ranges::SeqRanges;
use std::alloc::Global;
use trex_io::Memory;

/// What is kept of the sequence numbers of a flow.
#[derive(Drop)]
pub(crate) struct Order {
    /// The numbers that came.
    pub(crate) seen: SeqRanges,
    pub(crate) duplicates: u64,
    pub(crate) reordered: u64,
}

impl Order {
    /// What is kept of no packets.
    pub(crate) fn new(alloc: Global) -> Order
        ensures order { AreOrder result [] }
        ensures empty { (result.seen ≡ []) × (result.duplicates ≡ 0) × (result.reordered ≡ 0) }
    {
        Order {
            seen: SeqRanges::new(alloc),
            duplicates: 0,
            reordered: 0,
        }
    }

    /// Counts the number of one more packet. Out of memory, nothing is changed.
    pub(crate) fn add(&mut self, number: u64) -> Result<(), Memory>
        requires { length self.old.seen + self.old.duplicates + self.old.reordered < 2 ^ 32 }
        ensures kept { OnOk result ((ps : List Arrival) (a : Arrival) → AreOrder self.old ps → a.sequence ≡ number
            → AreOrder self.new (ps ++ a ∷ [])) }
        ensures one { OnOk result (length self.new.seen + self.new.duplicates ≡ length self.old.seen + self.old.duplicates + 1) }
        ensures few { OnOk result (self.new.reordered ≤ self.old.reordered + 1) }
        ensures err { OnErr result (self.new ≡ self.old) }
    {
        let late = is_late(&self.seen, number);
        if !self.seen.insert(number)? {
            self.duplicates += 1;
        } else if late {
            self.reordered += 1;
        }
        Ok(())
    }

    /// How many numbers from 0 to the greatest didn't come.
    pub(crate) fn lost(&self) -> u64
        ensures { result ≡ missing_of self.now.seen }
    {
        match self.seen.greatest() {
            Some(greatest) => greatest - (self.seen.count() - 1),
            None => 0,
        }
    }
}

/// Whether a greater number came before.
fn is_late(seen: &SeqRanges, number: u64) -> bool
    ensures { result ≡ list_any (nat_lt number) seen.now }
{
    match seen.greatest() {
        Some(greatest) => number < greatest,
        None => false,
    }
}
