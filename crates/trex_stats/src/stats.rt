// The counts of a capture: `Stats::add` for each record in order, and then what is counted.

ghost use Rattle.std.specs.Prelude.{◌≡◌, ℕ, ◌+◌, ◌*◌, ◌<◌, ◌≤◌, ◌↔◌, [], ◌∷◌, ◌++◌, List, length, IsTrue, OnOk, OnErr, slice_index_or};
ghost use Rattle.std.specs.BTreeMap.{is_at};
ghost use Rattle.std.specs.List.{All};
ghost use Rattle.std.specs.List.Sorted.{IsStrictlySortedBy};
ghost use Rattle.std.specs.Map.{keys_of, lookup};
ghost use Rattle.std.specs.Ordering.{nat_cmp};
ghost use Rattle.trex_io.specs.Seen.{Seen};
ghost use Rattle.trex_stats.specs.Arrivals.{line_of};
ghost use Rattle.trex_stats.specs.Counts.{CountsFor, StandsFor, arrivals, flows_of, glimpse_of, lines_in, lines_of, stamped_of, totals_of, with_one};
ghost use Rattle.trex_stats.specs.Kept.{AllUpTo, AreFlows};
ghost use Rattle.trex_stats.specs.Ranges.{has};
ghost use Rattle.trex_stats.specs.declared.arrival.Arrival.{Arrival};

use crate::arrival::Arrival;
use crate::flow::Flow;
use crate::flows::Flows;
use crate::glimpse::Glimpse;
use crate::line::{FlowLine, FlowNumber};
use std::alloc::Global;
use std::collections::BTreeMap;
use std::marker::Model;
use trex_io::Memory;

/// What is counted of the records of a capture, in all and flow by flow.
#[derive(Drop)]
pub struct Stats {
    alloc: Global,
    flows: BTreeMap<FlowNumber, Flow>,
    records: u64,
    bytes: u64,
    stamped: u64,
}

impl Model for Stats {
    ghost use Rattle.std.specs.Prelude.{◌≤◌, ◌*◌};
    ghost use Rattle.trex_stats.specs.Counts.{Counts};
    ghost use Rattle.trex_stats.specs.Kept.{AllUpTo};

    ghost Value = { Counts };

    ghost view = { λ s. record { flows = s.flows.entries; records = s.records; bytes = s.bytes; stamped = s.stamped } };

    ghost invariant = { λ s. (s.records ≤ 200000000) × (s.bytes ≤ s.records * 262144) × (s.stamped ≤ s.records)
        × AllUpTo s.stamped s.flows.entries };
}

/// The sums over all records.
#[derive(Clone, Copy, Debug, PartialEq, Eq, Drop)]
pub struct Totals {
    pub records: u64,
    /// The captured bytes of all records.
    pub bytes: u64,
    /// How many records counted for a flow.
    pub stamped: u64,
}

impl Stats {
    /// The counts of no records.
    pub fn new(alloc: Global) -> Stats
        ensures stands { StandsFor result [] }
        ensures records { result.records ≡ 0 }
    {
        Stats {
            alloc,
            flows: BTreeMap::new(alloc),
            records: 0,
            bytes: 0,
            stamped: 0,
        }
    }

    /// Counts one more record, of this time in ns, these captured bytes and this original length. It counts for a flow where its
    /// packet is whole and ends in a stamp. Out of memory, the counts are as before.
    pub fn add(&mut self, time: u64, bytes: &[u8], original: u32) -> Result<(), Memory>
        requires few { self.old.records < 200000000 }
        requires short { length bytes.now ≤ 262144 }
        ensures stands { OnOk result ((rs : List Seen) → StandsFor self.old rs
            → StandsFor self.new (rs ++ record { time = time; bytes = bytes.now; original = original } ∷ [])) }
        ensures records { OnOk result (self.new.records ≡ self.old.records + 1) }
        ensures err { OnErr result (self.new ≡ self.old) }
    {
        self.count(time, Glimpse::of(bytes, original))?;
        self.add_bytes(bytes.len() as u64);
        Ok(())
    }

    /// Counts one more record, of this time in ns, by what the counts take of it, but not its bytes. Out of memory, the counts are as
    /// before.
    pub fn count(&mut self, time: u64, glimpse: Glimpse) -> Result<(), Memory>
        requires few { self.old.records < 200000000 }
        ensures counts { OnOk result ((rs : List Seen) (r : Seen) → CountsFor self.old rs → r.time ≡ time
            → glimpse_of r.bytes r.original ≡ glimpse → CountsFor self.new (rs ++ r ∷ [])) }
        ensures records { OnOk result (self.new.records ≡ self.old.records + 1) }
        ensures bytes { OnOk result (self.new.bytes ≡ self.old.bytes) }
        // There is room for its bytes.
        ensures room { OnOk result (self.new.bytes + 262144 ≤ self.new.records * 262144) }
        ensures err { OnErr result (self.new ≡ self.old) }
    {
        match glimpse {
            Glimpse::Stamped {
                flow,
                sequence,
                sent,
            } => {
                let arrival = Arrival {
                    sequence,
                    sent,
                    came: time,
                };
                arrive(self.alloc, &mut self.flows, flow, arrival)?;
                self.stamped += 1;
            }
            Glimpse::Plain => {}
        }
        self.records += 1;
        Ok(())
    }

    /// Counts so many more records that count for no flow, but not their bytes. Where the others among some records are counted
    /// already, all of them are then.
    pub fn add_plain(&mut self, records: u64)
        requires few { self.old.records + records ≤ 200000000 }
        ensures counts { (rs : List Seen) → CountsFor self.old (stamped_of rs) → self.old.records + records ≡ length rs
            → CountsFor self.new rs }
        ensures records { self.new.records ≡ self.old.records + records }
        ensures bytes { self.new.bytes ≡ self.old.bytes }
        ensures stamped { self.new.stamped ≡ self.old.stamped }
        ensures flows { self.new.flows ≡ self.old.flows }
    {
        self.records += records;
    }

    /// Counts the captured bytes of records that are counted already.
    pub fn add_bytes(&mut self, bytes: u64)
        requires few { self.old.bytes + bytes ≤ self.old.records * 262144 }
        ensures bytes { self.new.bytes ≡ self.old.bytes + bytes }
        ensures records { self.new.records ≡ self.old.records }
        ensures stamped { self.new.stamped ≡ self.old.stamped }
        ensures flows { self.new.flows ≡ self.old.flows }
    {
        self.bytes += bytes;
    }

    /// The sums over all records.
    pub fn totals(&self) -> Totals
        ensures kept { result ≡ record { records = self.now.records; bytes = self.now.bytes; stamped = self.now.stamped } }
        ensures all { (rs : List Seen) → StandsFor self.now rs → result ≡ totals_of rs }
    {
        Totals {
            records: self.records,
            bytes: self.bytes,
            stamped: self.stamped,
        }
    }

    /// How many flows had a packet.
    pub fn len(&self) -> usize
        ensures { result ≡ length self.now.flows }
    {
        self.flows.len()
    }

    /// The line of the flow at a place, in rising order of number. To go through all flows, `flows` is faster.
    pub fn flow(&self, place: usize) -> FlowLine
        requires { place < length self.now.flows }
        ensures kept { (d : FlowLine) → result ≡ slice_index_or (lines_in self.now.flows) place d }
        ensures line { (rs : List Seen) → StandsFor self.now rs → result ≡ line_of result.flow (arrivals rs result.flow) }
    {
        line_at(&self.flows, place)
    }

    /// The lines of the flows that had a packet, in rising order of number.
    pub fn flows(&self) -> Flows<'_>
        ensures rest { result ≡ lines_in self.now.flows }
        ensures rise { IsStrictlySortedBy nat_cmp (keys_of self.now.flows) }
        ensures lines { (rs : List Seen) → StandsFor self.now rs → result ≡ lines_of rs (keys_of self.now.flows) }
        ensures all { (rs : List Seen) → StandsFor self.now rs → result ≡ lines_of rs (flows_of rs) }
        ensures present { (rs : List Seen) → StandsFor self.now rs
            → (q : ℕ) → IsTrue (has (keys_of self.now.flows) q) ↔ (0 < length (arrivals rs q)) }
    {
        Flows::over(&self.flows)
    }
}

/// The line of the flow at a place of the map.
fn line_at(flows: &BTreeMap<FlowNumber, Flow>, place: usize) -> FlowLine
    requires { place < length flows.now.entries }
    ensures kept { (d : FlowLine) → result ≡ slice_index_or (lines_in flows.now.entries) place d }
    ensures found { All (λ e. lookup (is_at (nat_cmp e.0)) flows.now.entries ≡ Some e.1) flows.now.entries }
{
    let (flow, kept) = flows.iter().nth(place).unwrap();
    kept.line(*flow)
}

/// Counts a packet for its flow.
fn arrive(
    alloc: Global,
    flows: &mut BTreeMap<FlowNumber, Flow>,
    flow: FlowNumber,
    arrival: Arrival,
) -> Result<(), Memory>
    requires few { AllUpTo 200000000 flows.old.entries }
    ensures kept { OnOk result ((ps : ℕ → List Arrival) → AreFlows flows.old.entries ps
        → AreFlows flows.new.entries (with_one ps flow arrival)) }
    ensures most { OnOk result ((n : ℕ) → AllUpTo n flows.old.entries → AllUpTo (n + 1) flows.new.entries) }
    ensures err { OnErr result (flows.new.entries ≡ flows.old.entries) }
{
    if let Some(kept) = flows.get_mut(&flow) {
        return kept.add(arrival);
    }
    let mut kept = Flow::new(alloc);
    kept.add(arrival)?;
    match flows.insert(flow, kept) {
        Ok(_) => Ok(()),
        Err(_) => Err(Memory),
    }
}
