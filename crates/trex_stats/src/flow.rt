// What is kept of a flow, packet by packet.

ghost use Rattle.std.specs.Prelude.{◌≡◌, ◌+◌, ◌^◌, ◌<◌, ◌≤◌, [], ◌∷◌, ◌++◌, List, length, OnOk, OnErr};

use crate::arrival::Arrival;
use crate::delays::Delays;
use crate::line::{FlowLine, FlowNumber};
use crate::order::Order;
use std::alloc::Global;
use trex_io::Memory;

/// What is kept of a flow.
#[derive(Drop)]
pub(crate) struct Flow {
    pub(crate) received: u64,
    pub(crate) order: Order,
    pub(crate) delays: Delays,
    ghost counted: { (delays.early + delays.timely ≡ received) × (length order.seen + order.duplicates ≡ received) × (order.reordered ≤ received) },
}

impl Flow {
    ghost use Rattle.trex_stats.specs.Kept.{AreFlow, line_in};
    ghost use Rattle.trex_stats.specs.declared.arrival.Arrival.{Arrival};

    /// What is kept of no packets.
    pub(crate) fn new(alloc: Global) -> Flow
        ensures flow { AreFlow result [] }
        ensures empty { result.received ≡ 0 }
    {
        Flow {
            received: 0,
            order: Order::new(alloc),
            delays: Delays::new(),
        }
    }

    /// Counts one more packet. Out of memory, nothing is changed.
    pub(crate) fn add(&mut self, arrival: Arrival) -> Result<(), Memory>
        requires { self.old.received < 2 ^ 30 }
        ensures kept { OnOk result ((ps : List Arrival) → AreFlow self.old ps → AreFlow self.new (ps ++ arrival ∷ [])) }
        ensures one { OnOk result (self.new.received ≡ self.old.received + 1) }
        ensures err { OnErr result (self.new ≡ self.old) }
    {
        self.order.add(arrival.sequence)?;
        self.delays.add(arrival.sent, arrival.came);
        self.received += 1;
        Ok(())
    }

    /// The line of the flow that has this number.
    pub(crate) fn line(&self, flow: FlowNumber) -> FlowLine
        ensures { result ≡ line_in (flow, self.now) }
    {
        FlowLine {
            flow,
            received: self.received,
            duplicates: self.order.duplicates,
            lost: self.order.lost(),
            reordered: self.order.reordered,
            early: self.delays.early,
            least: self.delays.least,
            greatest: self.delays.greatest,
            sum: self.delays.total,
        }
    }
}
