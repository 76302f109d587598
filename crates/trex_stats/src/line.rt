// What is counted of a flow.

/// A flow's number, as wide as the wider latency header has it.
pub type FlowNumber = u32;

/// What is counted of a flow (RFC 4737, reordering by sequence numbers; the rest own). Latencies are in ns.
#[derive(Clone, Copy, Debug, PartialEq, Eq, Drop)]
pub struct FlowLine {
    /// The number of the flow.
    pub flow: FlowNumber,
    /// How many of its packets came, repeats among them.
    pub received: u64,
    /// How many had a sequence number that an earlier one had.
    pub duplicates: u64,
    /// How many numbers from 0 to the greatest that came are missing.
    pub lost: u64,
    /// How many, repeats aside, came after a packet with a greater number.
    pub reordered: u64,
    /// How many came before they were due, by the clock of the capture. They have no latency.
    pub early: u64,
    /// The least latency, and 0 where there is none.
    pub least: u64,
    /// The greatest latency, and 0 where there is none.
    pub greatest: u64,
    /// The sum of the latencies.
    pub sum: u128,
}
