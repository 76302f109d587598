//! The counts of a capture's stamped packets, flow by flow: lost, repeated, reordered and early packets, and their latencies (RFC 4737).
#![tactic(auto)]

mod arrival;
mod delays;
mod flow;
mod flows;
mod glimpse;
mod laws;
mod line;
mod order;
mod ranges;
mod stats;

pub use flows::Flows;
pub use glimpse::Glimpse;
pub use laws::measures_clean;
pub use line::{FlowLine, FlowNumber};
pub use ranges::SeqRanges;
pub use stats::{Stats, Totals};
