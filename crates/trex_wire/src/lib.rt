//! A simulated wire, which loses, copies and delays the records of a capture by a seed, and the counts of what arrives.
#![tactic(auto)]

mod behind;
mod lanes;
mod laws;
mod merge;
mod spec;
mod wire;
mod words;

pub use behind::measure_behind;
pub use laws::nothing_vanishes;
pub use spec::{WireCounts, WireSpec};
pub use wire::Wire;
