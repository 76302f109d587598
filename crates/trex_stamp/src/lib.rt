//! The latency headers, in two versions, at the end of a packet: which flow it belongs to, where in it, and when it was due.
#![tactic(auto)]

mod header;
mod laws;
mod spelling;

pub use header::{Stamp, Version};
pub use laws::stamps_are_found;
pub use spelling::{find_stamp, write_stamp};
