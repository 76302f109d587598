//! A capture made a profile: each record becomes a stream that sends its bytes once, at the record's time since the first.
#![tactic(auto)]

mod capture;
mod draft;
mod entry;
mod fault;
mod fit;

pub use capture::import;
pub use fault::ImportFault;
