//! A capture that is read to its end, record by record, into what keeps the records, as the counts of them.
#![tactic(auto)]

mod fault;
mod keep;
mod reading;
mod window;

pub use fault::MeasureFault;
pub use keep::Keep;
pub use reading::{measure, read_into};
