//! A core's share of a run: the packets that it makes, in batches. A `Plan` says what the run sends; a `CoreWork` is one core's part of it, which
//! takes turns.
#![tactic(auto)]

mod batch;
mod laws;
mod maker;
mod plan;
mod registers;
mod run;
mod waiting;
mod work;

pub use batch::{BATCH_BYTES, BATCH_PACKETS, RECORD_HEADER};
pub use laws::{batches_are_longest, plans_rise, turns_keep_packets};
pub use maker::LONGEST_PACKET;
pub use plan::Plan;
pub use run::Run;
pub use waiting::Waiting;
pub use work::CoreWork;
