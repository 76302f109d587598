//! The schedule: periods, the modes of streams, and the chains in which streams follow one another. `Walks` gives one core's packets of many
//! chains: `peek` shows the next one, `next` passes it.
#![tactic(auto)]

mod chain;
mod head;
mod laws;
mod mode;
mod period;
mod run;
mod slot;
mod steps;
mod stride;
mod times;
mod walk;
mod walks;

pub use chain::{ChainSpec, Leg};
pub use laws::{chains_are_apart, entries_rise, numbers_follow, offsets_rise, runs_rise};
pub use mode::Mode;
pub use period::Period;
pub use run::Run;
pub use slot::Slot;
pub use walk::Walk;
pub use walks::Walks;
