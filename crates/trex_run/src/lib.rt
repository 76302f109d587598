//! A run of a profile: its packets in order, in rounds of all cores; what was sent of each stream; and its capture. `prepare` takes all
//! memory; then `Ready::step` goes from packet to packet, or `generate` writes the capture, or `count_run` counts what is sent.
#![tactic(auto)]

mod capture_writer;
mod counts;
mod firsts;
mod laws;
mod pieces;
mod progress;
mod ready;
mod run;
mod step;
mod tally;

pub use capture_writer::generate;
pub use counts::{Counts, count_run};
pub use laws::runs_measure_clean;
pub use ready::{Ready, prepare};
pub use trex_report::Tally;
