//! The program's top call: from the command words and the input's bytes to the capture and the report.
#![tactic(auto)]

mod analysis;
mod answering;
mod capturing;
mod command;
mod commands;
mod edge;
mod endings;
mod input;
mod sampling;
mod saying;
mod status;
mod talking;

pub use analysis::{AnalyzeFault, analyze};
pub use command::trex_main;
pub use edge::run_program;
pub use endings::endings_hold;
pub use sampling::{SampleFault, sample};
pub use status::Status;
pub use trex_run::{Ready, Tally, generate, prepare, runs_measure_clean};
