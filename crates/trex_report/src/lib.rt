//! The texts that are printed: the report, the lines of flows, and the line of each answer.
#![tactic(auto)]

mod capture;
mod flows;
mod gather;
mod line;
mod names;
mod refusal;
mod report;
mod sample;
#[cfg(test)]
mod tests;
mod usage;
mod wire;

pub use capture::write_bad_capture;
pub use flows::write_flows;
pub use line::{Line, write_line};
pub use refusal::write_refusal;
pub use report::{Tally, write_report};
pub use usage::write_usage;
