//! The laws of an import: its text is read back as the entries of its records, and these as their times and bytes.
#![tactic(auto)]

mod laws;

pub use laws::{entries_read_back, imports_read_back, imports_run_back};
