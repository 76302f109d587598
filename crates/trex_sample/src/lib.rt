//! The sample: a profile that a seed determines.
#![tactic(auto)]

mod laws;
mod sample;
mod stream;
mod template;
#[cfg(test)]
mod tests;
mod word;

pub use laws::{samples_keep_the_rules, templates_are_built};
pub use sample::sample_profile;
