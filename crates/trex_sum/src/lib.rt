//! The Internet checksum (RFC 1071): sums, their fold, and the test that a sum verifies.
#![tactic(auto)]

mod running;
mod sums;
mod wide;

pub use running::RunningSum;
pub use sums::{ALL_ONES, fold, ones_for_zero, sum_words, verifies};
pub use wide::fold_sum;
