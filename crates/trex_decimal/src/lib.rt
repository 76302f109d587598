//! Numbers in texts: number tokens put between quotes, decimals as scaled whole numbers, whole and signed numbers.
#![tactic(auto)]

mod decimal;
mod grammar;
mod number;
mod place;
mod quote;
mod shift;

pub use decimal::{DecimalFault, scaled};
pub use number::{signed, whole};
pub use quote::quote_numbers;
