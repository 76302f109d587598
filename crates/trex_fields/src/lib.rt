//! Where a packet's fields lie, and numbers of 1, 2, 4 or 8 bytes read and written there.
#![tactic(auto)]

mod numbers;
mod places;
mod table;

pub use numbers::{read_be, read_le, write_be, write_le};
pub use places::{Place, place_of};
