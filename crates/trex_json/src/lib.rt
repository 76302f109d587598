// Profiles as JSON texts: their names, their kinds and defaults, and the rules of refusal on documents and shapes.
#![tactic(auto)]

mod addresses;
mod binary;
mod entry;
mod entry_id;
mod flow;
mod instr;
mod kinds;
mod layer;
mod layers;
mod mode;
mod names;
mod order;
mod reading;
mod stream;

pub use entry_id::read_entry_id;
pub use order::shape_rules_in_order;
pub use reading::{LONGEST_TEXT, ProfileFault, read_profile};
