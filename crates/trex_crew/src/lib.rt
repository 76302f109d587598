//! Workers that give each core's work its turn in rounds, and the gates that they enter before it.
#![tactic(auto)]

mod crew;
mod fetching;
mod gate;
mod lending;
mod list_gate;
mod rounds;
mod turns;
mod worker;
mod workers;

pub use crew::Crew;
pub use gate::{Gate, Open};
pub use list_gate::ListGate;
