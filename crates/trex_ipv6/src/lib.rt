//! IPv6: packets from layers, where headers and fields stand, and address texts.
#![tactic(auto)]

mod address;
mod building;
mod laws;
mod layer;
mod places;
mod table;

pub use address::address6_of;
pub use building::build6;
pub use laws::{built6_headers_verify, written_addresses_are_read};
pub use layer::Layer6;
pub use places::{Place6, ipv6_at, place6_of};
pub use trex_headers::BuildFault as Build6Fault;
