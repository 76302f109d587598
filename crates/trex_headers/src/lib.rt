//! What is known of headers, for both versions of IP: the layers of a packet, their order, their bytes, and what their checksums cover.
#![tactic(auto)]

mod building;
mod constants;
mod header;
mod laws;
mod layer;
mod lending;
mod network;
mod order;
mod pseudo;

pub use building::{BuildFault, build, build_owned};
pub use constants::{IPV6_LEN, IPV6_SOURCE_AT, TYPE_IPV6};
pub use laws::headers_verify;
pub use layer::{LayerView, Version};
pub use lending::AsLayer;
pub use network::{NetworkPlaces, network_places};
