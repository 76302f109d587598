//! Packets from layers over IPv4: the layers as they are given, and the bytes that they give.
#![tactic(auto)]

mod building;
mod laws;
mod layer;

pub use building::build;
pub use laws::built_headers_verify;
pub use layer::LayerSpec;
pub use trex_headers::BuildFault;
