//! The headers that a packet's bytes hold, and where each begins.
#![tactic(auto)]

mod constants;
mod parsing;
mod places;
mod sizes;

pub use constants::{
    ETHERNET_LEN, IPV4_LEN, IPV4_PROTOCOL_AT, IPV4_SOURCE_AT, PROTOCOL_TCP, PROTOCOL_UDP, TAG_LEN,
    TCP_LEN, TYPE_IPV4, TYPE_LEN, TYPE_VLAN, UDP_LEN,
};
pub use parsing::{behind_tags, has_bytes, ipv4_at, parse, tags_in, type_after};
pub use places::{Ipv4Place, L4Place, Layers};
pub use sizes::{LONGEST_PACKET, SHORTEST_PACKET};
