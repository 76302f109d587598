// Where IP headers have what the checksums of the segments behind them cover.

ghost use Rattle.std.specs.Prelude.{◌≡◌};
ghost use Rattle.trex_headers.specs.Network.{network_of};

use crate::constants::{IPV4_LENGTH_AT, IPV6_LEN, IPV6_LENGTH_AT, IPV6_NEXT_AT, IPV6_SOURCE_AT};
use crate::layer::Version;
use trex_layers::{IPV4_LEN, IPV4_PROTOCOL_AT, IPV4_SOURCE_AT};

/// Places in the IP header of a version, in bytes from its first.
#[derive(Clone, Copy, Debug, PartialEq, Eq, Drop)]
pub struct NetworkPlaces {
    /// The length: the total length of IPv4, the payload length of IPv6.
    pub length: usize,
    /// The protocol of IPv4, the next header of IPv6.
    pub protocol: usize,
    /// The source address, with the destination behind it.
    pub addresses: usize,
    /// Where the addresses end, and with them the header without options.
    pub end: usize,
}

/// The places in the IP header of a version (RFC 791, section 3.1; RFC 8200, section 3).
pub fn network_places(version: Version) -> NetworkPlaces
    ensures length { result.length ≡ (network_of version).length }
    ensures protocol { result.protocol ≡ (network_of version).protocol }
    ensures addresses { result.addresses ≡ (network_of version).addresses }
    ensures end { result.end ≡ (network_of version).end }
{
    match version {
        Version::V4 => NetworkPlaces {
            length: IPV4_LENGTH_AT,
            protocol: IPV4_PROTOCOL_AT,
            addresses: IPV4_SOURCE_AT,
            end: IPV4_LEN,
        },
        Version::V6 => NetworkPlaces {
            length: IPV6_LENGTH_AT,
            protocol: IPV6_NEXT_AT,
            addresses: IPV6_SOURCE_AT,
            end: IPV6_LEN,
        },
    }
}
