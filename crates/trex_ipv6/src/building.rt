// The packet of some layers over IPv6.

ghost use Rattle.std.specs.Prelude.{All, map};
ghost use Rattle.trex_ipv6.specs.Built.{Builds};
ghost use Rattle.trex_ipv6.specs.Layer.{IsLabelled, layer6};

use crate::layer::Layer6;
use std::alloc::Global;
use trex_headers::{BuildFault, Version, build_owned};

/// Builds the packet of some layers over IPv6. The first layer is Ethernet; behind it come at most two tags, then one IPv6 header, then
/// at most one TCP or UDP header, and then at most one payload. `Order` comes exactly where a layer can't stand at its place, or at the
/// number of layers where they end before IPv6; `TooLong` exactly where the order is right and the packet has more than 9,216 bytes.
///
/// The types and the next header name the layer that follows, and lengths and checksums are filled in (RFC 8200, sections 3 and 8.1;
/// RFC 793, section 3.1; RFC 768), a UDP checksum of zero as all ones.
pub fn build6(alloc: Global, layers: &[Layer6]) -> Result<Vec<u8>, BuildFault>
    requires { All IsLabelled (map layer6 layers.now) }
    ensures { Builds (λ packet. packet.items) result (map layer6 layers.now) }
{
    build_owned(alloc, Version::V6, layers)
}
