// The packet of some layers over IPv4.

ghost use Rattle.std.specs.Prelude.{map};
ghost use Rattle.trex_build.specs.Built.{Builds};
ghost use Rattle.trex_build.specs.Layer.{layer};

use crate::layer::LayerSpec;
use std::alloc::Global;
use trex_headers::{BuildFault, Version, build_owned};

/// Builds the packet of some layers. The first layer is Ethernet; behind it come at most two tags, then at most one IPv4 header, then
/// at most one TCP or UDP header, which stands only behind IPv4, and then at most one payload. `Order` comes exactly where a layer can't
/// stand at its place or there is none, `TooLong` exactly where the order is right and the packet has more than 9,216 bytes.
///
/// Types and protocols name the layer that follows, and lengths and checksums are filled in (RFC 791, section 3.1; RFC 793, section 3.1;
/// RFC 768), a UDP checksum of zero as all ones.
pub fn build(alloc: Global, layers: &[LayerSpec]) -> Result<Vec<u8>, BuildFault>
    ensures { Builds (λ packet. packet.items) result (map layer layers.now) }
{
    build_owned(alloc, Version::V4, layers)
}
