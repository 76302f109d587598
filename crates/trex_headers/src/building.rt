// The packet of some layers: their order is looked at, then their length, and then each header is written.

ghost use Rattle.std.specs.Prelude.{◌≡◌, ◌+◌, ◌≤◌, length, map, option_map, sum_by, nat_le, if◌then◌else◌, Some, None};
ghost use Rattle.trex_headers.specs.Built.{Builds, bytes_behind, header_length};
ghost use Rattle.trex_headers.specs.Layer.{layer_of};

use crate::header::{header_length, write_header};
use crate::layer::{LayerView, Version};
use crate::lending::{AsLayer, views};
use crate::order::misplaced;
use std::alloc::{AllocError, Global};
use thiserror::Error;
use trex_layers::LONGEST_PACKET;

/// Why layers give no packet.
#[derive(Clone, Copy, Debug, PartialEq, Eq, Drop, Error)]
pub enum BuildFault {
    /// The place of the first layer that can't stand where it does, or the number of layers where the packet can't end there.
    #[error("layer {at} can't stand there")]
    Order { at: usize },
    /// The order is right, and the packet has more than 9,216 bytes.
    #[error("more than 9216 bytes")]
    TooLong,
    /// There was no memory for the packet.
    #[error("out of memory")]
    Memory,
}

impl From<AllocError> for BuildFault {
    ghost use Rattle.std.specs.Prelude.{◌≡◌};
    ghost use Rattle.trex_headers.specs.declared.building.BuildFault.{BuildFault};

    ghost from_gives = { λ _ fault. fault ≡ BuildFault.Memory };

    fn from(_error: AllocError) -> BuildFault {
        BuildFault::Memory
    }
}

/// The length of the packet of some layers, where it isn't too long.
fn packet_length(layers: &[LayerView<'_>]) -> Option<usize>
    ensures { let length = sum_by header_length (map layer_of layers.now) in result ≡ (if nat_le length LONGEST_PACKET then Some length else None) }
{
    let mut length = 0;
    for one in layers {
        let header = header_length(one);
        if header > LONGEST_PACKET - length {
            return None;
        }
        length += header;
    }
    Some(length)
}

/// Writes layers behind another one: each header before what it carries.
fn write_layers(out: &mut [u8], before: Option<&LayerView<'_>>, layers: &[LayerView<'_>])
    requires room { length out.old ≡ sum_by header_length (map layer_of layers.now) }
    requires short { length out.old ≤ LONGEST_PACKET }
    ensures { out.new ≡ bytes_behind (option_map (λ one. layer_of one.now) before.entry) (map layer_of layers.now) }
{
    if let [one, later @ ..] = layers {
        let (header, payload) = out.split_at_mut(header_length(one));
        write_layers(payload, Some(one), later);
        write_header(header, before, one, later.first(), payload);
    }
}

/// Builds the packet of some layers over a version of IP. The first layer is Ethernet; behind it come at most two tags, then the IP
/// header, then at most one TCP or UDP header, which stands only behind that of IP, and then at most one payload. Over IPv6 the IP header
/// is there, over IPv4 it may be left out. `Order` comes exactly where a layer can't stand at its place or the packet can't end where it
/// does, `TooLong` exactly where the order is right and the packet has more than 9,216 bytes.
///
/// Types and protocols name the layer that follows, and lengths and checksums are filled in (RFC 791, section 3.1; RFC 8200, sections 3
/// and 8.1; RFC 793, section 3.1; RFC 768), a UDP checksum of zero as all ones.
pub fn build(
    alloc: Global,
    version: Version,
    layers: &[LayerView<'_>],
) -> Result<Vec<u8>, BuildFault>
    ensures { Builds (λ packet. packet.items) result version (map layer_of layers.now) }
{
    if let Some(at) = misplaced(version, layers) {
        return Err(BuildFault::Order { at });
    }
    let Some(length) = packet_length(layers) else {
        return Err(BuildFault::TooLong);
    };
    let mut packet = vec![in alloc; 0; length]?;
    write_layers(&mut packet, None, layers);
    Ok(packet)
}

/// Builds the packet of layers that their type owns, as `build` does of layers that are lent to it.
pub fn build_owned<L: AsLayer>(
    alloc: Global,
    version: Version,
    layers: &[L],
) -> Result<Vec<u8>, BuildFault>
    ensures { Builds (λ packet. packet.items) result version (map L.plain layers.now) }
{
    let views = views(alloc, layers)?;
    build(alloc, version, &views)
}
