// The place of a field in a packet, by the field's name.

ghost use Rattle.std.specs.Prelude.{◌≡◌, ◌^◌};
ghost use Rattle.trex_fields.specs.Fields.{base_of, place_by_name};
ghost use Rattle.trex_layers.specs.Layers.{BeginBelow};

use crate::table::{Base, fields, find_field};
use trex_layers::{L4Place, Layers};

/// Where a field lies in a packet, in bytes.
#[derive(Clone, Copy, PartialEq, Eq, Debug, Drop)]
pub struct Place {
    /// The field's first byte.
    pub at: usize,
    /// The field's length.
    pub size: usize,
}

/// The place of the field with a name, as `IP.src` or `TCP.dport`. None exactly where no field has the name or the packet hasn't its
/// layer.
pub fn place_of(layers: &Layers, name: &str) -> Option<Place>
    requires { BeginBelow (2 ^ 31) layers.now }
    ensures { result ≡ place_by_name layers.now name.now }
{
    let field = find_field(&fields(), name)?;
    let base = base_in(layers, field.base)?;
    Some(Place {
        at: base + usize::from(field.offset),
        size: usize::from(field.size),
    })
}

/// The place from which a layer's fields are counted. None where the packet hasn't the layer.
fn base_in(layers: &Layers, base: Base) -> Option<usize>
    ensures { result ≡ base_of layers.now base }
{
    match base {
        Base::Ethernet => if layers.ethernet { Some(0) } else { None },
        Base::FirstTag => if layers.tags >= 1 { Some(0) } else { None },
        Base::SecondTag => if layers.tags >= 2 { Some(0) } else { None },
        Base::Ipv4 => match layers.ip {
            Some(ip) => Some(ip.at),
            None => None,
        },
        Base::Tcp => match layers.l4 {
            Some(L4Place::Tcp { at }) => Some(at),
            _ => None,
        },
        Base::Udp => match layers.l4 {
            Some(L4Place::Udp { at }) => Some(at),
            _ => None,
        },
    }
}
