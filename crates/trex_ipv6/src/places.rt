// Where an IPv6 header stands in a packet, and where its fields lie.

ghost use Rattle.std.specs.Prelude.{◌≡◌, ◌≤◌, IfSome};
ghost use Rattle.trex_ipv6.specs.Fields.{end_of_ipv6, header6_of, place6_by_name};

use crate::table::{fields6, find_field6};
use trex_headers::{IPV6_LEN, TYPE_IPV6};
use trex_layers::{ETHERNET_LEN, behind_tags, has_bytes, tags_in, type_after};

/// The version in the high half of an IPv6 header's first byte (RFC 8200, section 3).
const VERSION: u8 = 6;

/// Where a field of an IPv6 header lies in a packet, in bytes.
#[derive(Clone, Copy, PartialEq, Eq, Debug, Drop)]
pub struct Place6 {
    /// The field's first byte.
    pub at: usize,
    /// The field's length.
    pub size: usize,
}

/// The place behind the IPv6 header at a place. None exactly where 40 bytes aren't there from `at` on or the first nibble isn't 6
/// (RFC 8200, section 3).
pub fn ipv6_at(bytes: &[u8], at: usize) -> Option<usize>
    ensures { result ≡ end_of_ipv6 bytes.now at }
{
    if has_bytes(bytes, at, IPV6_LEN) && bytes[at] / 16 == VERSION {
        Some(at + IPV6_LEN)
    } else {
        None
    }
}

/// The place of the IPv6 header behind Ethernet and two tags at most, where the last type names it.
fn header_in(bytes: &[u8]) -> Option<usize>
    ensures value { result ≡ header6_of bytes.now }
    ensures near { IfSome result (λ at. at ≤ 22) }
{
    if !has_bytes(bytes, 0, ETHERNET_LEN) {
        return None;
    }
    let tags = tags_in(bytes);
    let at = behind_tags(tags);
    if type_after(bytes, tags) != TYPE_IPV6 || ipv6_at(bytes, at).is_none() {
        return None;
    }
    Some(at)
}

/// The place of the field with a name, as `IPv6.src` or `IPv6.dst.15`. None exactly where no field has the name or the packet has no
/// IPv6 header behind Ethernet and at most two tags.
pub fn place6_of(bytes: &[u8], name: &str) -> Option<Place6>
    ensures { result ≡ place6_by_name bytes.now name.now }
{
    let field = find_field6(&fields6(), name)?;
    let header = header_in(bytes)?;
    Some(Place6 {
        at: header + usize::from(field.offset),
        size: usize::from(field.size),
    })
}
