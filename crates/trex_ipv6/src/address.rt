// Texts of IPv6 addresses.

ghost use Rattle.std.specs.Prelude.{◌≡◌};
ghost use Rattle.trex_ipv6.specs.Address.{address6_of, has_dot};

use std::net::Ipv6Addr;

/// Whether a text has a dot.
fn has_dot(text: &[u8]) -> bool
    ensures { result ≡ has_dot text.now }
{
    text.contains(&b'.')
}

/// The sixteen bytes of the address that a text writes: eight groups of one to four hexadecimal digits in either case, joined by `:`, or
/// fewer with one `::` for one zero group or more (RFC 4291, section 2.2). The form that ends in an IPv4 address isn't read.
#[tactic(auto, unfolding(crate::specs::Address::address6_of), using(crate::proofs::AddressLemmas::reads_spelled))]
pub fn address6_of(text: &str) -> Option<[u8; 16]>
    ensures { result ≡ address6_of text.now }
{
    if has_dot(text.as_bytes()) {
        return None;
    }
    let Ok(address) = text.parse::<Ipv6Addr>() else {
        return None;
    };
    Some(address.octets())
}
