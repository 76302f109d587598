// Which headers a packet's bytes hold.

ghost use Rattle.std.specs.Prelude.{◌≡◌, ◌+◌, ◌^◌, ◌<◌, ◌≤◌, ℕ, length, IfSome};
ghost use Rattle.trex_layers.specs.Layers.{BeginBelow, behind_tags, end_of, has_bytes, ipv4_of, is_tagged, layers_over, network_of, parsed, tags_of, transport_of, type_after, word_at};

use crate::constants::{
    ETHERNET_LEN, IPV4_LEN, IPV4_PROTOCOL_AT, PROTOCOL_TCP, PROTOCOL_UDP, TAG_LEN, TCP_LEN,
    TYPE_IPV4, TYPE_LEN, TYPE_VLAN, UDP_LEN,
};
use crate::places::{Ipv4Place, L4Place, Layers};

/// The headers of a packet: Ethernet from 14 bytes on, two tags at most, IPv4, and TCP or UDP.
pub fn parse(bytes: &[u8]) -> Layers
    ensures value { result ≡ parsed bytes.now }
    ensures within { (bound : ℕ) → length bytes.now ≤ bound → BeginBelow bound result }
{
    if bytes.len() < ETHERNET_LEN {
        return Layers {
            ethernet: false,
            tags: 0,
            ip: None,
            l4: None,
            rest: 0,
        };
    }
    let tags = tags_in(bytes);
    match network(bytes, tags) {
        None => Layers {
            ethernet: true,
            tags,
            ip: None,
            l4: None,
            rest: behind_tags(tags),
        },
        Some(ip) => over_ipv4(bytes, tags, ip),
    }
}

/// The IPv4 header at a place. None exactly where 20 bytes aren't there from `at` on, the first nibble isn't 4, the header's length
/// is below 5 words, or the whole header isn't there (RFC 791, section 3.1).
pub fn ipv4_at(bytes: &[u8], at: usize) -> Option<Ipv4Place>
    ensures value { result ≡ ipv4_of bytes.now at }
    ensures within { IfSome result (λ ip. ip.at + ip.header ≤ length bytes.now) }
{
    if !has_bytes(bytes, at, IPV4_LEN) {
        return None;
    }
    let first = bytes[at];
    let header = usize::from(first % 16) * 4;
    if first / 16 != 4 || header < IPV4_LEN || !has_bytes(bytes, at, header) {
        return None;
    }
    Some(Ipv4Place {
        at,
        header,
        protocol: bytes[at + IPV4_PROTOCOL_AT],
    })
}

/// Whether so many bytes are there from `at` on.
pub fn has_bytes(bytes: &[u8], at: usize, count: usize) -> bool
    ensures { result ≡ has_bytes bytes.now at count }
{
    at <= bytes.len() && count <= bytes.len() - at
}

/// The 16-bit number at a place, in network byte order.
fn word(bytes: &[u8], at: usize) -> u16
    requires { at + 2 ≤ length bytes.now }
    ensures { result ≡ word_at bytes.now at }
{
    u16::from(bytes[at]) * 256 + u16::from(bytes[at + 1])
}

/// The type in which the Ethernet header and so many tags end.
pub fn type_after(bytes: &[u8], tags: u8) -> u16
    requires few { tags ≤ 2 }
    requires room { behind_tags tags ≤ length bytes.now }
    ensures { result ≡ type_after bytes.now tags }
{
    word(bytes, behind_tags(tags) - TYPE_LEN)
}

/// The number of tags behind the Ethernet header, of which two at most are read.
pub fn tags_in(bytes: &[u8]) -> u8
    requires { 14 ≤ length bytes.now }
    ensures { result ≡ tags_of bytes.now }
{
    if !has_tag(bytes, 0) {
        return 0;
    }
    if has_tag(bytes, 1) { 2 } else { 1 }
}

/// Whether behind so many tags a further one follows: the type is 0x8100, and 4 more bytes are there.
fn has_tag(bytes: &[u8], tags: u8) -> bool
    requires few { tags < 2 }
    requires room { behind_tags tags ≤ length bytes.now }
    ensures { result ≡ is_tagged bytes.now tags }
{
    type_after(bytes, tags) == TYPE_VLAN && has_bytes(bytes, behind_tags(tags), TAG_LEN)
}

/// The place behind the Ethernet header and so many tags.
pub fn behind_tags(tags: u8) -> usize
    requires { tags ≤ 2 }
    ensures { result ≡ behind_tags tags }
{
    ETHERNET_LEN + TAG_LEN * usize::from(tags)
}

/// The IPv4 header behind so many tags, where the last type is 0x0800.
fn network(bytes: &[u8], tags: u8) -> Option<Ipv4Place>
    requires few { tags ≤ 2 }
    requires room { behind_tags tags ≤ length bytes.now }
    ensures value { result ≡ network_of bytes.now tags }
    ensures within { IfSome result (λ ip. ip.at + ip.header ≤ length bytes.now) }
{
    if type_after(bytes, tags) == TYPE_IPV4 {
        ipv4_at(bytes, behind_tags(tags))
    } else {
        None
    }
}

/// The header behind an IPv4 header: TCP with 20 bytes, or UDP with 8.
fn transport(bytes: &[u8], ip: &Ipv4Place) -> Option<L4Place>
    requires { ip.now.at + ip.now.header ≤ length bytes.now }
    ensures value { result ≡ transport_of bytes.now ip.now }
    ensures within { IfSome result (λ l4. end_of l4 ≤ length bytes.now) }
{
    let at = ip.at + ip.header;
    if ip.protocol == PROTOCOL_TCP && has_bytes(bytes, at, TCP_LEN) {
        return Some(L4Place::Tcp { at });
    }
    if ip.protocol == PROTOCOL_UDP && has_bytes(bytes, at, UDP_LEN) {
        return Some(L4Place::Udp { at });
    }
    None
}

/// The headers of a packet with so many tags and an IPv4 header.
fn over_ipv4(bytes: &[u8], tags: u8, ip: Ipv4Place) -> Layers
    requires { ip.at + ip.header ≤ length bytes.now }
    ensures { result ≡ layers_over bytes.now tags (Some ip) }
{
    match transport(bytes, &ip) {
        None => Layers {
            ethernet: true,
            tags,
            ip: Some(ip),
            l4: None,
            rest: ip.at + ip.header,
        },
        Some(l4) => Layers {
            ethernet: true,
            tags,
            ip: Some(ip),
            l4: Some(l4),
            rest: end_behind(&l4),
        },
    }
}

/// The first byte behind a TCP or UDP header.
fn end_behind(l4: &L4Place) -> usize
    requires { end_of l4.now < 2 ^ 64 }
    ensures { result ≡ end_of l4.now }
{
    match *l4 {
        L4Place::Tcp { at } => at + TCP_LEN,
        L4Place::Udp { at } => at + UDP_LEN,
    }
}
