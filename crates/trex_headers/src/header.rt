// The header of each layer.

ghost use Rattle.std.specs.Prelude.{◌≡◌, ◌+◌, ◌≤◌, ◌++◌, [], length, option_map};
ghost use Rattle.byteorder.specs.Endian.{big_bytes};
ghost use Rattle.trex_sum.specs.Checksum.{ones_for_zero};
ghost use Rattle.trex_headers.specs.Built.{header_length};
ghost use Rattle.trex_headers.specs.Header.{header_of, ipv4_front, ipv6_front, protocol_before, pseudo_header, sealed, tcp_back, tcp_front, type_before, udp_front};
ghost use Rattle.trex_headers.specs.Layer.{layer_of};

use crate::constants::{IPV6_SOURCE_AT, TYPE_IPV6};
use crate::layer::LayerView;
use crate::pseudo::{addresses, pseudo_sum};
use byteorder::{BigEndian, ByteOrder};
use trex_layers::{
    IPV4_LEN, LONGEST_PACKET, PROTOCOL_TCP, PROTOCOL_UDP, TAG_LEN, TCP_LEN, TYPE_IPV4, TYPE_LEN,
    TYPE_VLAN, UDP_LEN,
};
use trex_sum::{ALL_ONES, fold, ones_for_zero, sum_words};

/// Version 4, and a header of 5 words of 4 bytes.
const IPV4_FIRST: u8 = 0x45;

/// A TCP header of 5 words of 4 bytes.
const TCP_OFFSET: u8 = 0x50;

/// Version 6, in the highest bits of the header's first 4 bytes.
const IPV6_VERSION: u32 = 0x6000_0000;

/// One of the traffic class, which stands behind the version.
const IPV6_CLASS: u32 = 0x10_0000;

/// The length of an address, in bytes.
fn address_length<const N: usize>(address: &[u8; N]) -> usize
    ensures value { result ≡ length address.now }
    ensures fixed { result ≡ N }
{
    address.len()
}

/// The length of a layer's header, in bytes.
pub(crate) fn header_length(one: &LayerView<'_>) -> usize
    ensures { result ≡ header_length (layer_of one.now) }
{
    match one {
        LayerView::Ethernet { dst, src, .. } => address_length(dst)
            + address_length(src)
            + TYPE_LEN,
        LayerView::Vlan { .. } => TAG_LEN,
        LayerView::Ipv4 { .. } => IPV4_LEN,
        LayerView::Ipv6 { src, dst, .. } => {
            IPV6_SOURCE_AT + (address_length(src) + address_length(dst))
        }
        LayerView::Tcp { .. } => TCP_LEN,
        LayerView::Udp { .. } => UDP_LEN,
        LayerView::Raw { bytes } => bytes.len(),
    }
}

/// The type in the header before a layer.
fn type_before(next: Option<&LayerView<'_>>, own: u16) -> u16
    ensures { result ≡ type_before (option_map (λ one. layer_of one.now) next.entry) own }
{
    match next {
        Some(LayerView::Vlan { .. }) => TYPE_VLAN,
        Some(LayerView::Ipv4 { .. }) => TYPE_IPV4,
        Some(LayerView::Ipv6 { .. }) => TYPE_IPV6,
        _ => own,
    }
}

/// The protocol in the IPv4 header before a layer, or the next header in the IPv6 header.
fn protocol_before(next: Option<&LayerView<'_>>, own: u8) -> u8
    ensures { result ≡ protocol_before (option_map (λ one. layer_of one.now) next.entry) own }
{
    match next {
        Some(LayerView::Tcp { .. }) => PROTOCOL_TCP,
        Some(LayerView::Udp { .. }) => PROTOCOL_UDP,
        _ => own,
    }
}

/// An IPv4 header up to its checksum.
#[tactic(auto, unfolding(crate::specs::Header::ipv4_front))]
fn ipv4_front(tos: u8, total: u16, id: u16, frag: u16, ttl: u8, proto: u8) -> [u8; 10]
    ensures { result ≡ ipv4_front tos total id frag ttl proto }
{
    let mut bytes = [0; 10];
    bytes[0] = IPV4_FIRST;
    bytes[1] = tos;
    BigEndian::write_u16(&mut bytes[2..], total);
    BigEndian::write_u16(&mut bytes[4..], id);
    BigEndian::write_u16(&mut bytes[6..], frag);
    bytes[8] = ttl;
    bytes[9] = proto;
    bytes
}

/// An IPv6 header up to its addresses, given the length of what follows it.
#[tactic(auto, unfolding(crate::specs::Header::ipv6_front))]
fn ipv6_front(class: u8, label: u32, len: u16, next: u8, hop: u8) -> [u8; 8]
    ensures { result ≡ ipv6_front class label len next hop }
{
    let mut bytes = [0; 8];
    let first = IPV6_VERSION + IPV6_CLASS * u32::from(class) + label % IPV6_CLASS;
    BigEndian::write_u32(&mut bytes, first);
    BigEndian::write_u16(&mut bytes[4..], len);
    bytes[6] = next;
    bytes[7] = hop;
    bytes
}

/// A TCP header up to its checksum.
#[tactic(auto, unfolding(crate::specs::Header::tcp_front))]
fn tcp_front(sport: u16, dport: u16, seq: u32, ack: u32, flags: u8, window: u16) -> [u8; 16]
    ensures { result ≡ tcp_front sport dport seq ack flags window }
{
    let mut bytes = [0; 16];
    BigEndian::write_u16(&mut bytes, sport);
    BigEndian::write_u16(&mut bytes[2..], dport);
    BigEndian::write_u32(&mut bytes[4..], seq);
    BigEndian::write_u32(&mut bytes[8..], ack);
    bytes[12] = TCP_OFFSET;
    bytes[13] = flags;
    BigEndian::write_u16(&mut bytes[14..], window);
    bytes
}

/// A UDP header up to its checksum.
#[tactic(auto, unfolding(crate::specs::Header::udp_front))]
fn udp_front(sport: u16, dport: u16, len: u16) -> [u8; 6]
    ensures { result ≡ udp_front sport dport len }
{
    let mut bytes = [0; 6];
    BigEndian::write_u16(&mut bytes, sport);
    BigEndian::write_u16(&mut bytes[2..], dport);
    BigEndian::write_u16(&mut bytes[4..], len);
    bytes
}

/// Writes a header, given its fields before and behind the checksum, its written checksum between them.
fn write_sealed(header: &mut [u8], front: &[u8], checksum: u16, back: &[u8])
    requires { length header.old ≡ length front.now + (2 + length back.now) }
    ensures { header.new ≡ front.now ++ (big_bytes 2 checksum ++ back.now) }
{
    let (start, rest) = header.split_at_mut(front.len());
    let (field, end) = rest.split_at_mut(2);
    start.copy_from_slice(front);
    BigEndian::write_u16(field, checksum);
    end.copy_from_slice(back);
}

/// Writes an Ethernet header.
fn write_ethernet(header: &mut [u8], dst: &[u8; 6], src: &[u8; 6], etype: u16)
    requires { length header.old ≡ length dst.now + length src.now + 2 }
    ensures { header.new ≡ dst.now ++ (src.now ++ big_bytes 2 etype) }
{
    let (to, rest) = header.split_at_mut(6);
    let (from, kind) = rest.split_at_mut(6);
    to.copy_from_slice(dst);
    from.copy_from_slice(src);
    BigEndian::write_u16(kind, etype);
}

/// Writes a tag.
fn write_tag(header: &mut [u8], tci: u16, etype: u16)
    requires { length header.old ≡ 4 }
    ensures { header.new ≡ big_bytes 2 tci ++ big_bytes 2 etype }
{
    let (control, kind) = header.split_at_mut(2);
    BigEndian::write_u16(control, tci);
    BigEndian::write_u16(kind, etype);
}

/// Writes an IPv4 header, given its fields before and behind the checksum.
#[tactic(auto, unfolding(crate::specs::Header::sealed))]
fn write_ipv4(header: &mut [u8], front: &[u8; 10], ends: &[u8; 8])
    requires { length header.old ≡ 20 }
    ensures { header.new ≡ sealed (λ n. n) [] front.now ends.now [] }
{
    let sum = sum_words(front) + sum_words(ends);
    write_sealed(header, front, ALL_ONES - fold(sum), ends);
}

/// Writes an IPv6 header, given its fields before the addresses.
fn write_ipv6(header: &mut [u8], front: &[u8; 8], src: &[u8; 16], dst: &[u8; 16])
    requires { length header.old ≡ 8 + (length src.now + length dst.now) }
    ensures { header.new ≡ front.now ++ (src.now ++ dst.now) }
{
    let (start, ends) = header.split_at_mut(IPV6_SOURCE_AT);
    let (from, to) = ends.split_at_mut(16);
    start.copy_from_slice(front);
    from.copy_from_slice(src);
    to.copy_from_slice(dst);
}

/// Writes a TCP header, given its fields before the checksum.
#[tactic(auto, unfolding(crate::specs::Header::sealed))]
fn write_tcp(header: &mut [u8], before: Option<&LayerView<'_>>, front: &[u8; 16], payload: &[u8])
    requires long { length header.old ≡ 20 }
    requires short { length payload.now ≤ LONGEST_PACKET }
    ensures { header.new ≡ sealed (λ n. n) (pseudo_header (option_map (λ one. layer_of one.now) before.entry) 6 (20 + length payload.now))
        front.now tcp_back payload.now }
{
    let len = (TCP_LEN + payload.len()) as u16;
    let sum = pseudo_sum(before, PROTOCOL_TCP, len) + sum_words(front) + sum_words(payload);
    write_sealed(header, front, ALL_ONES - fold(sum), &[0, 0]);
}

/// Writes a UDP header, given its fields before the checksum.
#[tactic(auto, unfolding(crate::specs::Header::sealed))]
fn write_udp(header: &mut [u8], before: Option<&LayerView<'_>>, front: &[u8; 6], payload: &[u8])
    requires long { length header.old ≡ 8 }
    requires short { length payload.now ≤ LONGEST_PACKET }
    ensures { header.new ≡ sealed ones_for_zero (pseudo_header (option_map (λ one. layer_of one.now) before.entry) 17 (8 + length payload.now))
        front.now [] payload.now }
{
    let len = (UDP_LEN + payload.len()) as u16;
    let sum = pseudo_sum(before, PROTOCOL_UDP, len) + sum_words(front) + sum_words(payload);
    write_sealed(header, front, ones_for_zero(ALL_ONES - fold(sum)), &[]);
}

/// Writes the header of a layer, given the layer before it, the layer that follows and all bytes that follow.
pub(crate) fn write_header(
    header: &mut [u8],
    before: Option<&LayerView<'_>>,
    one: &LayerView<'_>,
    next: Option<&LayerView<'_>>,
    payload: &[u8],
)
    requires long { length header.old ≡ header_length (layer_of one.now) }
    requires short { length payload.now ≤ LONGEST_PACKET }
    ensures { header.new ≡ header_of (option_map (λ other. layer_of other.now) before.entry) (layer_of one.now)
        (option_map (λ other. layer_of other.now) next.entry) payload.now }
{
    match one {
        LayerView::Ethernet { dst, src, etype } => {
            write_ethernet(header, dst, src, type_before(next, *etype));
        }
        LayerView::Vlan { tci, etype } => write_tag(header, *tci, type_before(next, *etype)),
        LayerView::Ipv4 {
            tos,
            id,
            frag,
            ttl,
            proto,
            src,
            dst,
        } => {
            let total = (IPV4_LEN + payload.len()) as u16;
            let protocol = protocol_before(next, *proto);
            let front = ipv4_front(*tos, total, *id, *frag, *ttl, protocol);
            write_ipv4(header, &front, &addresses(*src, *dst));
        }
        LayerView::Ipv6 {
            class,
            label,
            hop,
            next: own,
            src,
            dst,
        } => {
            let len = payload.len() as u16;
            let front = ipv6_front(*class, *label, len, protocol_before(next, *own), *hop);
            write_ipv6(header, &front, src, dst);
        }
        LayerView::Tcp {
            sport,
            dport,
            seq,
            ack,
            flags,
            window,
        } => {
            let front = tcp_front(*sport, *dport, *seq, *ack, *flags, *window);
            write_tcp(header, before, &front, payload);
        }
        LayerView::Udp { sport, dport } => {
            let len = (UDP_LEN + payload.len()) as u16;
            write_udp(header, before, &udp_front(*sport, *dport, len), payload);
        }
        LayerView::Raw { bytes } => header.copy_from_slice(bytes),
    }
}
