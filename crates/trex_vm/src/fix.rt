// Checksums of headers, written into a packet.

ghost use Rattle.std.specs.Prelude.{◌≡◌, ◌+◌, ◌*◌, ◌%◌, ◌<◌, ◌≤◌, ◌++◌, IsTrue, length};
ghost use Rattle.std.specs.List.{slice_range};
ghost use Rattle.trex_headers.specs.Network.{network_of};
ghost use Rattle.trex_sum.specs.Checksum.{fold_of, sum_of};
ghost use Rattle.trex_vm.specs.Fix.{fixed_ipv4, fixed_segment, header_length, least_segment, left_for_segment, protocol_of, pseudo_header, segment_at, segment_fits, segment_length, sum_place, with_checksum, written_sum};

use crate::instr::L4Kind;
use trex_fields::{read_be, write_be};
use trex_headers::{Version as IpVersion, network_places};
use trex_layers::{PROTOCOL_TCP, PROTOCOL_UDP, TCP_LEN, UDP_LEN};
use trex_sum::{ALL_ONES, fold_sum, ones_for_zero, sum_words};

/// The offset of the checksum in an IPv4 header (RFC 791, section 3.1).
pub(crate) const HEADER_SUM: usize = 10;

/// The offset of the length in a UDP header (RFC 768).
const UDP_LENGTH: usize = 4;

/// The length in bytes of an IPv4 header, by its first byte, whose lower four bits count words of four bytes (RFC 791, section 3.1).
pub(crate) fn words_to_bytes(first: u8) -> usize
    ensures { result ≡ first % 16 * 4 }
{
    usize::from(first % 16) * 4
}

/// Writes the checksum of the IPv4 header at a place.
pub(crate) fn fix_ipv4(packet: &mut [u8], at: usize)
    requires long { 20 ≤ header_length packet.old at }
    requires room { at + header_length packet.old at ≤ length packet.old }
    ensures { packet.new ≡ fixed_ipv4 at packet.old }
{
    let end = at + words_to_bytes(packet[at]);
    write_be::<2>(packet, at + HEADER_SUM, 0);
    let folded = fold_sum(0, &packet[at..end]);
    write_be::<2>(packet, at + HEADER_SUM, u64::from(ALL_ONES - folded));
}

/// The protocol or next header of a kind of segment (RFC 790; RFC 8200, section 3).
pub(crate) fn protocol_of(kind: L4Kind) -> u8
    ensures { result ≡ protocol_of kind }
{
    match kind {
        L4Kind::Tcp => PROTOCOL_TCP,
        L4Kind::Udp => PROTOCOL_UDP,
    }
}

/// The least bytes of a segment: TCP's header without options (RFC 793, section 3.1), UDP's header (RFC 768).
pub(crate) fn least_segment(kind: L4Kind) -> usize
    ensures { result ≡ least_segment kind }
{
    match kind {
        L4Kind::Tcp => TCP_LEN,
        L4Kind::Udp => UDP_LEN,
    }
}

/// The place of the checksum in a segment (RFC 793, section 3.1; RFC 768).
pub(crate) fn sum_place(kind: L4Kind) -> usize
    ensures value { result ≡ sum_place kind }
    ensures small { result + 2 ≤ least_segment kind }
{
    match kind {
        L4Kind::Tcp => 16,
        L4Kind::Udp => 6,
    }
}

/// The checksum as it is written: a UDP checksum of zero stands for none, so all ones are written in its place (RFC 768; RFC 8200, section 8.1).
fn written_sum(kind: L4Kind, sum: u16) -> u16
    ensures { result ≡ written_sum kind sum }
{
    match kind {
        L4Kind::Tcp => sum,
        L4Kind::Udp => ones_for_zero(sum),
    }
}

/// The bytes that the length in an IP header leaves for the segment: IPv4's counts the header, IPv6's doesn't.
fn left_for_segment(version: IpVersion, header: usize, len: usize) -> usize
    ensures { result ≡ left_for_segment version header len }
{
    match version {
        IpVersion::V4 => len.saturating_sub(header),
        IpVersion::V6 => len,
    }
}

/// The segment's length, as its headers say.
fn length_of_segment(
    packet: &[u8],
    version: IpVersion,
    kind: L4Kind,
    ip: usize,
    header: usize,
) -> usize
    requires long { (network_of version).end ≤ header }
    requires room { ip + header + least_segment kind ≤ length packet.now }
    ensures value { result ≡ segment_length version kind ip header packet.now }
    ensures small { result < 65536 }
{
    match kind {
        L4Kind::Tcp => {
            let len = read_be::<2>(packet, ip + network_places(version).length);
            left_for_segment(version, header, len as usize)
        }
        L4Kind::Udp => read_be::<2>(packet, ip + header + UDP_LENGTH) as usize,
    }
}

/// The folded sum of the pseudo header of the IP header at `ip`, and of the segment of `len` bytes from `at` on.
fn folded_segment(packet: &[u8], version: IpVersion, ip: usize, at: usize, len: usize) -> u16
    requires header { ip + (network_of version).end ≤ at }
    requires room { at + len ≤ length packet.now }
    requires short { len < 65536 }
    ensures { result ≡ fold_of (sum_of (pseudo_header version ip len packet.now ++ slice_range packet.now at (at + len))) }
{
    let net = network_places(version);
    let addresses = sum_words(&packet[ip + net.addresses..ip + net.end]);
    let protocol = u64::from(packet[ip + net.protocol]);
    fold_sum(addresses + protocol + len as u64, &packet[at..at + len])
}

/// Writes the checksum of a segment that fits.
fn write_segment_sum(
    packet: &mut [u8],
    version: IpVersion,
    kind: L4Kind,
    ip: usize,
    header: usize,
    len: usize,
)
    requires long { (network_of version).end ≤ header }
    requires fits { IsTrue (segment_fits version kind ip header packet.old) }
    requires len { len ≡ segment_length version kind ip header packet.old }
    requires short { len < 65536 }
    ensures { packet.new ≡ with_checksum (written_sum kind) (segment_at version kind ip header) (ip + header + sum_place kind) packet.old }
{
    let at = ip + header;
    let field = at + sum_place(kind);
    write_be::<2>(packet, field, 0);
    let folded = folded_segment(packet, version, ip, at, len);
    write_be::<2>(
        packet,
        field,
        u64::from(written_sum(kind, ALL_ONES - folded)),
    );
}

/// Writes the checksum of the segment behind the IP header of `header` bytes at `ip`. A segment whose length doesn't fit is left as it is.
pub(crate) fn fix_segment(
    packet: &mut [u8],
    version: IpVersion,
    kind: L4Kind,
    ip: usize,
    header: usize,
)
    requires long { (network_of version).end ≤ header }
    requires room { ip + header + least_segment kind ≤ length packet.old }
    ensures { packet.new ≡ fixed_segment version kind ip header packet.old }
{
    let len = length_of_segment(packet, version, kind, ip, header);
    if len >= least_segment(kind) && len <= packet.len() - ip - header {
        write_segment_sum(packet, version, kind, ip, header, len);
    }
}
