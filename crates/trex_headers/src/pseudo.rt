// The sums of pseudo headers.

ghost use Rattle.std.specs.Prelude.{◌≡◌, ◌+◌, ◌%◌, ◌^◌, ◌<◌, ◌++◌, [], length, option_map};
ghost use Rattle.trex_sum.specs.Checksum.{sum_of};
ghost use Rattle.trex_headers.specs.Header.{addresses, pseudo_header, pseudo_ipv4, pseudo_ipv6};
ghost use Rattle.trex_headers.specs.Layer.{layer_of};

use crate::layer::LayerView;
use byteorder::{BigEndian, ByteOrder};
use trex_sum::sum_words;

/// Two IPv4 addresses in network byte order.
pub(crate) fn addresses(src: u32, dst: u32) -> [u8; 8]
    ensures { result ≡ addresses src dst }
{
    let mut bytes = [0; 8];
    BigEndian::write_u32(&mut bytes, src);
    BigEndian::write_u32(&mut bytes[4..], dst);
    bytes
}

/// The sum of a pseudo header over IPv4.
#[tactic(auto, unfolding(crate::specs::Header::pseudo_ipv4))]
fn sum_over_ipv4(src: u32, dst: u32, protocol: u8, len: u16) -> u64
    ensures value { result ≡ sum_of (pseudo_ipv4 (addresses src dst) protocol len) }
    ensures words { length (pseudo_ipv4 (addresses src dst) protocol len) % 2 ≡ 0 }
    ensures bound { result < 2 ^ 32 }
{
    sum_words(&addresses(src, dst)) + u64::from(protocol) + u64::from(len)
}

/// The sum of a pseudo header over IPv6.
#[tactic(auto, using(crate::proofs::Sums::sum_of_pseudo_ipv6, crate::proofs::Sums::words_of_pseudo_ipv6))]
fn sum_over_ipv6(src: &[u8; 16], dst: &[u8; 16], protocol: u8, len: u16) -> u64
    ensures value { result ≡ sum_of (pseudo_ipv6 (src.now ++ dst.now) protocol len) }
    ensures words { length (pseudo_ipv6 (src.now ++ dst.now) protocol len) % 2 ≡ 0 }
    ensures bound { result < 2 ^ 32 }
{
    sum_words(src) + sum_words(dst) + u64::from(protocol) + u64::from(len)
}

/// The sum of a pseudo header without addresses.
#[tactic(auto, unfolding(crate::specs::Header::pseudo_ipv4))]
fn sum_without_addresses(protocol: u8, len: u16) -> u64
    ensures value { result ≡ sum_of (pseudo_ipv4 [] protocol len) }
    ensures words { length (pseudo_ipv4 [] protocol len) % 2 ≡ 0 }
    ensures bound { result < 2 ^ 32 }
{
    u64::from(protocol) + u64::from(len)
}

/// The sum of the pseudo header of a segment of `len` bytes behind a layer.
pub(crate) fn pseudo_sum(before: Option<&LayerView<'_>>, protocol: u8, len: u16) -> u64
    ensures value { result ≡ sum_of (pseudo_header (option_map (λ one. layer_of one.now) before.entry) protocol len) }
    ensures words { length (pseudo_header (option_map (λ one. layer_of one.now) before.entry) protocol len) % 2 ≡ 0 }
    ensures bound { result < 2 ^ 32 }
{
    match before {
        Some(LayerView::Ipv4 { src, dst, .. }) => sum_over_ipv4(*src, *dst, protocol, len),
        Some(LayerView::Ipv6 { src, dst, .. }) => sum_over_ipv6(src, dst, protocol, len),
        _ => sum_without_addresses(protocol, len),
    }
}
