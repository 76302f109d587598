// The bytes that each stream of the sample sends.

ghost use Rattle.std.specs.Prelude.{◌≡◌, ◌≤◌, ◌+◌, IfOk};
ghost use Rattle.trex_sample.specs.Template.{ipv4, udp_sum, udp, template};

use byteorder::{BigEndian, ByteOrder};
use std::alloc::Global;
use trex_io::Memory;
use trex_layers::{ETHERNET_LEN, IPV4_LEN, UDP_LEN};
use trex_sum::{ALL_ONES, fold, sum_words};

/// From 02:00:00:00:00:01 to 02:00:00:00:00:02, with the type of IPv4 (IEEE 802.3, section 3.2).
const ETHERNET: [u8; 14] = [2, 0, 0, 0, 0, 2, 2, 0, 0, 0, 0, 1, 8, 0];

/// The length of the IPv4 header, as its fields have it.
const IPV4_HEADER: u16 = IPV4_LEN as u16;

/// The length of the UDP header, as its fields have it.
const UDP_HEADER: u16 = UDP_LEN as u16;

/// The length of the three headers.
const HEADERS: usize = ETHERNET_LEN + IPV4_LEN + UDP_LEN;

/// The IPv4 header in front of a UDP segment of so many bytes: from 16.0.0.1 to 48.0.0.1.
#[tactic(auto, unfolding(crate::specs::Template::ipv4))]
fn ipv4(segment: u16) -> [u8; 20]
    requires { segment ≤ 1026 }
    ensures { result ≡ ipv4 (20 + segment) }
{
    let mut header = [
        0x45, 0, 0, 0, 0, 0, 0, 0, 64, 17, 0, 0, 16, 0, 0, 1, 48, 0, 0, 1,
    ];
    BigEndian::write_u16(&mut header[2..], IPV4_HEADER + segment);
    let sum = fold(sum_words(&header));
    BigEndian::write_u16(&mut header[10..], ALL_ONES - sum);
    header
}

/// The checksum of a UDP segment of so many zeros.
#[tactic(auto, unfolding(crate::specs::Template::udp_sum))]
fn udp_sum(pad: u16) -> u16
    requires { pad ≤ 1018 }
    ensures { result ≡ udp_sum pad }
{
    let mut pseudo_header = [16, 0, 0, 1, 48, 0, 0, 1, 0, 17, 0, 0];
    BigEndian::write_u16(&mut pseudo_header[10..], UDP_HEADER + pad);
    let mut header = [4, 1, 0, 12, 0, 0, 0, 0];
    BigEndian::write_u16(&mut header[4..], UDP_HEADER + pad);
    // No such sum folds to all ones, so the checksum is never zero.
    ALL_ONES - fold(sum_words(&pseudo_header) + sum_words(&header))
}

/// The UDP header of a segment of so many zeros: from port 1025 to port 12.
#[tactic(auto, unfolding(crate::specs::Template::udp))]
fn udp(pad: u16) -> [u8; 8]
    requires { pad ≤ 1018 }
    ensures { result ≡ udp pad }
{
    let mut header = [4, 1, 0, 12, 0, 0, 0, 0];
    BigEndian::write_u16(&mut header[4..], UDP_HEADER + pad);
    BigEndian::write_u16(&mut header[6..], udp_sum(pad));
    header
}

/// The template with so many zeros behind its headers.
#[tactic(auto, unfolding(crate::specs::Template::template))]
pub(crate) fn template(alloc: Global, pad: u16) -> Result<Vec<u8>, Memory>
    requires { pad ≤ 1018 }
    ensures { IfOk result (λ bytes. bytes.items ≡ template pad) }
{
    let mut bytes = Vec::from_slice(alloc, &ETHERNET)?;
    bytes.extend_from_slice(&ipv4(UDP_HEADER + pad))?;
    bytes.extend_from_slice(&udp(pad))?;
    bytes.resize(HEADERS + usize::from(pad), 0)?;
    Ok(bytes)
}
