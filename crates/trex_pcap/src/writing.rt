// The headers of a capture as they are written (pcap 2.4).

ghost use Rattle.std.specs.Prelude.{◌≡◌, ◌<◌, ◌*◌, ◌^◌};
ghost use Rattle.trex_pcap.specs.Writing.{file_header, record_header_of};

use byteorder::{ByteOrder, LittleEndian};

/// The magic number of a capture whose fractions of a second are nanoseconds.
pub(crate) const MAGIC_NANOSECONDS: u32 = 0xA1B2_3C4D;

/// The number before the point of the format's version, 2.4.
pub(crate) const VERSION_MAJOR: u16 = 2;

/// The number behind the point of the format's version, 2.4.
pub(crate) const VERSION_MINOR: u16 = 4;

/// The greatest number of bytes of a packet that a record holds.
pub(crate) const SNAPSHOT_LENGTH: u32 = 262_144;

/// The link type of Ethernet.
pub(crate) const LINK_ETHERNET: u32 = 1;

pub(crate) const NANOSECONDS_PER_SECOND: u64 = 1_000_000_000;

/// The file header of a capture: little-endian, version 2.4, records in nanoseconds, snapshot length 262,144 bytes, link
/// type Ethernet (pcap 2.4, file header).
#[tactic(auto, unfolding(crate::specs::Writing::file_header))]
pub fn header() -> [u8; 24]
    ensures { result ≡ file_header }
{
    let mut bytes = [0; 24];
    LittleEndian::write_u32(&mut bytes, MAGIC_NANOSECONDS);
    LittleEndian::write_u16(&mut bytes[4..], VERSION_MAJOR);
    LittleEndian::write_u16(&mut bytes[6..], VERSION_MINOR);
    LittleEndian::write_u32(&mut bytes[16..], SNAPSHOT_LENGTH);
    LittleEndian::write_u32(&mut bytes[20..], LINK_ETHERNET);
    bytes
}

/// The record header of a whole packet of `length` bytes at `time`, in nanoseconds since 1970 (pcap 2.4, packet record).
#[tactic(auto, unfolding(crate::specs::Writing::record_header_of))]
pub fn record_header(time: u64, length: u32) -> [u8; 16]
    requires { time < 2 ^ 32 * 10 ^ 9 }
    ensures { result ≡ record_header_of time length }
{
    let mut bytes = [0; 16];
    LittleEndian::write_u32(&mut bytes, (time / NANOSECONDS_PER_SECOND) as u32);
    LittleEndian::write_u32(&mut bytes[4..], (time % NANOSECONDS_PER_SECOND) as u32);
    LittleEndian::write_u32(&mut bytes[8..], length);
    LittleEndian::write_u32(&mut bytes[12..], length);
    bytes
}
