// The latency headers' bytes, both ways.

ghost use Rattle.std.specs.Prelude.{◌≡◌, ◌-◌, ◌≤◌, ◌++◌, IfSome, length, take};
ghost use Rattle.trex_stamp.specs.Stamp.{IsStamp, ends_in, last_bytes, last_stamp, marks, size_of, spelled, stamp_bytes, stamp_of};
ghost use Rattle.trex_stamp.specs.declared.header.Version.TheVariants.{One, Two};

use crate::header::{SIZE_ONE, SIZE_TWO, Stamp, Version};
use byteorder::{BigEndian, ByteOrder};

const MARKS_ONE: [u8; 2] = [0xab, 1];

const MARKS_TWO: [u8; 4] = [0xab, 2, 0, 0];

/// The header of version 1.
fn header_one(flow: u16, sequence: u32, time: u64) -> [u8; SIZE_ONE]
    ensures { result ≡ stamp_bytes (record { version = One; flow = flow; sequence = sequence; time = time }) }
{
    let mut out = [0; SIZE_ONE];
    out[..2].copy_from_slice(&MARKS_ONE);
    BigEndian::write_u16(&mut out[2..], flow);
    BigEndian::write_u32(&mut out[4..], sequence);
    BigEndian::write_u64(&mut out[8..], time);
    out
}

/// The header of version 2.
fn header_two(flow: u32, sequence: u64, time: u64) -> [u8; SIZE_TWO]
    ensures { result ≡ stamp_bytes (record { version = Two; flow = flow; sequence = sequence; time = time }) }
{
    let mut out = [0; SIZE_TWO];
    out[..4].copy_from_slice(&MARKS_TWO);
    BigEndian::write_u32(&mut out[4..], flow);
    BigEndian::write_u64(&mut out[8..], sequence);
    BigEndian::write_u64(&mut out[16..], time);
    out
}

/// Writes a header over as many bytes.
fn write_header(s: &Stamp, out: &mut [u8])
    requires long { length out.old ≡ size_of s.now.version }
    requires fits { IsStamp s.now }
    ensures { out.new ≡ stamp_bytes s.now }
{
    match s.version {
        Version::One => {
            out.copy_from_slice(&header_one(s.flow as u16, s.sequence as u32, s.time));
        }
        Version::Two => out.copy_from_slice(&header_two(s.flow, s.sequence, s.time)),
    }
}

/// Writes a latency header over the packet's last bytes: its marks, then flow, sequence and time in network byte order.
pub fn write_stamp(s: &Stamp, packet: &mut [u8])
    requires long { size_of s.now.version ≤ length packet.old }
    requires fits { IsStamp s.now }
    ensures { packet.new ≡ take (length packet.old - size_of s.now.version) packet.old ++ stamp_bytes s.now }
{
    let at = packet.len() - s.version.size();
    write_header(s, &mut packet[at..]);
}

/// The bytes that a header begins with.
fn marks(version: Version) -> &'static [u8]
    ensures { result.now ≡ marks version }
{
    match version {
        Version::One => &MARKS_ONE,
        Version::Two => &MARKS_TWO,
    }
}

/// The last bytes of a packet, so many of them.
fn last_bytes(count: usize, packet: &[u8]) -> &[u8]
    requires { count ≤ length packet.now }
    ensures { result.now ≡ last_bytes count packet.now }
{
    &packet[packet.len() - count..]
}

/// Whether the packet ends in a header of the version.
fn ends_in(version: Version, packet: &[u8]) -> bool
    ensures { result ≡ ends_in version packet.now }
{
    packet.len() >= version.size() && last_bytes(version.size(), packet).starts_with(marks(version))
}

/// The stamp that a header spells.
fn read_header(version: Version, header: &[u8]) -> Stamp
    requires { length header.now ≡ size_of version }
    ensures { result ≡ spelled version header.now }
{
    match version {
        Version::One => Stamp {
            version,
            flow: u32::from(BigEndian::read_u16(&header[2..])),
            sequence: u64::from(BigEndian::read_u32(&header[4..])),
            time: BigEndian::read_u64(&header[8..]),
        },
        Version::Two => Stamp {
            version,
            flow: BigEndian::read_u32(&header[4..]),
            sequence: BigEndian::read_u64(&header[8..]),
            time: BigEndian::read_u64(&header[16..]),
        },
    }
}

/// The stamp that the packet's last bytes spell.
fn last_stamp(version: Version, packet: &[u8]) -> Stamp
    requires { size_of version ≤ length packet.now }
    ensures { result ≡ last_stamp version packet.now }
{
    read_header(version, last_bytes(version.size(), packet))
}

/// The latency header at the packet's end. Version 1 is looked for first: there are at least 16 bytes, and the last 16 begin with 0xab and 1.
/// Otherwise it is version 2 where there are at least 24 bytes, and the last 24 begin with 0xab, 2 and two zero bytes. Otherwise there is none.
pub fn find_stamp(bytes: &[u8]) -> Option<Stamp>
    ensures value { result ≡ stamp_of bytes.now }
    ensures spelled { IfSome result (λ s. last_bytes (size_of s.version) bytes.now ≡ stamp_bytes s) }
{
    if ends_in(Version::One, bytes) {
        return Some(last_stamp(Version::One, bytes));
    }
    if ends_in(Version::Two, bytes) {
        return Some(last_stamp(Version::Two, bytes));
    }
    None
}
