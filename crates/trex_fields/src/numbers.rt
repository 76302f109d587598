// Numbers of 1, 2, 4 or 8 bytes in a packet, in either order of their bytes.

ghost use Rattle.std.specs.Prelude.{◌≡◌, ◌+◌, ◌≤◌, length, drop};
ghost use Rattle.byteorder.specs.Endian.{big_bytes, big_number, little_bytes, little_number};
ghost use Rattle.trex_fields.specs.Bytes.{put, IsSize};

use byteorder::{BigEndian, ByteOrder, LittleEndian};

/// The number of `N` bytes from the place `at` on, its highest byte first (network byte order).
pub fn read_be<const N: usize>(bytes: &[u8], at: usize) -> u64
    requires size { IsSize N }
    requires room { at + N ≤ length bytes.now }
    ensures { result ≡ big_number N (drop at bytes.now) }
{
    let place = &bytes[at..];
    match N {
        1 => u64::from(place[0]),
        2 => u64::from(BigEndian::read_u16(place)),
        4 => u64::from(BigEndian::read_u32(place)),
        _ => BigEndian::read_u64(place),
    }
}

/// The number of `N` bytes from the place `at` on, its lowest byte first.
pub fn read_le<const N: usize>(bytes: &[u8], at: usize) -> u64
    requires size { IsSize N }
    requires room { at + N ≤ length bytes.now }
    ensures { result ≡ little_number N (drop at bytes.now) }
{
    let place = &bytes[at..];
    match N {
        1 => u64::from(place[0]),
        2 => u64::from(LittleEndian::read_u16(place)),
        4 => u64::from(LittleEndian::read_u32(place)),
        _ => LittleEndian::read_u64(place),
    }
}

/// Writes the lowest `N` bytes of `value` at the place `at`, the highest of them first (network byte order).
#[tactic(auto, unfolding(crate::specs::Bytes::put))]
pub fn write_be<const N: usize>(bytes: &mut [u8], at: usize, value: u64)
    requires size { IsSize N }
    requires room { at + N ≤ length bytes.old }
    ensures { bytes.new ≡ put at (big_bytes N value) bytes.old }
{
    let place = &mut bytes[at..at + N];
    match N {
        1 => place[0] = (value % 256) as u8,
        2 => BigEndian::write_u16(place, (value % 65_536) as u16),
        4 => BigEndian::write_u32(place, (value % 4_294_967_296) as u32),
        _ => BigEndian::write_u64(place, value),
    }
}

/// Writes the lowest `N` bytes of `value` at the place `at`, the lowest of them first.
#[tactic(auto, unfolding(crate::specs::Bytes::put))]
pub fn write_le<const N: usize>(bytes: &mut [u8], at: usize, value: u64)
    requires size { IsSize N }
    requires room { at + N ≤ length bytes.old }
    ensures { bytes.new ≡ put at (little_bytes N value) bytes.old }
{
    let place = &mut bytes[at..at + N];
    match N {
        1 => place[0] = (value % 256) as u8,
        2 => LittleEndian::write_u16(place, (value % 65_536) as u16),
        4 => LittleEndian::write_u32(place, (value % 4_294_967_296) as u32),
        _ => LittleEndian::write_u64(place, value),
    }
}
