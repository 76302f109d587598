// What the bytes of a file header and of a record header say (pcap 2.4).

ghost use Rattle.std.specs.Prelude.{◌≡◌, ◌+◌, ◌*◌, ◌^◌, ◌<◌, ◌≤◌, if◌then◌else◌, length, IfOk, IfErr};
ghost use Rattle.trex_pcap.specs.Following.{IsOfCapture, ReadsHead};
ghost use Rattle.trex_pcap.specs.Reading.{format_in, fractions, number_at, opening};

use crate::fault::CaptureFault;
use crate::format::Format;
use crate::record::Record;
use crate::writing::{
    LINK_ETHERNET, MAGIC_NANOSECONDS, NANOSECONDS_PER_SECOND, SNAPSHOT_LENGTH, VERSION_MAJOR,
    VERSION_MINOR,
};
use byteorder::{BigEndian, ByteOrder, LittleEndian};

/// The length of a file header in bytes.
pub(crate) const FILE_HEADER: usize = 24;

/// The length of a record header in bytes.
pub(crate) const RECORD_HEADER: usize = 16;

/// The magic number of a capture whose fractions of a second are microseconds.
const MAGIC_MICROSECONDS: u32 = 0xA1B2_C3D4;

const MICROSECONDS_PER_SECOND: u64 = 1_000_000;

const NANOSECONDS_PER_MICROSECOND: u64 = 1_000;

/// The number in the two bytes from a place on, in the byte order of the capture.
#[tactic(auto, unfolding(crate::specs::Reading::number_at))]
fn two_at(big: bool, bytes: &[u8], at: usize) -> u16
    requires { at + 2 ≤ length bytes.now }
    ensures { result ≡ number_at big 2 at bytes.now }
{
    if big {
        BigEndian::read_u16(&bytes[at..])
    } else {
        LittleEndian::read_u16(&bytes[at..])
    }
}

/// The number in the four bytes from a place on, in the byte order of the capture.
#[tactic(auto, unfolding(crate::specs::Reading::number_at))]
fn four_at(big: bool, bytes: &[u8], at: usize) -> u32
    requires { at + 4 ≤ length bytes.now }
    ensures { result ≡ number_at big 4 at bytes.now }
{
    if big {
        BigEndian::read_u32(&bytes[at..])
    } else {
        LittleEndian::read_u32(&bytes[at..])
    }
}

/// The format that the first four bytes of a file header name in a byte order. None where they are no magic number in it.
fn format_in(big: bool, header: &[u8]) -> Option<Format>
    requires { 4 ≤ length header.now }
    ensures { result ≡ format_in big header.now }
{
    match four_at(big, header, 0) {
        MAGIC_NANOSECONDS => Some(Format { big, micro: false }),
        MAGIC_MICROSECONDS => Some(Format { big, micro: true }),
        _ => None,
    }
}

/// The format that a file header names, or what is wrong with the header.
#[tactic(auto, unfolding(crate::specs::Reading::opening))]
pub(crate) fn open(header: &[u8]) -> Result<Format, CaptureFault>
    requires { length header.now ≡ 24 }
    ensures value { result ≡ opening header.now }
    ensures own { IfErr result IsOfCapture }
{
    let format = format_in(true, header)
        .or(format_in(false, header))
        .ok_or(CaptureFault::BadMagic)?;
    let big = format.big;
    if two_at(big, header, 4) != VERSION_MAJOR || two_at(big, header, 6) != VERSION_MINOR {
        return Err(CaptureFault::BadVersion);
    }
    if four_at(big, header, 20) != LINK_ETHERNET {
        return Err(CaptureFault::BadLink);
    }
    Ok(format)
}

/// How many of a record's fractions make a second.
fn fractions(format: Format) -> u64
    ensures { result ≡ fractions format }
{
    if format.micro {
        MICROSECONDS_PER_SECOND
    } else {
        NANOSECONDS_PER_SECOND
    }
}

/// A record's time, in nanoseconds since 1970.
fn time_of(format: Format, seconds: u32, fraction: u32) -> u64
    ensures { result ≡ seconds * 10 ^ 9 + (if format.micro then fraction * 1000 else fraction) }
{
    let scale = if format.micro {
        NANOSECONDS_PER_MICROSECOND
    } else {
        1
    };
    u64::from(seconds) * NANOSECONDS_PER_SECOND + u64::from(fraction) * scale
}

/// What the header of record `number` says, or what is wrong with it.
#[tactic(auto, unfolding(crate::specs::Reading::head_fault))]
pub(crate) fn read_head(format: Format, number: u64, header: &[u8]) -> Result<Record, CaptureFault>
    requires { length header.now ≡ 16 }
    ensures value { ReadsHead format number header.now result }
    ensures own { IfErr result IsOfCapture }
    ensures small { IfOk result (λ r. (r.captured ≤ 262144) × (r.time < 2 ^ 63)) }
{
    let big = format.big;
    let seconds = four_at(big, header, 0);
    let fraction = four_at(big, header, 4);
    let captured = four_at(big, header, 8);
    let original = four_at(big, header, 12);
    if u64::from(fraction) >= fractions(format) {
        return Err(CaptureFault::BadFraction { number });
    }
    if captured > SNAPSHOT_LENGTH {
        return Err(CaptureFault::BadLength { number });
    }
    Ok(Record {
        number,
        time: time_of(format, seconds, fraction),
        captured,
        original,
    })
}
