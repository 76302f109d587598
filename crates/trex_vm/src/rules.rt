// Whether the instructions of a stream are accepted for its variables and its template: one test a rule.

ghost use Rattle.std.specs.Prelude.{◌≡◌, ◌+◌, ◌<◌, ◌≤◌, nat_le, count_by, All, length, map, slice_index};
ghost use Rattle.std.specs.List.{list_any};
ghost use Rattle.trex_vars.specs.Variable.{variable_of};
ghost use Rattle.trex_vars.specs.Bounds.{least, greatest};
ghost use Rattle.trex_vm.specs.Write.{number_in};
ghost use Rattle.trex_vm.specs.Effect.{writes_byte};
ghost use Rattle.trex_vm.specs.Fix.{network_length};
ghost use Rattle.trex_vm.specs.Rules.{least_length, room_of, no_room_for_stamp, is_trim, trim_wrong, writes_past, number_of, has_network, finds_header, misses_header, overwrites_kind, overwrites_kind_of, overwrites_header_kind, accepts};
ghost use Rattle.trex_vm.specs.Program.{TakesFrom};

use crate::effect::Fix;
use crate::fix::{least_segment, protocol_of, words_to_bytes};
use crate::instr::{Instr, Operand};
use crate::write::part_of;
use trex_headers::{IPV6_LEN, Version as IpVersion, network_places};
use trex_layers::SHORTEST_PACKET;
use trex_stamp::Version;
use trex_vars::VarSpec;

/// The least number that an operand takes.
fn least_in(vars: &[VarSpec], from: Operand) -> u64
    requires { from.var < length vars.now }
    ensures { result ≡ number_in (map least (map variable_of vars.now)) from }
{
    part_of(from.part, vars[from.var].least())
}

/// The greatest number that an operand takes.
fn greatest_in(vars: &[VarSpec], from: Operand) -> u64
    requires { from.var < length vars.now }
    ensures { result ≡ number_in (map greatest (map variable_of vars.now)) from }
{
    part_of(from.part, vars[from.var].greatest())
}

/// The length in bytes of the shortest packet: the least number of the trim, or the template's length where there is none.
pub fn least_length(vars: &[VarSpec], instrs: &[Instr], template: usize) -> usize
    requires { All (TakesFrom (length vars.now)) instrs.now }
    ensures { result ≡ least_length (map variable_of vars.now) instrs.now template }
{
    for instr in instrs {
        if let Some(from) = instr.trim_of() {
            return least_in(vars, from) as usize;
        }
    }
    template
}

/// The bytes of the shortest packet in front of its latency header.
pub fn room_of(shortest: usize, stamp: Option<Version>) -> usize
    ensures { result ≡ room_of shortest stamp }
{
    match stamp {
        Some(version) => shortest.saturating_sub(version.size()),
        None => shortest,
    }
}

/// Whether the shortest packet is too short to end in its latency header, with an Ethernet header before it.
pub fn no_room_for_stamp(shortest: usize, stamp: Option<Version>) -> bool
    ensures { result ≡ no_room_for_stamp shortest stamp }
{
    match stamp {
        Some(version) => shortest < version.shortest_stamped(),
        None => false,
    }
}

/// Whether an instruction cuts the packet.
pub fn is_trim(instr: &Instr) -> bool
    ensures { result ≡ is_trim instr.now }
{
    instr.trim_of().is_some()
}

/// Whether an instruction is a trim whose least number is below 14, or whose greatest is above the template's length in bytes.
pub fn trim_wrong(vars: &[VarSpec], template: usize, instr: &Instr) -> bool
    requires { TakesFrom (length vars.now) instr.now }
    ensures { result ≡ trim_wrong (map variable_of vars.now) template instr.now }
{
    match instr.trim_of() {
        Some(from) => {
            least_in(vars, from) < SHORTEST_PACKET as u64
                || greatest_in(vars, from) > template as u64
        }
        None => false,
    }
}

/// Whether an instruction is a write that ends after the room.
pub fn writes_past(room: usize, instr: &Instr) -> bool
    ensures { result ≡ writes_past room instr.now }
{
    match instr.write_of() {
        Some(span) => (room as u128) < span.at + u128::from(span.size),
        None => false,
    }
}

/// Whether so many bytes from a place on lie within a room.
fn is_within(at: usize, size: usize, room: usize) -> bool
    ensures { result ≡ nat_le (at + size) room }
{
    at <= room && size <= room - at
}

/// The byte at a place, or 0 past the last.
fn byte_at(bytes: &[u8], at: usize) -> u8
    ensures { result ≡ slice_index bytes.now at }
{
    bytes.get(at).copied().unwrap_or(0)
}

/// The number of a version of IP, which the upper four bits of a header's first byte hold.
fn number_of(version: IpVersion) -> u8
    ensures { result ≡ number_of version }
{
    match version {
        IpVersion::V4 => 4,
        IpVersion::V6 => 6,
    }
}

/// The length in bytes of an IP header, by its first byte.
fn network_length(version: IpVersion, first: u8) -> usize
    ensures value { result ≡ network_length version first }
    ensures small { result ≤ 60 }
{
    match version {
        IpVersion::V4 => words_to_bytes(first),
        IpVersion::V6 => IPV6_LEN,
    }
}

/// Whether an IP header stands at a place and ends within the room: it has the version's number, and not fewer bytes than without options.
fn has_network(version: IpVersion, bytes: &[u8], room: usize, at: usize) -> bool
    ensures { result ≡ has_network version bytes.now room at }
{
    let least = network_places(version).end;
    let first = byte_at(bytes, at);
    let header = network_length(version, first);
    is_within(at, least, room)
        && first / 16 == number_of(version)
        && header >= least
        && is_within(at, header, room)
}

/// Whether a fix finds its header.
fn finds_header(template: &[u8], room: usize, fix: Fix) -> bool
    ensures { result ≡ finds_header template.now room fix }
{
    match fix {
        Fix::Header { at } => has_network(IpVersion::V4, template, room, at),
        Fix::Segment {
            version,
            ip,
            header,
            kind,
        } => {
            has_network(version, template, room, ip)
                && header == network_length(version, byte_at(template, ip))
                && byte_at(template, ip + network_places(version).protocol) == protocol_of(kind)
                && is_within(ip, header + least_segment(kind), room)
        }
    }
}

/// Whether an instruction is a fix that has no header to fix within the room: an IPv4 header of version 4 and at least 20 bytes, or an IPv6
/// header of version 6 and 40 bytes; for a segment also the header's length as given, the protocol or next header 6 or 17, and the segment's
/// own header.
pub fn misses_header(template: &[u8], room: usize, instr: &Instr) -> bool
    ensures { result ≡ misses_header template.now room instr.now }
{
    match instr.fix_of() {
        Some(fix) => !finds_header(template, room, fix),
        None => false,
    }
}

/// Whether an instruction writes a byte.
fn writes_byte(instr: &Instr, byte: u128) -> bool
    ensures { result ≡ writes_byte instr.now byte }
{
    let span = instr.span_of();
    span.at <= byte && byte < span.at + u128::from(span.size)
}

/// Whether an instruction writes the first byte, or the protocol or next header, of the header that a fix names.
fn overwrites_kind(instr: &Instr, fix: Fix) -> bool
    ensures { result ≡ overwrites_kind instr.now fix }
{
    let ip = fix.header() as u128;
    let protocol = ip + network_places(fix.version()).protocol as u128;
    writes_byte(instr, ip) || writes_byte(instr, protocol)
}

/// Whether an instruction writes those bytes of the header that another one names, where that is a fix.
fn overwrites_kind_of(instr: &Instr, other: &Instr) -> bool
    ensures { result ≡ overwrites_kind_of instr.now other.now }
{
    match other.fix_of() {
        Some(fix) => overwrites_kind(instr, fix),
        None => false,
    }
}

/// Whether an instruction writes byte 0 or byte 9 of an IPv4 header that a fix of the list names, or byte 0 or byte 6 of such an IPv6 header:
/// its version and length, or its protocol or next header. A fix writes its checksum field.
pub fn overwrites_header_kind(instrs: &[Instr], instr: &Instr) -> bool
    ensures { result ≡ overwrites_header_kind instrs.now instr.now }
{
    instrs.iter().any(|other| overwrites_kind_of(instr, other))
}

/// Whether a trim of the instructions is out of its range.
fn any_trim_wrong(vars: &[VarSpec], template: usize, instrs: &[Instr]) -> bool
    requires { All (TakesFrom (length vars.now)) instrs.now }
    ensures { result ≡ list_any (trim_wrong (map variable_of vars.now) template) instrs.now }
{
    for instr in instrs {
        if trim_wrong(vars, template, instr) {
            return true;
        }
    }
    false
}

/// How many trims there are.
fn trims(instrs: &[Instr]) -> usize
    ensures { result ≡ count_by is_trim instrs.now }
{
    instrs.iter().filter(|instr| is_trim(instr)).count()
}

/// Whether a write ends after the room.
fn any_writes_past(room: usize, instrs: &[Instr]) -> bool
    ensures { result ≡ list_any (writes_past room) instrs.now }
{
    instrs.iter().any(|instr| writes_past(room, instr))
}

/// Whether a fix has no header to fix.
fn any_misses_header(template: &[u8], room: usize, instrs: &[Instr]) -> bool
    ensures { result ≡ list_any (misses_header template.now room) instrs.now }
{
    instrs
        .iter()
        .any(|instr| misses_header(template, room, instr))
}

/// Whether an instruction writes those bytes of a header that a fix names.
fn any_overwrites_header_kind(instrs: &[Instr]) -> bool
    ensures { result ≡ list_any (overwrites_header_kind instrs.now) instrs.now }
{
    instrs
        .iter()
        .any(|instr| overwrites_header_kind(instrs, instr))
}

/// Whether the instructions break no rule.
pub(crate) fn accepts(
    vars: &[VarSpec],
    template: &[u8],
    stamp: Option<Version>,
    instrs: &[Instr],
) -> bool
    requires { All (TakesFrom (length vars.now)) instrs.now }
    ensures { result ≡ accepts (map variable_of vars.now) template.now stamp instrs.now }
{
    if trims(instrs) > 1 || any_trim_wrong(vars, template.len(), instrs) {
        return false;
    }
    let shortest = least_length(vars, instrs, template.len());
    if no_room_for_stamp(shortest, stamp) {
        return false;
    }
    let room = room_of(shortest, stamp);
    if any_writes_past(room, instrs) || any_misses_header(template, room, instrs) {
        return false;
    }
    !any_overwrites_header_kind(instrs)
}
