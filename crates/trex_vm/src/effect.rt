// What an instruction does to a packet, by three projections: each kind of instruction writes a number, fixes a checksum or cuts the packet.
// Whatever else is said of an instruction rests on these.

ghost use Rattle.std.specs.Prelude.{◌≡◌, ◌^◌, ◌<◌, IfSome};
ghost use Rattle.trex_vm.specs.Effect.{write_of, fix_of, trim_of, span_of};
ghost use Rattle.trex_vm.specs.Fix.{field_of, header_of, ip_version};

use crate::fix::{HEADER_SUM, sum_place};
use crate::instr::{Instr, L4Kind, Operand};
use trex_headers::{IPV6_LEN, Version as IpVersion};

/// So many bytes of a packet, from a place on. The place is wide enough for the field of any fix.
#[derive(Clone, Copy)]
pub(crate) struct Span {
    pub(crate) at: u128,
    pub(crate) size: u8,
}

/// What the checksum of a fix covers.
#[derive(Clone, Copy)]
pub(crate) enum Fix {
    /// The IPv4 header at a place.
    Header {
        at: usize,
    },
    /// The segment behind the IP header of `header` bytes at `ip`, with its pseudo header.
    Segment {
        version: IpVersion,
        ip: usize,
        header: usize,
        kind: L4Kind,
    },
}

impl Fix {
    /// The place of the IP header that the fix names.
    pub(crate) fn header(self) -> usize
        ensures { result ≡ header_of self }
    {
        match self {
            Fix::Header { at: ip } | Fix::Segment { ip, .. } => ip,
        }
    }

    /// The version of that header.
    pub(crate) fn version(self) -> IpVersion
        ensures { result ≡ ip_version self }
    {
        match self {
            Fix::Header { .. } => IpVersion::V4,
            Fix::Segment { version, .. } => version,
        }
    }

    /// The field that the checksum is written in.
    fn field(self) -> Span
        ensures value { result ≡ field_of self }
        ensures small { result.at < 2 ^ 66 }
    {
        let at = match self {
            Fix::Header { at } => at as u128 + HEADER_SUM as u128,
            Fix::Segment {
                ip,
                header,
                kind,
                ..
            } => { ip as u128 + header as u128 + sum_place(kind) as u128 }
        };
        Span { at, size: 2 }
    }
}

impl Instr {
    /// The bytes that a write puts its number in.
    pub(crate) fn write_of(&self) -> Option<Span>
        ensures value { result ≡ write_of self.now }
        ensures small { IfSome result (λ span. span.at < 2 ^ 64) }
    {
        match *self {
            Instr::Write { from, at, .. } => Some(Span {
                at: at as u128,
                size: from.size,
            }),
            Instr::WriteMask { at, cast, .. } => Some(Span {
                at: at as u128,
                size: cast,
            }),
            _ => None,
        }
    }

    /// What a fix writes the checksum of.
    pub(crate) fn fix_of(&self) -> Option<Fix>
        ensures { result ≡ fix_of self.now }
    {
        match *self {
            Instr::FixIpv4 { at } => Some(Fix::Header { at }),
            Instr::FixL4 { ip, header, kind } => Some(Fix::Segment {
                version: IpVersion::V4,
                ip,
                header,
                kind,
            }),
            Instr::FixL6 { ip, kind } => Some(Fix::Segment {
                version: IpVersion::V6,
                ip,
                header: IPV6_LEN,
                kind,
            }),
            _ => None,
        }
    }

    /// The operand whose number of bytes a trim leaves.
    pub(crate) fn trim_of(&self) -> Option<Operand>
        ensures { result ≡ trim_of self.now }
    {
        match *self {
            Instr::Trim { from } => Some(from),
            _ => None,
        }
    }

    /// The bytes that the instruction changes: those of its write, or the field of its fix. A trim changes none.
    pub(crate) fn span_of(&self) -> Span
        ensures value { result ≡ span_of self.now }
        ensures small { result.at < 2 ^ 66 }
    {
        match (self.write_of(), self.fix_of()) {
            (Some(span), _) => span,
            (None, Some(fix)) => fix.field(),
            (None, None) => Span { at: 0, size: 0 },
        }
    }
}
