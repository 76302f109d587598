// What a profile says before its values are looked at.

use crate::flow::Flow;
use crate::name::Name;
use trex_sched::Mode;
use trex_vars::Op;

/// What a profile says, its shape already looked at and its values not yet.
#[derive(Debug, Drop)]
pub struct RawProfile {
    pub streams: Vec<RawStream>,
}

/// What one stream says, each default filled in.
#[derive(Debug, Drop)]
pub struct RawStream {
    /// At most 2147483647.
    pub id: u32,
    pub enabled: bool,
    pub self_start: bool,
    /// The gap before each run, in nanoseconds, at most 10^18.
    pub isg: u64,
    /// The id of the stream that comes next, at most 2147483647, where there is one.
    pub next: Option<u32>,
    /// After so many visits the chain stops; 0 where it doesn't.
    pub action_count: u32,
    pub seed: u64,
    /// The bytes of each packet, before its instructions.
    pub template: Vec<u8>,
    pub rate: RawRate,
    pub mode: Mode,
    /// The flow of the packets, where they end in latency headers.
    pub flow: Option<Flow>,
    /// At most 256.
    pub instrs: Vec<RawInstr>,
}

/// What a rate counts a second: packets, the bits of Ethernet frames with preamble and gap, or those of frames.
#[derive(Clone, Copy, Debug, PartialEq, Eq)]
pub enum RateKind {
    Pps,
    BpsL1,
    BpsL2,
}

/// A rate, in millionths of a packet or of a bit a second, below 10^30.
#[derive(Clone, Copy, Debug, PartialEq, Eq)]
pub struct RawRate {
    pub kind: RateKind,
    pub value: u128,
}

/// Where a write begins.
#[derive(Debug, Drop)]
pub enum RawPlace {
    /// A byte of the packet, counted from 0.
    At(u64),
    /// The first byte of the field of that name, as `IP.src` or `IPv6.src`.
    Named(Name),
}

/// What one instruction says, each default filled in. Sizes and casts are numbers of bytes: 1, 2, 4 or 8. A variable that restarts counts
/// within a run of its stream, another one over all of its visits.
#[derive(Debug, Drop)]
pub enum RawInstr {
    /// A counter from `min` to `max` that begins at `init`, or random numbers of that range.
    FlowVar {
        name: Name,
        size: u8,
        op: Op,
        init: u64,
        min: u64,
        max: u64,
        step: u64,
        restart: bool,
    },
    /// One of these values after another, or random ones of them.
    ListVar {
        name: Name,
        size: u8,
        op: Op,
        step: u64,
        values: Vec<u64>,
        restart: bool,
    },
    /// So many random numbers from `min` to `max`, over and over.
    RandLimit {
        name: Name,
        size: u8,
        min: u64,
        max: u64,
        limit: u64,
        seed: u64,
        restart: bool,
    },
    /// Pairs of an IPv4 address and a port, over and over: so many, or all where the limit is 0. It gives two names, that of the
    /// address with `.ip` after its own and that of the port with `.port`.
    Tuple {
        name: Name,
        ip_min: u32,
        ip_max: u32,
        port_min: u16,
        port_max: u16,
        limit: u32,
        restart: bool,
    },
    /// Writes a variable and a number added to it.
    Write {
        name: Name,
        place: RawPlace,
        add: i64,
        big: bool,
    },
    /// Writes the bits of a mask of a variable, shifted to the left by `shift`, -63 to 63.
    WriteMask {
        name: Name,
        place: RawPlace,
        cast: u8,
        mask: u64,
        shift: i8,
        add: i64,
        big: bool,
    },
    /// Fixes the checksum of the IPv4 header at a byte of the packet (RFC 791, section 3.1).
    FixIpv4 {
        at: u64,
    },
    /// Fixes the checksum of the IPv4 header of `l3` bytes at `l2`, and then, where `l4` is 11, that of the UDP segment behind it
    /// (RFC 768), where it is 13 that of the TCP segment (RFC 793), and where it is 17 no other.
    FixHw {
        l2: u64,
        l3: u64,
        l4: u8,
    },
    /// Fixes the checksum of what stands behind the IPv6 header at `l2` (RFC 8200, section 8.1): where `l4` is 11 that of the UDP segment,
    /// where it is 13 that of the TCP segment.
    FixL6 {
        l2: u64,
        l4: u8,
    },
    /// Cuts the packet to the bytes that a variable says.
    Trim {
        name: Name,
    },
}
