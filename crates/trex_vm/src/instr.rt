// Instructions of the field engine, and what they take from the variables.

/// The part of a variable's value that an instruction takes.
#[derive(Clone, Copy, PartialEq, Eq, Debug, Drop)]
pub enum Part {
    /// The number of a variable that has one.
    Whole,
    /// The IPv4 address of a pair.
    Ip,
    /// The port of a pair.
    Port,
}

/// What an instruction takes from the variables of its stream.
#[derive(Clone, Copy, PartialEq, Eq, Debug, Drop)]
pub struct Operand {
    /// The variable's place.
    pub var: usize,
    pub part: Part,
    /// The bytes that the part is written in: 1, 2, 4 or 8.
    pub size: u8,
}

/// Which kind of segment stands behind an IP header.
#[derive(Clone, Copy, PartialEq, Eq, Debug, Drop)]
pub enum L4Kind {
    /// A TCP segment (RFC 793).
    Tcp,
    /// A UDP datagram (RFC 768).
    Udp,
}

/// One step of a program over a packet's bytes. Places count from the packet's first byte. A number's bytes stand highest first where
/// `big` is true, else lowest first.
#[derive(Clone, Copy, PartialEq, Eq, Debug, Drop)]
pub enum Instr {
    /// Writes the operand plus `add` at `at`, modulo 256 to the operand's size.
    Write {
        from: Operand,
        at: usize,
        add: i64,
        big: bool,
    },
    /// Takes the operand plus `add` modulo 2^64, shifts it by `shift` bits, to the left where `shift` is positive and to the right where it
    /// is negative, and puts those of its bits where `mask` has ones into the number of `cast` bytes at `at`.
    WriteMask {
        from: Operand,
        at: usize,
        cast: u8,
        mask: u64,
        shift: i8,
        add: i64,
        big: bool,
    },
    /// Writes the checksum of the IPv4 header at `at` (RFC 791, section 3.1).
    FixIpv4 {
        at: usize,
    },
    /// Writes the checksum of the segment behind the IPv4 header of `header` bytes at `ip`, over the pseudo header and the segment
    /// (RFC 768; RFC 793, section 3.1). A segment whose length is below its own header's or goes past the packet is left as it is, and a
    /// UDP checksum that comes out as zero is written as 0xffff.
    FixL4 {
        ip: usize,
        header: usize,
        kind: L4Kind,
    },
    /// Writes the checksum of the segment behind the IPv6 header at `ip`, with IPv6's pseudo header (RFC 8200, section 8.1), else as over IPv4.
    FixL6 {
        ip: usize,
        kind: L4Kind,
    },
    /// Cuts the packet to the operand's number of bytes, before the latency header and all other instructions.
    Trim {
        from: Operand,
    },
}
