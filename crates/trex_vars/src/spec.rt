// What a variable is, as a profile gives it.

/// How a counter or a list goes from one packet to the next.
#[derive(Clone, Copy, PartialEq, Eq, Debug, Drop)]
pub enum Op {
    /// Up by the step, from the greatest on to the least.
    Inc,
    /// Down by the step, from the least on to the greatest.
    Dec,
    /// To a word of the generator.
    Random,
}

/// A variable of a stream. Sizes are in bytes. Word i of a seed and a position is the answer of the (i+1)-th step of the PCG generator
/// XSL RR 128/64 with that state and that stream.
#[derive(Debug, Drop)]
pub enum VarSpec {
    /// A number from `min` to `max`, `init` at packet 0 where it isn't random.
    Counter {
        op: Op,
        size: u8,
        init: u64,
        min: u64,
        max: u64,
        step: u64,
        seed: u64,
        position: u32,
    },
    /// Random numbers from `min` to `max`, of which the first `limit` come again and again.
    RandLimit {
        size: u8,
        min: u64,
        max: u64,
        limit: u64,
        seed: u64,
        position: u32,
    },
    /// One of the values, by its place in the list, the first at packet 0 where it isn't random.
    List {
        op: Op,
        size: u8,
        step: u64,
        values: Vec<u64>,
        seed: u64,
        position: u32,
    },
    /// An IPv4 address and a port: address by address, then the next port, and from the last of `limit` pairs on to the first. All pairs
    /// where the limit is 0 or above their number.
    Tuple {
        ip_min: u32,
        ip_max: u32,
        port_min: u16,
        port_max: u16,
        limit: u32,
    },
}
