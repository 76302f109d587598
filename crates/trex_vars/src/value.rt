// What a variable shows at one packet.

/// The value of a variable at one packet.
#[derive(Clone, Copy, PartialEq, Eq, Debug, Drop)]
pub enum VarValue {
    /// A number.
    One(u64),
    /// An IPv4 address and a port.
    Pair { ip: u32, port: u16 },
}
