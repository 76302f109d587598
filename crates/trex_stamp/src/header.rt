// What a latency header says, and how many bytes it takes.

ghost use Rattle.std.specs.Prelude.{◌≡◌};

/// The length of an Ethernet header in bytes (IEEE 802.3, 3.1.1).
const ETHERNET_LEN: usize = 14;

pub(crate) const SIZE_ONE: usize = 16;

pub(crate) const SIZE_TWO: usize = 24;

/// Which of the two latency headers. Version 1 is shorter; version 2 has room for more flows and packets.
#[derive(Clone, Copy, PartialEq, Eq, Debug, Drop)]
pub enum Version {
    One,
    Two,
}

impl Version {
    ghost use Rattle.trex_stamp.specs.Stamp.{shortest_stamped, size_of};

    /// The length of the header in bytes: 16 or 24.
    pub fn size(self) -> usize
        ensures { result ≡ size_of self }
    {
        match self {
            Version::One => SIZE_ONE,
            Version::Two => SIZE_TWO,
        }
    }

    /// The length in bytes of the shortest packet that ends in the header: an Ethernet header stands before it.
    pub fn shortest_stamped(self) -> usize
        ensures { result ≡ shortest_stamped self }
    {
        ETHERNET_LEN + self.size()
    }
}

/// The latency header at the end of a packet. Version 1 has a flow below 2^16 and a sequence below 2^32.
#[derive(Clone, Copy, PartialEq, Eq, Debug, Drop)]
pub struct Stamp {
    pub version: Version,
    /// The flow that the packet belongs to.
    pub flow: u32,
    /// The packet's number in its stream, in version 1 modulo 2^32.
    pub sequence: u64,
    /// The time at which the packet is due, in ns.
    pub time: u64,
}
